//! The longest sign at the front of a text.

ghost use Rattle.std.specs.Prelude.{◌≡◌};
ghost use Rattle.std.specs.Option.{option_map};
ghost use Rattle.jx9_syntax.specs.Signs.{single as spec_single, with_equals as spec_with_equals, doubled as spec_doubled, pair as spec_pair, lengthened as spec_lengthened, sign_of_one as spec_sign_of_one, sign_of_two as spec_sign_of_two, sign_of_three as spec_sign_of_three, sign_at as spec_sign_at};

use jx9_syntax::Sign;

/// The longest sign at the front, and what stands behind it.
pub(crate) fn sign_at(text: &[u8]) -> Option<(Sign, &[u8])>
    ensures { option_map (λ x. (x.0, x.1.now)) result ≡ spec_sign_at text.now }
{
    if let Some(found) = sign_of_three(text) {
        return Some(found);
    }
    if let Some(found) = sign_of_two(text) {
        return Some(found);
    }
    sign_of_one(text)
}

fn sign_of_three(text: &[u8]) -> Option<(Sign, &[u8])>
    ensures { option_map (λ x. (x.0, x.1.now)) result ≡ spec_sign_of_three text.now }
{
    let [first, second, third, rest @ ..] = text else {
        return None;
    };
    let shorter = pair(*first, *second)?;
    if *third != b'=' {
        return None;
    }
    Some((lengthened(shorter)?, rest))
}

fn sign_of_two(text: &[u8]) -> Option<(Sign, &[u8])>
    ensures { option_map (λ x. (x.0, x.1.now)) result ≡ spec_sign_of_two text.now }
{
    let [first, second, rest @ ..] = text else {
        return None;
    };
    Some((pair(*first, *second)?, rest))
}

fn sign_of_one(text: &[u8]) -> Option<(Sign, &[u8])>
    ensures { option_map (λ x. (x.0, x.1.now)) result ≡ spec_sign_of_one text.now }
{
    let [first, rest @ ..] = text else {
        return None;
    };
    Some((single(*first)?, rest))
}

/// The sign that is made longer by `=`, where that has three bytes.
fn lengthened(sign: Sign) -> Option<Sign>
    ensures { result ≡ spec_lengthened sign }
{
    match sign {
        Sign::Join => Some(Sign::JoinAssign),
        Sign::Equal => Some(Sign::Same),
        Sign::NotEqual => Some(Sign::NotSame),
        _ => None,
    }
}

/// A sign of two bytes.
fn pair(first: u8, second: u8) -> Option<Sign>
    ensures { result ≡ spec_pair first second }
{
    if second == b'=' {
        with_equals(first)
    } else if second == first {
        doubled(first)
    } else {
        None
    }
}

/// The sign of the byte and `=`.
fn with_equals(first: u8) -> Option<Sign>
    ensures { result ≡ spec_with_equals first }
{
    match first {
        b'+' => Some(Sign::PlusAssign),
        b'-' => Some(Sign::MinusAssign),
        b'*' => Some(Sign::TimesAssign),
        b'/' => Some(Sign::DivideAssign),
        b'%' => Some(Sign::RemainderAssign),
        b'=' => Some(Sign::Equal),
        b'!' => Some(Sign::NotEqual),
        b'<' => Some(Sign::LessOrEqual),
        b'>' => Some(Sign::GreaterOrEqual),
        _ => None,
    }
}

/// The sign of the byte twice, but for `==`.
fn doubled(byte: u8) -> Option<Sign>
    ensures { result ≡ spec_doubled byte }
{
    match byte {
        b'.' => Some(Sign::Join),
        b'&' => Some(Sign::And),
        b'|' => Some(Sign::Or),
        b'+' => Some(Sign::Increment),
        b'-' => Some(Sign::Decrement),
        _ => None,
    }
}

/// A sign of one byte.
fn single(byte: u8) -> Option<Sign>
    ensures { result ≡ spec_single byte }
{
    match byte {
        b'+' => Some(Sign::Plus),
        b'-' => Some(Sign::Minus),
        b'*' => Some(Sign::Times),
        b'/' => Some(Sign::Divide),
        b'%' => Some(Sign::Remainder),
        b'.' => Some(Sign::Dot),
        b'=' => Some(Sign::Assign),
        b'<' => Some(Sign::Less),
        b'>' => Some(Sign::Greater),
        b'!' => Some(Sign::Not),
        b'?' => Some(Sign::Question),
        b':' => Some(Sign::Colon),
        b'(' => Some(Sign::OpenParen),
        b')' => Some(Sign::CloseParen),
        b'[' => Some(Sign::OpenBracket),
        b']' => Some(Sign::CloseBracket),
        b'{' => Some(Sign::OpenBrace),
        b'}' => Some(Sign::CloseBrace),
        b',' => Some(Sign::Comma),
        b';' => Some(Sign::Semicolon),
        _ => None,
    }
}

//! The numbers of values and of texts.
ghost use Rattle.std.specs.Prelude.{◌≡◌, ◌-◌, ◌^◌, min, option_map};
ghost use Rattle.uq_value.specs.Number.{number as spec_number, text_number as spec_text_number, unsigned as spec_unsigned, signed, positive as spec_positive, negative as spec_negative};

use crate::value::Value;

/// The number of a value: a whole number's own, 0 for null and false, 1 for true, and that of a text of `-`? and
/// decimal digits where it fits in 64 bits. All else has none.
pub fn number(v: &Value) -> Option<i64>
    ensures { result ≡ spec_number v.now }
{
    match v {
        Value::Null => Some(0),
        Value::Bool(b) => Some(if *b { 1 } else { 0 }),
        Value::Int(z) => Some(*z),
        Value::Text(t) => text_number(t.bytes()),
        Value::List(_) | Value::Object(_) => None,
    }
}

pub(crate) fn text_number(bytes: &[u8]) -> Option<i64>
    ensures { result ≡ spec_text_number bytes.now }
{
    match bytes.split_first() {
        None => None,
        Some((c, digits)) => {
            if *c == b'-' {
                from_digits(true, digits)
            } else {
                from_digits(false, bytes)
            }
        }
    }
}

/// The whole number of this sign and these decimal digits: None exactly where there is no digit, where another byte is
/// among them, or where the number does not fit in 64 bits. Leading zeros are allowed.
pub fn from_digits(is_negative: bool, digits: &[u8]) -> Option<i64>
    ensures { result ≡ signed is_negative digits.now }
{
    let size = unsigned(digits);
    if is_negative {
        negative(size)
    } else {
        positive(size)
    }
}

/// The number of one decimal digit or more. All that is above the greatest `u64` counts as that.
fn unsigned(digits: &[u8]) -> Option<u64>
    ensures { result ≡ option_map (λ n. min n (2 ^ 64 - 1)) (spec_unsigned digits.now) }
{
    if digits.is_empty() {
        return None;
    }
    let mut n = 0u64;
    for c in digits {
        if !c.is_ascii_digit() {
            return None;
        }
        n = n.saturating_mul(10).saturating_add(u64::from(*c - b'0'));
    }
    Some(n)
}

/// The number as it is, where it is below 2^63.
fn positive(n: Option<u64>) -> Option<i64>
    ensures { result ≡ spec_positive n }
{
    let n = n?;
    if n < 1 << 63 { Some(n as i64) } else { None }
}

/// The opposite of the number, where it is at most 2^63.
fn negative(n: Option<u64>) -> Option<i64>
    ensures { result ≡ spec_negative n }
{
    let n = n?;
    if n == 0 {
        Some(0)
    } else if n <= 1 << 63 {
        Some(-1 - (n - 1) as i64)
    } else {
        None
    }
}

//! The whole numbers of JSON.
ghost use Rattle.std.specs.Prelude.{◌≡◌, true, if◌then◌else◌};
ghost use Rattle.std.specs.Char.{is_ascii_digit};
ghost use Rattle.std.specs.List.{list_all};
ghost use Rattle.uq_value.specs.Number.{positive, negative};
ghost use Rattle.uq_json.specs.Grammar.{has_no_leading_zero as spec_has_no_leading_zero};
ghost use Rattle.uq_json.specs.Internal.Reading.{Gives, number_at, natural as spec_natural};

use crate::error::JsonFault;
use crate::scanning::{next_is, split_digits};
use uq_value::from_digits;

/// The number at the front of the text, and the text behind it.
pub(crate) fn number(text: &[u8]) -> Result<(i64, &[u8]), JsonFault>
    ensures { Gives (λ x. (x.0, x.1.now)) result (number_at text.now) }
{
    let is_negative = next_is(b'-', text);
    let unsigned = if is_negative { &text[1..] } else { text };
    let (digits, rest) = split_digits(unsigned);
    match natural(is_negative, digits) {
        Some(z) => Ok((z, rest)),
        None => Err(JsonFault::NotJson),
    }
}

/// The number of a sign and digits without a leading zero.
fn natural(is_negative: bool, digits: &[u8]) -> Option<i64>
    requires { list_all is_ascii_digit digits.now ≡ true }
    ensures { result ≡ (if is_negative then negative (spec_natural digits.now) else positive (spec_natural digits.now)) }
{
    if has_no_leading_zero(digits) {
        from_digits(is_negative, digits)
    } else {
        None
    }
}

/// Whether there are digits, and `0` is the first of them only where it is alone.
fn has_no_leading_zero(digits: &[u8]) -> bool
    ensures { result ≡ spec_has_no_leading_zero digits.now }
{
    match digits {
        [] => false,
        [_] => true,
        [first, ..] => *first != b'0',
    }
}

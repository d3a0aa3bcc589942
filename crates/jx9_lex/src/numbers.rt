//! Whole numbers, decimal and hexadecimal.

ghost use Rattle.std.specs.Prelude.{◌≡◌, ◌<◌, ◌≤◌, ◌-◌, ◌^◌, min, pos, true, false, Some, None, if◌then◌else◌, IfOk, IfErr};
ghost use Rattle.std.specs.Char.{digit_value as spec_digit_value, is_ascii_digit, is_ascii_hexdigit};
ghost use Rattle.jx9_syntax.specs.Bytes.{value_in};
ghost use Rattle.jx9_syntax.specs.Front.{zero_at};
ghost use Rattle.jx9_lex.specs.Cuts.{CutsInt};
ghost use Rattle.jx9_lex.specs.Numbers.{begins_with, is_zero, first_number};
ghost use Rattle.jx9_lex.specs.declared.stop.Stop.TheVariants.{Bad};

use crate::class::{Class, split_run};
use crate::stop::Stop;

/// The number at the front, and what stands behind it.
pub(crate) fn number(text: &[u8]) -> Result<(i64, &[u8]), Stop>
    requires { begins_with is_ascii_digit text.now ≡ true }
    ensures { CutsInt result (first_number text.now) }
{
    match text {
        [b'0', rest @ ..] => behind_zero(rest),
        _ => decimal(text),
    }
}

/// Digits without a leading zero.
fn decimal(text: &[u8]) -> Result<(i64, &[u8]), Stop>
    requires digit { begins_with is_ascii_digit text.now ≡ true }
    requires leads { begins_with is_zero text.now ≡ false }
    ensures { CutsInt result (first_number text.now) }
{
    let (digits, rest) = split_run(Class::Decimal, text);
    let z = in_limit(natural(10, digits))?;
    Ok((z, rest))
}

/// `0`, or `0x` and hexadecimal digits, here behind the `0`.
fn behind_zero(text: &[u8]) -> Result<(i64, &[u8]), Stop>
    ensures { CutsInt result (zero_at text.now) }
{
    let [b'x', behind @ ..] = text else {
        return Ok((0, text));
    };
    let (digits, rest) = split_run(Class::Hexadecimal, behind);
    if digits.is_empty() {
        return Ok((0, text));
    }
    let z = in_limit(natural(16, digits))?;
    Ok((z, rest))
}

/// The number, where it is at most 2^63 - 1.
fn in_limit(n: u64) -> Result<i64, Stop>
    ensures ok { IfOk result (λ z. (z ≡ pos n) × (n < 2 ^ 63)) }
    ensures err { IfErr result (λ e. (e ≡ Bad) × (2 ^ 63 ≤ n)) }
{
    match i64::try_from(n) {
        Ok(z) => Ok(z),
        Err(_) => Err(Stop::Bad),
    }
}

/// The number of the digits in this base. All that is above the greatest `u64` counts as that.
fn natural(base: u64, digits: &[u8]) -> u64
    requires { 1 ≤ base }
    ensures { result ≡ min (value_in base 0 digits.now) (2 ^ 64 - 1) }
{
    let mut n = 0u64;
    for c in digits {
        n = n
            .saturating_mul(base)
            .saturating_add(u64::from(digit_value(*c)));
    }
    n
}

/// The value of a digit or a letter, and 36 for any other byte.
fn digit_value(c: u8) -> u8
    ensures { result ≡ spec_digit_value c }
{
    match c {
        b'0'..=b'9' => c - b'0',
        b'A'..=b'Z' => c - b'A' + 10,
        b'a'..=b'z' => c - b'a' + 10,
        _ => 36,
    }
}

/// The value of a hexadecimal digit of either case.
pub(crate) fn hex_digit(c: u8) -> Option<u8>
    ensures { result ≡ (if is_ascii_hexdigit c then Some (spec_digit_value c) else None) }
{
    if c.is_ascii_hexdigit() {
        Some(digit_value(c))
    } else {
        None
    }
}

//! One piece of a text in quotes: a byte that stands for itself, an escape, or a variable.

ghost use Rattle.std.specs.Prelude.{◌≡◌, ◌<◌, ◌≤◌, length, IfSome, ◌∷◌, Some};
ghost use Rattle.std.specs.Option.{option_map};
ghost use Rattle.jx9_syntax.specs.Quoted.{letter as spec_letter, number_escape_at, single_escape_at, double_escape_at, escape_at, dollar_at, piece_at};
ghost use Rattle.jx9_lex.specs.Built.{piece};
ghost use Rattle.jx9_lex.specs.Numbers.{hexadecimal_byte};

use crate::class::{Class, is_letter, split_run};
use crate::numbers::hex_digit;

/// What a piece tells.
#[derive(Clone, Copy, Drop)]
pub(crate) enum Piece<'t> {
    /// A byte of the text.
    Byte(u8),
    /// A variable, by its name without `$`.
    Variable(&'t [u8]),
}

/// The piece at the front of a text that this quote closes, and what stands behind it. There is none at the quote and
/// at the end.
pub(crate) fn first_piece(quote: u8, text: &[u8]) -> Option<(Piece<'_>, &[u8])>
    ensures piece { option_map (λ x. (piece x.0, x.1.now)) result ≡ piece_at quote text.now }
    ensures shorter { IfSome result (λ x. length x.1.now < length text.now) }
{
    let [first, rest @ ..] = text else {
        return None;
    };
    if *first == quote {
        None
    } else if *first == b'\\' {
        Some(escape(quote, rest))
    } else if *first == b'$' {
        Some(dollar(quote, rest))
    } else {
        Some((Piece::Byte(*first), rest))
    }
}

/// What stands behind a backslash. Where no escape begins there, the backslash stands for itself.
fn escape(quote: u8, text: &[u8]) -> (Piece<'_>, &[u8])
    ensures piece { Some (piece result.0, result.1.now) ≡ escape_at quote text.now }
    ensures shorter { length result.1.now ≤ length text.now }
{
    if quote == b'"' {
        double_escape(text)
    } else {
        single_escape(text)
    }
}

/// `\'` and `\\`.
fn single_escape(text: &[u8]) -> (Piece<'_>, &[u8])
    ensures piece { Some (piece result.0, result.1.now) ≡ single_escape_at text.now }
    ensures shorter { length result.1.now ≤ length text.now }
{
    match text {
        [c, rest @ ..] if *c == b'\'' || *c == b'\\' => (Piece::Byte(*c), rest),
        _ => (Piece::Byte(b'\\'), text),
    }
}

/// `\n`, `\t`, `\r`, `\\`, `\"`, `\$`, and `\x` with two hexadecimal digits.
fn double_escape(text: &[u8]) -> (Piece<'_>, &[u8])
    ensures piece { Some (piece result.0, result.1.now) ≡ double_escape_at text.now }
    ensures shorter { length result.1.now ≤ length text.now }
{
    match text {
        [b'x', rest @ ..] => number_escape(text, rest),
        [c, rest @ ..] => match letter(*c) {
            Some(byte) => (Piece::Byte(byte), rest),
            None => (Piece::Byte(b'\\'), text),
        },
        [] => (Piece::Byte(b'\\'), text),
    }
}

fn letter(c: u8) -> Option<u8>
    ensures { result ≡ spec_letter c }
{
    match c {
        b'n' => Some(b'\n'),
        b't' => Some(b'\t'),
        b'r' => Some(b'\r'),
        b'\\' => Some(b'\\'),
        b'"' => Some(b'"'),
        b'$' => Some(b'$'),
        _ => None,
    }
}

/// The byte of two hexadecimal digits, which stand behind the `x` with which the text begins.
fn number_escape<'t>(text: &'t [u8], digits: &'t [u8]) -> (Piece<'t>, &'t [u8])
    requires { text.now ≡ 0x78 ∷ digits.now }
    ensures piece { Some (piece result.0, result.1.now) ≡ number_escape_at digits.now }
    ensures shorter { length result.1.now ≤ length text.now }
{
    let [high, low, rest @ ..] = digits else {
        return (Piece::Byte(b'\\'), text);
    };
    match byte_of(*high, *low) {
        Some(byte) => (Piece::Byte(byte), rest),
        None => (Piece::Byte(b'\\'), text),
    }
}

fn byte_of(high: u8, low: u8) -> Option<u8>
    ensures { result ≡ hexadecimal_byte high low }
{
    let high = hex_digit(high)?;
    let low = hex_digit(low)?;
    Some(high * 16 + low)
}

/// What stands behind a `$`.
fn dollar(quote: u8, text: &[u8]) -> (Piece<'_>, &[u8])
    ensures piece { Some (piece result.0, result.1.now) ≡ dollar_at quote text.now }
    ensures shorter { length result.1.now ≤ length text.now }
{
    match text {
        [first, ..] if quote == b'"' && is_letter(*first) => {
            let (name, rest) = split_run(Class::Name, text);
            (Piece::Variable(name), rest)
        }
        _ => (Piece::Byte(b'$'), text),
    }
}

//! One piece of a JSON string: a byte that stands for itself, or an escape.
ghost use Rattle.std.specs.Char.{digit_value};
ghost use Rattle.std.specs.Prelude.{◌≡◌, Some, None, if◌then◌else◌};
ghost use Rattle.uq_json.specs.Internal.Decoding.{piece};
ghost use Rattle.uq_json.specs.Internal.Reading.{Gives, piece_at, escape_at, unicode_at};
ghost use Rattle.uq_json.specs.Strings.{letter as spec_letter, is_hex, are_hex, hex_number as spec_hex_number};

use crate::error::JsonFault;

/// What a piece of a string tells.
#[derive(Clone, Copy, Drop)]
pub(crate) enum Piece {
    /// A byte.
    Byte(u8),
    /// A number of 16 bits, written `\uXXXX`.
    Code(u16),
}

/// The first piece of the text, and the text behind it.
pub(crate) fn first_piece(text: &[u8]) -> Result<(Piece, &[u8]), JsonFault>
    ensures { Gives (λ x. (piece x.0, x.1.now)) result (piece_at text.now) }
{
    match text {
        [b'\\', rest @ ..] => escape(rest),
        [c, rest @ ..] if *c >= 0x20 => Ok((Piece::Byte(*c), rest)),
        _ => Err(JsonFault::NotJson),
    }
}

/// What stands behind a backslash.
fn escape(text: &[u8]) -> Result<(Piece, &[u8]), JsonFault>
    ensures { Gives (λ x. (piece x.0, x.1.now)) result (escape_at text.now) }
{
    match text {
        [b'u', rest @ ..] => unicode(rest),
        [c, rest @ ..] => match letter(*c) {
            Some(byte) => Ok((Piece::Byte(byte), rest)),
            None => Err(JsonFault::NotJson),
        },
        [] => Err(JsonFault::NotJson),
    }
}

fn letter(c: u8) -> Option<u8>
    ensures { result ≡ spec_letter c }
{
    match c {
        b'"' | b'\\' | b'/' => Some(c),
        b'b' => Some(0x08),
        b'f' => Some(0x0c),
        b'n' => Some(b'\n'),
        b'r' => Some(b'\r'),
        b't' => Some(b'\t'),
        _ => None,
    }
}

/// Four hexadecimal digits.
fn unicode(text: &[u8]) -> Result<(Piece, &[u8]), JsonFault>
    ensures { Gives (λ x. (piece x.0, x.1.now)) result (unicode_at text.now) }
{
    match text {
        [p, q, r, s, rest @ ..] => match hex_number(*p, *q, *r, *s) {
            Some(n) => Ok((Piece::Code(n), rest)),
            None => Err(JsonFault::NotJson),
        },
        _ => Err(JsonFault::NotJson),
    }
}

fn hex_number(p: u8, q: u8, r: u8, s: u8) -> Option<u16>
    ensures { result ≡ (if are_hex p q r s then Some (spec_hex_number p q r s) else None) }
{
    let p = hex_digit(p)?;
    let q = hex_digit(q)?;
    let r = hex_digit(r)?;
    let s = hex_digit(s)?;
    Some(((p * 16 + q) * 16 + r) * 16 + s)
}

fn hex_digit(c: u8) -> Option<u16>
    ensures { result ≡ (if is_hex c then Some (digit_value c) else None) }
{
    let digit = char::from(c).to_digit(16)?;
    Some(digit as u16)
}

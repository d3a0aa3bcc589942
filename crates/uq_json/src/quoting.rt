//! Bytes as a JSON string.
ghost use Rattle.std.specs.Prelude.{◌≡◌, ◌<◌, ◌++◌, OnOk, IfOk};
ghost use Rattle.uq_json.specs.Quote.{escaped, escaped_control, quoted};
ghost use Rattle.uq_json.specs.Strings.{IsString};

use crate::scanning::split_verbatim;
use std::alloc::{AllocError, Global};
use uq_value::NoMemory;

const DIGITS: &[u8; 16] = b"0123456789abcdef";

/// The bytes as a JSON string (RFC 8259, section 7), with the shortest escapes.
pub fn quote(alloc: Global, bytes: &[u8]) -> Result<Vec<u8>, NoMemory>
    ensures text { IfOk result (λ text. text.items ≡ quoted bytes.now) }
    // So `unquote` gives them back.
    ensures spells { IfOk result (λ text. IsString text.items bytes.now) }
{
    let mut text = Vec::new(alloc);
    push_quoted(&mut text, bytes)?;
    Ok(text)
}

/// Appends the bytes as a JSON string.
pub(crate) fn push_quoted(text: &mut Vec<u8>, bytes: &[u8]) -> Result<(), AllocError>
    ensures { OnOk result (text.new.items ≡ text.old.items ++ quoted bytes.now) }
{
    text.push(b'"')?;
    let mut rest = bytes;
    'escapes: loop {
        let (verbatim, behind) = split_verbatim(rest);
        text.extend_from_slice(verbatim)?;
        let [byte, after @ ..] = behind else {
            text.push(b'"')?;
            return Ok(());
        };
        push_escaped(text, *byte)?;
        rest = after;
    }
}

fn push_escaped(text: &mut Vec<u8>, byte: u8) -> Result<(), AllocError>
    ensures { OnOk result (text.new.items ≡ text.old.items ++ escaped byte) }
{
    match byte {
        b'"' | b'\\' => text.extend_from_slice(&[b'\\', byte]),
        0x08 => text.extend_from_slice(b"\\b"),
        b'\t' => text.extend_from_slice(b"\\t"),
        b'\n' => text.extend_from_slice(b"\\n"),
        0x0c => text.extend_from_slice(b"\\f"),
        b'\r' => text.extend_from_slice(b"\\r"),
        0..0x20 => push_control(text, byte),
        _ => text.extend_from_slice(&[byte]),
    }
}

/// A control byte that has no letter of its own.
fn push_control(text: &mut Vec<u8>, byte: u8) -> Result<(), AllocError>
    requires { byte < 0x20 }
    ensures { OnOk result (text.new.items ≡ text.old.items ++ escaped_control byte) }
{
    text.extend_from_slice(b"\\u00")?;
    text.extend_from_slice(&[DIGITS[byte as usize / 16], DIGITS[byte as usize % 16]])
}

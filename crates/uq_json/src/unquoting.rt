//! The bytes of a JSON string.
ghost use Rattle.std.specs.Prelude.{◌≡◌, ◌<◌, length, IfOk};
ghost use Rattle.uq_value.specs.Data.{Bytes};
ghost use Rattle.uq_json.specs.Answer.{AnswersString};
ghost use Rattle.uq_json.specs.Front.{SplitsString};
ghost use Rattle.uq_json.specs.Strings.{IsString};
ghost use Rattle.uq_json.specs.Internal.Reading.{Gives, inside_at, string_at};

use crate::decoder::Decoder;
use crate::error::JsonFault;
use crate::piece::first_piece;
use crate::scanning::{next_is, split_verbatim};
use std::alloc::Global;

/// The bytes of a JSON string (RFC 8259, section 7) that is the whole text, without blanks around it. It is `NotJson`
/// exactly where the text is no such string; no other refusal comes but `Memory`.
pub fn unquote(alloc: Global, text: &[u8]) -> Result<Vec<u8>, JsonFault>
    ensures { AnswersString (λ bytes. bytes.items) text.now result }
{
    let (bytes, rest) = string(alloc, text)?;
    if rest.is_empty() {
        Ok(bytes)
    } else {
        Err(JsonFault::NotJson)
    }
}

/// The bytes of the JSON string at the front of the text, and the text behind it. It is `NotJson` exactly where no front
/// of the text is a string; no other refusal comes but `Memory`.
pub fn split_string(alloc: Global, text: &[u8]) -> Result<(Vec<u8>, &[u8]), JsonFault>
    ensures shorter { IfOk result (λ x. length x.1.now < length text.now) }
    ensures splits { SplitsString (λ x. (x.0.items, x.1.now)) text.now result }
{
    string(alloc, text)
}

/// The string at the front of the text, and the text behind it.
pub(crate) fn string(alloc: Global, text: &[u8]) -> Result<(Vec<u8>, &[u8]), JsonFault>
    ensures { Gives (λ x. (x.0.items, x.1.now)) result (string_at text.now) }
{
    if next_is(b'"', text) {
        inside(alloc, &text[1..])
    } else {
        Err(JsonFault::NotJson)
    }
}

/// What stands behind the opening quote.
pub(crate) fn inside(alloc: Global, text: &[u8]) -> Result<(Vec<u8>, &[u8]), JsonFault>
    ensures { Gives (λ x. (x.0.items, x.1.now)) result (inside_at text.now) }
{
    let mut decoder = Decoder::new(alloc);
    let mut rest = text;
    'pieces: loop {
        let (verbatim, behind) = split_verbatim(rest);
        decoder.push_bytes(verbatim)?;
        if next_is(b'"', behind) {
            decoder.flush()?;
            return Ok((decoder.bytes, &behind[1..]));
        }
        let (piece, after) = first_piece(behind)?;
        decoder.push(piece)?;
        rest = after;
    }
}

//! What a line says.
ghost use Rattle.std.specs.Prelude.{◌≡◌, IfOk};
ghost use Rattle.std.specs.Option.{option_map};
ghost use Rattle.uq_words.specs.Lines.{is_comment as spec_is_comment, spoken_by};
ghost use Rattle.uq_words.specs.Texts.{spoken_as};

use crate::reading::skip_blanks;
use crate::{Words, WordsFault, read_words};
use std::alloc::Global;
use uq_value::NoMemory;

/// What a line says.
#[derive(Debug, Drop)]
pub enum Line {
    /// Nothing: it is of blanks only, or its first other byte is `#`.
    Silent,
    /// It is longer than a line may be.
    TooLong,
    /// It is not made of words.
    NoWords,
    Says(Words),
}

/// What the line of this text says. There is no text where the line is too long.
pub fn read_line(alloc: Global, text: Option<&[u8]>) -> Result<Line, NoMemory>
    ensures { IfOk result (λ line. spoken_as line ≡ spoken_by (option_map (λ t. t.now) text.entry)) }
{
    let Some(text) = text else {
        return Ok(Line::TooLong);
    };
    if is_comment(skip_blanks(text)) {
        return Ok(Line::Silent);
    }
    match read_words(alloc, text) {
        Ok(words) => Ok(Line::Says(words)),
        Err(WordsFault::Bad) => Ok(Line::NoWords),
        Err(WordsFault::Memory) => Err(NoMemory),
    }
}

fn is_comment(text: &[u8]) -> bool
    ensures { result ≡ spec_is_comment text.now }
{
    match text {
        [] => true,
        [byte, ..] => *byte == b'#',
    }
}

//! An input that is one script.
ghost use Rattle.std.specs.Prelude.{◌≤◌};
ghost use Rattle.uq_words.specs.TakingBlocks.{FindsScript, TakesScript};

use crate::{InputFault, LONGEST_SCRIPT, Lines};
use std::alloc::Global;
use uq_outside::Source;

/// An input, as one script.
#[derive(Debug, Drop)]
pub enum Script {
    /// Its text, which is all of the input.
    Complete(Vec<u8>),
    /// The input is longer than a script may be. The rest of it was not taken.
    TooLong,
    /// As many bytes as may be taken, and the script is not at its end.
    TooMuch,
}

/// Takes an input that is one script, of which so many bytes may be taken. No more than `LONGEST_SCRIPT` and one byte
/// are.
pub fn read_script<I: Source>(alloc: Global, input: &mut I, most: u64) -> Result<Script, InputFault>
    requires { 1 ≤ most }
    ensures finds { FindsScript I.Source result (I.left input.old) most input.new }
    ensures takes { TakesScript I.Source result most input.old input.new }
{
    let enough = LONGEST_SCRIPT as u64 + 1;
    let mut lines = Lines::new(alloc, most.min(enough));
    'pieces: while lines.room > 0 {
        if lines.fill(input)? == 0 {
            return Ok(Script::Complete(lines.bytes));
        }
    }
    if most < enough {
        Ok(Script::TooMuch)
    } else {
        Ok(Script::TooLong)
    }
}

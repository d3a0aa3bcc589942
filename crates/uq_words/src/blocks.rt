//! The blocks of the input: the text of a script, up to a line that is a dot.
//!
//! ```text
//!    next                             line
//! | given |  lines of the block, feeds  |  part of a line, searched |
//! ```
ghost use Rattle.std.specs.Prelude.{◌≡◌, bytes_eq, codes};
ghost use Rattle.uq_words.specs.Blocks.{closes as spec_closes};

use crate::lines::without_return;
use crate::{InputFault, Lines, Step};
use uq_outside::Source;

/// How many bytes a script has at most.
pub const LONGEST_SCRIPT: usize = 1 << 24;

/// How many bytes the line has that closes a block.
const DOT: usize = 1;

/// What was taken of a block.
#[derive(Clone, Copy, Debug, PartialEq, Eq)]
pub enum BlockStep {
    /// All of it, with the line that closes it and the line feed of that.
    Closed,
    /// All of it; the last line of the input closes it, and nothing is left behind it.
    ClosedLast,
    /// All that is left; no line closes it.
    Unfinished,
    /// As many bytes as may be taken, and the block is not at its end.
    TooMuch,
}

impl Lines {
    ghost use Rattle.std.specs.Prelude.{◌≡◌, ◌≤◌, false, length, OnOk};
    ghost use Rattle.uq_words.specs.Blocks.{no_text};
    ghost use Rattle.uq_words.specs.Taking.{Shortens, Takes, left_of, most_of, pending, text_of};
    ghost use Rattle.uq_words.specs.TakingBlocks.{Drops, EndsBlock, FindsBlock, FindsBlockBy, FindsInner, IsShort, is_dot, line_step, passed_step};

    /// Takes the block behind the line that was taken last: all lines up to one that is a dot, and that line. `text` is
    /// then what stands before the dot, with its line feeds; none where it is longer than `LONGEST_SCRIPT`, or the
    /// input ended before the block.
    pub fn advance_block<I: Source>(&mut self, input: &mut I) -> Result<BlockStep, InputFault>
        ensures finds { FindsBlock I.Source result (left_of I.Source self.old input.old) (most_of self.old)
            self.new input.new }
        ensures takes { Takes I.Source (line_step result) self.old input.old self.new input.new }
        ensures shorter { Shortens (line_step result) self.old self.new }
        ensures short { IsShort result self.new }
    {
        let mut line = 0;
        let mut searched = 0;
        'lines: loop {
            let begins = self.next + line;
            let end = self.line_end(begins, searched);
            if end < self.bytes.len() {
                if closes(&self.bytes[begins..end]) {
                    self.give(line, LONGEST_SCRIPT, end + 1);
                    return Ok(BlockStep::Closed);
                }
                line = end + 1 - self.next;
                searched = 0;
                continue;
            }
            searched = self.bytes.len() - begins;
            if line + searched > LONGEST_SCRIPT + DOT + 1 {
                self.next = begins;
                return self.skip_block(input);
            }
            if self.room == 0 {
                return Ok(BlockStep::TooMuch);
            }
            if self.fill(input)? == 0 {
                return Ok(self.end_block(line));
            }
        }
    }

    /// All that is behind what was given is a block, whose last line begins there: it closes the block, or the input
    /// ends within it.
    fn end_block(&mut self, line: usize) -> BlockStep
        requires { line ≤ length (pending self.old) }
        ensures { EndsBlock line result self.old self.new }
    {
        let end = self.bytes.len();
        if closes(&self.bytes[self.next + line..end]) {
            self.give(line, LONGEST_SCRIPT, end);
            BlockStep::ClosedLast
        } else {
            self.clear();
            BlockStep::Unfinished
        }
    }

    /// Passes the rest of a block whose text is too long, without keeping it.
    fn skip_block<I: Source>(&mut self, input: &mut I) -> Result<BlockStep, InputFault>
        ensures finds { FindsBlockBy I.Source no_text result (left_of I.Source self.old input.old) (most_of self.old)
            self.new input.new }
        ensures takes { Takes I.Source (line_step result) self.old input.old self.new input.new }
        ensures shorter { Shortens (line_step result) self.old self.new }
        ensures unkept { OnOk result (self.new.kept ≡ false) }
    {
        'lines: loop {
            if let Some(step) = self.pass_line(input)? {
                return Ok(step);
            }
        }
    }

    /// Passes a line of a block, without keeping it. Answers how the block ends, where it does so with the line.
    fn pass_line<I: Source>(&mut self, input: &mut I) -> Result<Option<BlockStep>, InputFault>
        ensures finds { FindsInner I.Source result (left_of I.Source self.old input.old) (most_of self.old)
            self.new input.new }
        ensures takes { Takes I.Source (passed_step result) self.old input.old self.new input.new }
        ensures shorter { Shortens (passed_step result) self.old self.new }
        ensures unkept { OnOk result (self.new.kept ≡ false) }
    {
        let step = self.take_line(input, DOT)?;
        let is_dot = self.drop_line();
        Ok(match (step, is_dot) {
            (Step::Line, true) => Some(BlockStep::Closed),
            (Step::Line, false) => None,
            (Step::Last, true) => Some(BlockStep::ClosedLast),
            (Step::Last, false) => Some(BlockStep::Unfinished),
            (Step::TooMuch, _) => Some(BlockStep::TooMuch),
        })
    }

    /// Keeps the line no longer that was taken last. Answers whether it was a dot.
    fn drop_line(&mut self) -> bool
        ensures dot { result ≡ is_dot (text_of self.old) }
        ensures drops { Drops self.old self.new }
    {
        let was_dot = match self.text() {
            Some(text) => is_dot(text),
            None => false,
        };
        self.kept = false;
        was_dot
    }
}

/// Whether a line closes a block.
fn closes(line: &[u8]) -> bool
    ensures { result ≡ spec_closes line.now }
{
    is_dot(without_return(line))
}

fn is_dot(text: &[u8]) -> bool
    ensures { result ≡ bytes_eq text.now (codes ".") }
{
    text == b".".as_slice()
}

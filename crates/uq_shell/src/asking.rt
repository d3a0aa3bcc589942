//! What an input asks for, one line or one block after the other.
ghost use Rattle.std.specs.Prelude.{◌≡◌, IfErr, IfOk, map};
ghost use Rattle.std.specs.Option.{option_map};
ghost use Rattle.uq_shell.specs.Asks.{FindsInBlock, FindsNext, IsByInput, IsPlain, ShortNext, step_of};
ghost use Rattle.uq_shell.specs.declared.progress.Stop.TheVariants.{At};
ghost use Rattle.uq_shell.specs.declared.status.Status.TheVariants.{Memory};
ghost use Rattle.uq_shell.specs.Stream.{begins_block as spec_begins_block, is_script as spec_is_script};
ghost use Rattle.uq_words.specs.Lines.{spoken_by};
ghost use Rattle.uq_words.specs.Taking.{Shortens, Takes, left_of, most_of, text_of};
ghost use Rattle.uq_words.specs.Texts.{spoken_as};

use crate::Status;
use crate::progress::Stop;
use std::alloc::Global;
use uq_outside::Source;
use uq_words::{BlockStep, Line, Lines, Step, read_line};

/// What an input asks for.
#[derive(Debug, Drop)]
pub enum Ask {
    /// What a line says.
    Line(Line),
    /// To run a script, whose text the lines have kept where it is no longer than a script may be.
    Script,
    /// The input ends within the block of a script.
    Unfinished,
}

/// What was taken of an input.
#[derive(Debug, Drop)]
pub enum Next {
    /// It asks for this, and more may follow.
    More(Ask),
    /// It asks for this, and nothing is left behind it.
    Last(Ask),
    /// As many bytes as may be taken, and the line or the block is not at its end.
    TooMuch,
}

/// Takes what an input asks for next: a line, or a block with the line that begins it.
pub fn take_next<I: Source>(alloc: Global, lines: &mut Lines, input: &mut I) -> Result<Next, Stop>
    ensures finds { FindsNext I.Source result (left_of I.Source lines.old input.old) (most_of lines.old) lines.new input.new }
    ensures takes { Takes I.Source (step_of result) lines.old input.old lines.new input.new }
    ensures shorter { Shortens (step_of result) lines.old lines.new }
    ensures short { ShortNext result (text_of lines.new) }
    ensures stops { IfErr result IsByInput }
{
    match lines.advance(input)? {
        Step::Line => match plain_line(alloc, lines.text())? {
            Some(line) => Ok(Next::More(Ask::Line(line))),
            None => block(lines, input),
        },
        Step::Last => match plain_line(alloc, lines.text())? {
            Some(line) => Ok(Next::Last(Ask::Line(line))),
            None => Ok(Next::Last(Ask::Unfinished)),
        },
        Step::TooMuch => Ok(Next::TooMuch),
    }
}

/// Takes the block behind the line that begins it.
fn block<I: Source>(lines: &mut Lines, input: &mut I) -> Result<Next, Stop>
    ensures finds { FindsInBlock I.Source result (left_of I.Source lines.old input.old) (most_of lines.old) lines.new input.new }
    ensures takes { Takes I.Source (step_of result) lines.old input.old lines.new input.new }
    ensures shorter { Shortens (step_of result) lines.old lines.new }
    ensures short { ShortNext result (text_of lines.new) }
    ensures stops { IfErr result IsByInput }
{
    match lines.advance_block(input)? {
        BlockStep::Closed => Ok(Next::More(Ask::Script)),
        BlockStep::ClosedLast => Ok(Next::Last(Ask::Script)),
        BlockStep::Unfinished => Ok(Next::Last(Ask::Unfinished)),
        BlockStep::TooMuch => Ok(Next::TooMuch),
    }
}

/// What the line of this text says; None where it begins a block. There is no text where the line is too long.
fn plain_line(alloc: Global, text: Option<&[u8]>) -> Result<Option<Line>, Stop>
    ensures line { IfOk result (IsPlain (spoken_by (option_map (λ t. t.now) text.entry))) }
    ensures memory { IfErr result (λ stop. stop ≡ At Memory) }
{
    match read_line(alloc, text) {
        Ok(line) if begins_block(&line) => Ok(None),
        Ok(line) => Ok(Some(line)),
        Err(_) => Err(Stop::At(Status::Memory)),
    }
}

/// Whether a line begins the block of a script: it is the one word `script`.
fn begins_block(line: &Line) -> bool
    ensures { result ≡ spec_begins_block (spoken_as line.now) }
{
    match line {
        Line::Says(words) => is_script(words.as_slice()),
        Line::Silent | Line::TooLong | Line::NoWords => false,
    }
}

/// Whether these are the one word `script`.
pub fn is_script(words: &[Vec<u8>]) -> bool
    ensures { result ≡ spec_is_script (map (λ word. word.items) words.now) }
{
    match words {
        [word] => word.as_slice() == b"script".as_slice(),
        _ => false,
    }
}

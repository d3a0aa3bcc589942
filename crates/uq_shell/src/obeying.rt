//! What is asked for is done: a command is answered, and its reply is put out; a script is run.
ghost use Rattle.std.specs.Prelude.{◌≡◌, ◌<◌, ◌^◌, None};
ghost use Rattle.std.specs.Option.{option_map};
ghost use Rattle.uq_kv.specs.Cursor.{place_of};
ghost use Rattle.uq_kv.specs.Kv.{closed_of, limits_of};
ghost use Rattle.uq_shell.specs.Answers.{request_of};
ghost use Rattle.uq_shell.specs.Asks.{IsShort, asked_in, asking_of};
ghost use Rattle.uq_shell.specs.Obeys.{HasFew, MovesOn, PutsNone, ReadsBy, RepliesBy};
ghost use Rattle.uq_shell.specs.Performs.{AreWithin};
ghost use Rattle.uq_shell.specs.Stream.{asked_by as spec_asked_by, obeyed_in};
ghost use Rattle.uq_words.specs.Texts.{spoken_as};

use crate::answering::{Answer, answer_command};
use crate::asking::Ask;
use crate::command::{Command, read_command};
use crate::output::put_line;
use crate::performing::run_script;
use crate::progress::{Progress, Stop};
use crate::reply::Refusal;
use crate::terms::Terms;
use std::alloc::Global;
use uq_kv::{Cursor, Kv};
use uq_outside::{Disk, Sink};
use uq_words::Line;

/// Does what an input asks for. There is no text of a script that is too long.
pub fn grant<D: Disk, O: Sink>(
    alloc: Global,
    ask: &Ask,
    text: Option<&[u8]>,
    terms: &Terms,
    kv: &mut Kv<'_, D>,
    cursor: &mut Cursor,
    progress: &mut Progress,
    out: &mut O,
) -> Result<(), Stop>
    requires open { closed_of D.Disk kv.old ≡ None }
    requires few { progress.old.done < 2 ^ 120 }
    requires few_units { progress.old.meter < 2 ^ 120 }
    requires terms { AreWithin terms.now (limits_of D.Disk kv.old) }
    requires short { IsShort ask.now (option_map (λ t. t.now) text) }
    ensures { MovesOn D.Disk O.Sink (λ judge state. asked_in judge terms.now state (asking_of ask.now (option_map (λ t. t.now) text.entry)))
        progress.old progress.new (place_of cursor.old) (place_of cursor.new) kv.old kv.new out.old out.new result }
{
    match ask {
        Ask::Line(line) => match asked_by(line) {
            Some(command) => obey(alloc, command, kv, cursor, progress, out),
            None => Ok(()),
        },
        Ask::Script => match text {
            Some(text) => run_script(alloc, text, terms, kv, cursor, progress, out),
            None => obey(
                alloc,
                Command::Refused(Refusal::ScriptTooLong),
                kv,
                cursor,
                progress,
                out,
            ),
        },
        Ask::Unfinished => {
            obey(
                alloc,
                Command::Refused(Refusal::UnfinishedScript),
                kv,
                cursor,
                progress,
                out,
            )
        }
    }
}

/// What a line asks for, where it says anything.
fn asked_by(line: &Line) -> Option<Command<'_>>
    ensures { option_map request_of result ≡ spec_asked_by (spoken_as line.now) }
{
    match line {
        Line::Silent => None,
        Line::TooLong => Some(Command::Refused(Refusal::LineTooLong)),
        Line::NoWords => Some(Command::Refused(Refusal::BadCommand)),
        Line::Says(words) => Some(read_command(words.as_slice())),
    }
}

/// Does what a command asks for, and puts out its reply.
pub fn obey<D: Disk, O: Sink>(
    alloc: Global,
    command: Command<'_>,
    kv: &mut Kv<'_, D>,
    cursor: &mut Cursor,
    progress: &mut Progress,
    out: &mut O,
) -> Result<(), Stop>
    requires open { closed_of D.Disk kv.old ≡ None }
    requires few { progress.old.done < 2 ^ 121 }
    ensures moves { MovesOn D.Disk O.Sink (λ _ state. obeyed_in (limits_of D.Disk kv.old) state (request_of command.entry))
        progress.old progress.new (place_of cursor.old) (place_of cursor.new) kv.old kv.new out.old out.new result }
    ensures reads { ReadsBy D.Disk O.Sink (request_of command.entry) kv.old kv.new }
    ensures few { HasFew D.Disk O.Sink result progress.old progress.new }
    ensures silent { PutsNone D.Disk O.Sink result progress.old progress.new out.old out.new }
{
    match answer_command(alloc, command, kv, cursor) {
        Ok(answer) => put_reply(alloc, &answer, progress, out),
        Err(status) => Err(Stop::At(status)),
    }
}

/// Puts out the reply of a command that was answered.
fn put_reply<O: Sink>(
    alloc: Global,
    answer: &Answer,
    progress: &mut Progress,
    out: &mut O,
) -> Result<(), Stop>
    requires { progress.old.done < 2 ^ 121 }
    ensures { RepliesBy O.Sink result answer.now progress.old progress.new out.old out.new }
{
    progress.done += answer.commit_count();
    match put_line(alloc, answer.reply.text(), progress.last, out) {
        Ok(()) => {
            progress.done += 1;
            progress.last = Some(b'\n');
            progress.is_refused = progress.is_refused || answer.reply.is_refusal();
            Ok(())
        }
        Err(_) => Err(Stop::Sink),
    }
}

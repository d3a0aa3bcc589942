//! The input is one script.
ghost use Rattle.std.specs.Prelude.{◌≡◌, ◌≤◌, false, Some, None};
ghost use Rattle.uq_kv.specs.Cursor.{key_of};
ghost use Rattle.uq_kv.specs.Kv.{closed_of, is_begun_of, limits_of};
ghost use Rattle.uq_shell.specs.Carries.{Carries, DrawsScript, StopsBehind};
ghost use Rattle.uq_shell.specs.Obeys.{at_start};
ghost use Rattle.uq_shell.specs.Performs.{AreWithin};
ghost use Rattle.uq_shell.specs.Stream.{run_whole, start};
ghost use Rattle.uq_words.specs.Blocks.{whole};

use crate::Status;
use crate::command::Command;
use crate::obeying::obey;
use crate::performing::run_script;
use crate::progress::{Progress, Stop};
use crate::reply::Refusal;
use crate::terms::Terms;
use std::alloc::Global;
use uq_kv::{Cursor, Kv};
use uq_outside::{Disk, Sink, Source};
use uq_words::{Script, read_script};

/// Runs the input as one script. Of one that is longer than a script may be, the rest is not read.
pub fn recite<D: Disk, I: Source, O: Sink>(
    alloc: Global,
    terms: &Terms,
    kv: &mut Kv<'_, D>,
    cursor: &mut Cursor,
    input: &mut I,
    progress: &mut Progress,
    out: &mut O,
    most: u64,
) -> Result<(), Stop>
    requires open { closed_of D.Disk kv.old ≡ None }
    requires idle { is_begun_of D.Disk kv.old ≡ false }
    requires terms { AreWithin terms.now (limits_of D.Disk kv.old) }
    requires begins { progress.old ≡ at_start }
    requires unset { key_of cursor.old ≡ None }
    requires most { 1 ≤ most }
    ensures carries { Carries D.Disk O.Sink (λ bytes. I.left input.old ≡ Some bytes)
        (λ judge entry bytes. run_whole judge terms.now (start entry) (whole most bytes)) progress.new kv.old kv.new out.old out.new result }
    ensures behind { StopsBehind D.Disk I.Source O.Sink (λ bytes. I.left input.old ≡ Some bytes)
        (λ judge entry count bytes. run_whole judge terms.now (start entry) (whole count bytes)) progress.new kv.old input.new result }
    ensures draws { DrawsScript I.Source most input.old input.new result }
{
    match read_script(alloc, input, most)? {
        Script::Complete(text) => run_script(
            alloc,
            text.as_slice(),
            terms,
            kv,
            cursor,
            progress,
            out,
        ),
        Script::TooLong => {
            obey(
                alloc,
                Command::Refused(Refusal::ScriptTooLong),
                kv,
                cursor,
                progress,
                out,
            )
        }
        Script::TooMuch => Err(Stop::At(Status::TooMuchInput)),
    }
}

//! A script is run.
ghost use Rattle.std.specs.Prelude.{◌≡◌, ◌≤◌, ◌<◌, ◌^◌, None, length};
ghost use Rattle.jx9_compile.specs.Correct.{Behaves};
ghost use Rattle.jx9_meaning.specs.Script.{Source};
ghost use Rattle.uq_kv.specs.Cursor.{place_of};
ghost use Rattle.uq_kv.specs.Kv.{closed_of, limits_of};
ghost use Rattle.uq_model.specs.IsStore.{AreLimits};
ghost use Rattle.uq_words.specs.Options.{most_budget};
ghost use Rattle.std.specs.Prelude.{Some};
ghost use Rattle.uq_shell.specs.Obeys.{MovesOn};
ghost use Rattle.uq_shell.specs.Performs.{AreWithin, PerformsBy, stop_by as spec_stop_by};
ghost use Rattle.uq_shell.specs.Scripts.{plays};
ghost use Rattle.uq_shell.specs.Stream.{played_in, script_in};
ghost use Rattle.uq_shell.specs.Verdicts.{most_text};

use crate::Status;
use crate::command::Command;
use crate::failure::{Failure, failure_of};
use crate::judging::{NoCode, code_of};
use crate::laws::texts_have_one_verdict;
use crate::obeying::obey;
use crate::progress::{Progress, Stop};
use crate::terms::Terms;
use jx9_compile::Code;
use jx9_meaning::every_script_ends;
use jx9_vm::{StopCause, code_means_its_scripts, exec};
use std::alloc::Global;
use uq_kv::{Cursor, Kv};
use uq_model::MapBase;
use uq_outside::{Disk, Sink};

/// Runs the script of this text. One that is not run, or does not end as done, gets a reply.
pub fn run_script<D: Disk, O: Sink>(
    alloc: Global,
    text: &[u8],
    terms: &Terms,
    kv: &mut Kv<'_, D>,
    cursor: &mut Cursor,
    progress: &mut Progress,
    out: &mut O,
) -> Result<(), Stop>
    requires open { closed_of D.Disk kv.old ≡ None }
    requires few { progress.old.done < 2 ^ 120 }
    requires few_units { progress.old.meter < 2 ^ 120 }
    requires terms { AreWithin terms.now (limits_of D.Disk kv.old) }
    requires short { length text.now ≤ most_text }
    ensures { MovesOn D.Disk O.Sink (λ judge state. script_in judge terms.now state (Some text.now))
        progress.old progress.new (place_of cursor.old) (place_of cursor.new) kv.old kv.new out.old out.new result }
{
    texts_have_one_verdict();
    match code_of(alloc, text) {
        Ok(code) => play(alloc, &code, terms, kv, cursor, progress, out),
        Err(NoCode::Failed(failure)) => {
            obey(alloc, Command::Failed(failure), kv, cursor, progress, out)
        }
        Err(NoCode::Memory) => Err(Stop::At(Status::Memory)),
    }
}

/// Runs a code. Where it does not end as done, what was not committed is rolled back.
fn play<D: Disk, O: Sink>(
    alloc: Global,
    code: &Code,
    terms: &Terms,
    kv: &mut Kv<'_, D>,
    cursor: &mut Cursor,
    progress: &mut Progress,
    out: &mut O,
) -> Result<(), Stop>
    requires open { closed_of D.Disk kv.old ≡ None }
    requires few { progress.old.done < 2 ^ 120 }
    requires few_units { progress.old.meter < 2 ^ 120 }
    requires terms { AreWithin terms.now (limits_of D.Disk kv.old) }
    requires compiled { (source : Source) × Behaves source code.now }
    ensures { (source : Source) → Behaves source code.now
        → MovesOn D.Disk O.Sink (λ _ state. played_in terms.now.limits state (plays terms.now source))
        progress.old progress.new (place_of cursor.old) (place_of cursor.new) kv.old kv.new out.old out.new result }
{
    match perform(alloc, code, terms, progress, out)? {
        Some(failure) => obey(alloc, Command::Failed(failure), kv, cursor, progress, out),
        None => Ok(()),
    }
}

/// Makes the ops of a code over a base of its own, with the whole budget. Tells how the script failed, where it did.
fn perform<O: Sink>(
    alloc: Global,
    code: &Code,
    terms: &Terms,
    progress: &mut Progress,
    out: &mut O,
) -> Result<Option<Failure>, Stop>
    requires few { progress.old.done < 2 ^ 120 }
    requires few_units { progress.old.meter < 2 ^ 120 }
    requires limits { AreLimits terms.now.limits }
    requires budget { terms.now.budget ≤ most_budget }
    ensures { (source : Source) → Behaves source code.now
        → PerformsBy O.Sink result (plays terms.now source) progress.old progress.new out.old out.new }
{
    code_means_its_scripts(code);
    every_script_ends();
    let mut base = MapBase::new(alloc, terms.limits);
    match exec(
        alloc,
        code,
        &mut base,
        out,
        terms.budget,
        &mut progress.meter,
    ) {
        Ok(ran) => {
            progress.pass(ran.events, ran.last);
            Ok(failure_of(&ran.ending))
        }
        Err(stop) => {
            progress.pass(stop.events, stop.last);
            Err(stop_by(stop.cause))
        }
    }
}

/// By what a run ends in which a script is stopped.
fn stop_by(cause: StopCause) -> Stop
    ensures { result ≡ spec_stop_by cause }
{
    match cause {
        StopCause::Sink => Stop::Sink,
        // A base in memory stops a script for want of memory alone.
        StopCause::Base(_) | StopCause::Memory => Stop::At(Status::Memory),
    }
}

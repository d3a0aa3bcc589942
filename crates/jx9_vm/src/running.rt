//! A whole script.

ghost use Rattle.std.specs.Prelude.{◌≡◌, ◌≤◌, [], replicate, slice_get, IfErr, IfOk, None};
ghost use Rattle.uq_value.specs.declared.value.Value.{Value};
ghost use Rattle.jx9_compile.specs.Machine.{first_slots};
ghost use Rattle.jx9_vm.specs.Exec.{Runs, Settles, SinkCause, Stopped, used_by};
ghost use Rattle.jx9_vm.specs.Work.{IsFirst};

use crate::ending::Ending;
use crate::layers::Layers;
use crate::machine::drive;
use crate::meter::Meter;
use crate::stop::{Ran, Stop, StopCause};
use crate::work::Work;
use jx9_compile::{Code, every_code_ends};
use sqlite_items::at;
use std::alloc::Global;
use uq_model::{Base, BaseStop};
use uq_outside::Sink;
use uq_value::NoMemory;

/// For so many values the stack has room from the start.
const FIRST_ROOM: usize = 256;

/// Runs a code over a base, with a budget of units, and raises the meter by the units that it took.
///
/// Where the base tells its session, the events and the ending are those of the code's run from there (`CodeRun`), and
/// so are the session after it and the units that are left. Texts that are put out go to the sink. An ending other than
/// `Done` has rolled back what was not committed.
///
/// A script is stopped where the sink fails, where a call on the base has no answer, or where memory is wanting. The
/// events so far are then the first of that run. Where the sink failed the next one is a text, and a front of it may have
/// been put out.
pub fn exec<B: Base, O: Sink>(
    alloc: Global,
    code: &Code,
    base: &mut B,
    out: &mut O,
    budget: u64,
    meter: &mut Meter,
) -> Result<Ran, Stop>
    ensures ran { IfOk result (Runs code.now budget (B.shows base.old) (B.shows base.new)
        (O.written out.old) (O.written out.new) meter.old meter.new) }
    ensures stopped { IfErr result (Stopped code.now budget (B.shows base.old) (B.shows base.new)
        (O.written out.old) (O.written out.new) (O.faults out.old) (O.faults out.new) meter.old meter.new) }
    ensures sink { SinkCause (O.faults out.old) (O.faults out.new) result }
    ensures keeps { B.keeps base.old base.new }
{
    every_code_ends(code);
    let mut work = match first_work(alloc, code, budget) {
        Ok(work) => work,
        Err(_) => {
            meter.raise(0);
            return Err(Stop {
                events: 0,
                last: None,
                cause: StopCause::Memory,
            });
        }
    };
    let ending = match drive(code, &mut work, alloc, out) {
        Ok(ending) => ending,
        Err(cause) => {
            meter.raise(budget - work.units);
            return Err(Stop {
                events: work.events,
                last: work.last,
                cause,
            });
        }
    };
    match settle(&ending, base) {
        Ok(()) => {
            meter.raise(used(&ending, budget, work.units));
            Ok(Ran {
                ending,
                events: work.events,
                last: work.last,
            })
        }
        Err(stop) => {
            meter.raise(budget - work.units);
            Err(Stop {
                events: work.events,
                last: work.last,
                cause: StopCause::Base(stop),
            })
        }
    }
}

/// At the first op of function 0, with nothing on the stack, and null in each slot.
fn first_work(alloc: Global, code: &Code, budget: u64) -> Result<Work, NoMemory>
    ensures { IfOk result (IsFirst code.now budget) }
{
    let mut slots = Layers::with_room(alloc, FIRST_ROOM)?;
    slots.fill(first_slot_count(code) as usize)?;
    Ok(Work {
        function: 0,
        place: 0,
        stack: Layers::with_room(alloc, FIRST_ROOM)?,
        slots,
        calls: Vec::new(alloc),
        units: budget,
        events: 0,
        last: None,
    })
}

fn first_slot_count(code: &Code) -> u32
    ensures { replicate result Value.Null ≡ first_slots (slice_get code.now.functions 0) [] }
{
    match at(code.functions(), 0) {
        Some(function) => function.slots(),
        None => 0,
    }
}

/// Goes back to what was saved, unless the script is done.
fn settle<B: Base>(ending: &Ending, base: &mut B) -> Result<(), BaseStop>
    ensures settles { Settles ending.now (B.shows base.old) (B.shows base.new) result }
    ensures keeps { B.keeps base.old base.new }
{
    match ending {
        Ending::Done => Ok(()),
        Ending::Fault { kind: _, line: _ } => base.rollback(),
        Ending::Spent => base.rollback(),
    }
}

/// The units that a script took of its budget.
fn used(ending: &Ending, budget: u64, left: u64) -> u64
    requires { left ≤ budget }
    ensures { result ≡ used_by ending.now budget left }
{
    match ending {
        Ending::Spent => budget,
        Ending::Done | Ending::Fault { kind: _, line: _ } => budget - left,
    }
}

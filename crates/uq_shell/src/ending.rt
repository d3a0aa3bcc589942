//! The end of a run.
ghost use Rattle.std.specs.Prelude.{◌≡◌, ◌≤◌, ◌<◌, ◌^◌, None};
ghost use Rattle.uq_kv.specs.Kv.{closed_of};
ghost use Rattle.uq_shell.specs.Ends.{Settles, Writes};
ghost use Rattle.uq_shell.specs.Followed.{some_line};
ghost use Rattle.uq_shell.specs.Statuses.{row};

use crate::output::put_line;
use crate::progress::Progress;
use crate::{Ended, Status};
use std::alloc::Global;
use uq_kv::Kv;
use uq_outside::{Disk, Sink};

/// At the end of the input: commits what is begun.
pub fn settle<D: Disk, O: Sink>(
    alloc: Global,
    progress: Progress,
    kv: &mut Kv<'_, D>,
    out: &mut O,
) -> Ended
    requires open { closed_of D.Disk kv.old ≡ None }
    requires few { progress.done < 2 ^ 120 }
    ensures { Settles D.Disk O.Sink progress kv.old kv.new out.old out.new result }
{
    match kv.commit() {
        Ok(true) => Ended {
            status: progress.status(),
            done: progress.done + 1,
            meter: progress.meter,
        },
        Ok(false) => Ended {
            status: progress.status(),
            done: progress.done,
            meter: progress.meter,
        },
        Err(_) => end(alloc, Status::Disk, progress, out),
    }
}

/// Writes the line of the status behind what was put out.
pub fn end<O: Sink>(alloc: Global, status: Status, progress: Progress, out: &mut O) -> Ended
    ensures ended { result ≡ record { status = status; done = progress.done; meter = progress.meter } }
    ensures line { Writes O.Sink (some_line progress.last (row status).text) out.old out.new }
    ensures later { O.faults out.old ≤ O.faults out.new }
{
    let text = status.text();
    if !text.is_empty() {
        // A fault of the sink here does not change the status.
        let _ = put_line(alloc, text, progress.last, out);
    }
    Ended {
        status,
        done: progress.done,
        meter: progress.meter,
    }
}

//! A commit of one batch.
ghost use Rattle.std.specs.Prelude.{◌≡◌, ◌*◌, length, OnOk};
ghost use Rattle.std.specs.Option.{ForSome};
ghost use Rattle.uq_facts.specs.Causes.{HasCause};
ghost use Rattle.uq_outside.specs.Stops.{ToldAlike};
ghost use Rattle.uq_page.specs.declared.layout.TheConstants.{PAGE_SIZE};
ghost use Rattle.uq_journal.specs.Calls.{Rests, Names, is_commit_call};
ghost use Rattle.uq_journal.specs.Recovered.{Ascends, numbers};
ghost use Rattle.uq_journal.specs.Steps.{LeavesOldOrNew, WritesBatch};

use crate::Dirty;
use crate::format::{CLOSED, OPEN};
use crate::gate::set_gate;
use crate::staging::stage_batch;
use crate::writing::write_pages;
use uq_outside::{Disk, DiskFault};

/// Puts the pages in place, all or none of them, at whatever moment it is stopped.
pub(crate) fn write_batch<D: Disk>(
    disk: &mut D,
    old_pages: u32,
    dirty: &[Dirty],
) -> Result<(), DiskFault>
    requires rest { Rests D.Disk disk.old }
    requires pages { ForSome (D.content disk.old) (λ files. length files.main ≡ PAGE_SIZE * old_pages) }
    requires ascending { Ascends 0 old_pages (numbers dirty.now) }
    ensures rest_again { OnOk result (Rests D.Disk disk.new) }
    ensures written { OnOk result (WritesBatch D.Disk dirty.now disk.old disk.new) }
    ensures alike { ToldAlike (D.content disk.old) (D.content disk.new) }
    ensures stop { LeavesOldOrNew D.Disk dirty.now disk.old disk.new }
    ensures kind { Names is_commit_call result }
    ensures cause { HasCause (D.faults disk.old) (D.faults disk.new) result }
{
    stage_batch(disk, old_pages, dirty)?;
    // The originals are on the disk before the gate counts.
    set_gate(disk, OPEN)?;
    write_pages(disk, dirty)?;
    // So are the pages before the originals cease to count.
    set_gate(disk, CLOSED)
}

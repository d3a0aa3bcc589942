//! The calls of a journal.
ghost use Rattle.std.specs.Prelude.{◌≡◌, true, Err, IfOk, OnOk};
ghost use Rattle.std.specs.Option.{ForSome};
ghost use Rattle.uq_facts.specs.Causes.{AtErr, HasCause};
ghost use Rattle.uq_outside.specs.declared.fault.DiskFault.{DiskFault};
ghost use Rattle.uq_outside.specs.Stops.{ToldAlike};
ghost use Rattle.uq_journal.specs.declared.error.JournalFault.{JournalFault};
ghost use Rattle.uq_journal.specs.Calls.{HasPages, HoldsRecovered, IsStill, Rests, WritesPages};
ghost use Rattle.uq_journal.specs.Calls.{KeepsFilesAtGate, KeepsMainWhereClosed, KeepsRecovered, LeavesOldPagesOrNew};
ghost use Rattle.uq_journal.specs.Calls.{Names, RecoversToNothing, is_commit_call, is_open_call};
ghost use Rattle.uq_journal.specs.Journals.{HasJournalCause, originals_kept};
ghost use Rattle.uq_journal.specs.Recovered.{Ascends, changes, numbers};

use crate::committing::write_batch;
use crate::opening::recover;
use crate::{Dirty, JournalFault};
use uq_outside::{Disk, DiskFault};

/// The journal of a disk that was opened. After a fault the disk is opened anew.
#[derive(Debug, Drop)]
pub struct Journal {
    /// How many originals stand in the open batches.
    originals: u32,
}

impl Journal {
    /// Recovers the files from what a stop left, and leaves a journal of one closed gate.
    ///
    /// It syncs both files first. Where the first gate is closed it writes nothing to the main file, and where that
    /// gate is all of the journal nothing at all. Files that recover to nothing it leaves as they were.
    pub fn open<D: Disk>(disk: &mut D) -> Result<Journal, JournalFault>
        ensures rest { OnOk result (Rests D.Disk disk.new) }
        ensures main { OnOk result (HoldsRecovered D.Disk disk.old disk.new) }
        ensures none { IfOk result (λ journal. originals_kept journal ≡ 0) }
        ensures not_journal { AtErr JournalFault.NotJournal result (RecoversToNothing D.Disk disk.old) }
        ensures refused { AtErr JournalFault.NotJournal result (IsStill D.Disk disk.old disk.new) }
        ensures alike { ToldAlike (D.content disk.old) (D.content disk.new) }
        ensures closed { KeepsMainWhereClosed D.Disk disk.old disk.new }
        ensures gate { KeepsFilesAtGate D.Disk disk.old disk.new }
        ensures stop { KeepsRecovered D.Disk disk.old disk.new }
        ensures kind { (fault : DiskFault) → result ≡ Err (JournalFault.Disk fault) → is_open_call fault.call ≡ true }
        ensures cause { HasJournalCause (D.faults disk.old) (D.faults disk.new) result }
    {
        match recover(disk) {
            Ok(true) => Ok(Journal { originals: 0 }),
            Ok(false) => Err(JournalFault::NotJournal),
            Err(fault) => Err(JournalFault::Disk(fault)),
        }
    }

    /// Puts the pages in place, all or none of them, at whatever moment it is stopped.
    ///
    /// The numbers ascend, and those from `old_pages` on, which is the main file's number of pages, leave no gap.
    pub fn commit_batch<D: Disk>(
        &mut self,
        disk: &mut D,
        old_pages: u32,
        dirty: &[Dirty],
    ) -> Result<(), DiskFault>
        requires none { originals_kept self.old ≡ 0 }
        requires rest { Rests D.Disk disk.old }
        requires pages { ForSome (D.content disk.old) (HasPages old_pages) }
        requires ascending { Ascends 0 old_pages (numbers dirty.now) }
        ensures rest_again { OnOk result (Rests D.Disk disk.new) }
        ensures written { OnOk result (WritesPages D.Disk (changes dirty.now) disk.old disk.new) }
        ensures alike { ToldAlike (D.content disk.old) (D.content disk.new) }
        ensures stop { LeavesOldPagesOrNew D.Disk (changes dirty.now) disk.old disk.new }
        ensures kept { originals_kept self.new ≡ originals_kept self.old }
        ensures kind { Names is_commit_call result }
        ensures cause { HasCause (D.faults disk.old) (D.faults disk.new) result }
    {
        write_batch(disk, old_pages, dirty)
    }
}

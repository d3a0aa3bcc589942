//! How the pages of a batch come into the main file.
ghost use Rattle.std.specs.Prelude.{length, OnOk};
ghost use Rattle.std.specs.Option.{ForSome};
ghost use Rattle.uq_outside.specs.declared.fault.FileNo.TheVariants.{Main};
ghost use Rattle.uq_facts.specs.Causes.{HasCause};
ghost use Rattle.uq_journal.specs.Calls.{Names, is_commit_call};
ghost use Rattle.uq_outside.specs.Files.{in_file};
ghost use Rattle.uq_outside.specs.Since.{IsSettledIn, Steps};
ghost use Rattle.uq_journal.specs.Recovered.{with_pages, changes};
ghost use Rattle.uq_journal.specs.Steps.{Becomes, InPages, Fits};

use crate::Dirty;
use crate::format::PAGE_BYTES;
use uq_outside::{Disk, DiskFault, FileNo};

/// Writes the pages into the main file, and syncs it.
pub(crate) fn write_pages<D: Disk>(disk: &mut D, dirty: &[Dirty]) -> Result<(), DiskFault>
    requires fits { ForSome (D.content disk.old) (λ files. Fits (length files.main) (changes dirty.now)) }
    ensures steps { Steps D.Disk (InPages (changes dirty.now)) disk.old disk.new }
    ensures written { Becomes D.Disk (in_file Main (with_pages (changes dirty.now))) disk.old disk.new result }
    ensures settled { OnOk result (ForSome (D.content disk.new) (IsSettledIn D.Disk disk.new Main)) }
    ensures kind { Names is_commit_call result }
    ensures cause { HasCause (D.faults disk.old) (D.faults disk.new) result }
{
    for it in dirty {
        disk.write_at(FileNo::Main, PAGE_BYTES * it.no as u64, it.page.bytes())?;
    }
    disk.sync(FileNo::Main)
}

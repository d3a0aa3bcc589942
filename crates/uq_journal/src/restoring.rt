//! How the originals of the batches come back into the main file.
ghost use Rattle.std.specs.Prelude.{◌≡◌, ◌+◌, ◌*◌, ◌<◌, ◌≤◌, ◌^◌, length, drop, OnOk};
ghost use Rattle.std.specs.Option.{ForSome};
ghost use Rattle.uq_outside.specs.declared.fault.FileNo.TheVariants.{Main};
ghost use Rattle.uq_facts.specs.Causes.{HasCause};
ghost use Rattle.uq_journal.specs.Calls.{Names, is_open_call};
ghost use Rattle.uq_outside.specs.Stops.{ToldAlike};
ghost use Rattle.uq_outside.specs.Since.{IsSettledIn};
ghost use Rattle.uq_page.specs.declared.layout.TheConstants.{PAGE_SIZE};
ghost use Rattle.uq_journal.specs.declared.format.TheConstants.{ORIGINAL_SIZE};
ghost use Rattle.uq_journal.specs.Batches.{number};
ghost use Rattle.uq_journal.specs.Steps.{Becomes};
ghost use Rattle.uq_journal.specs.PutBack.{put_from, put_all, put_whole, originals_at};
ghost use Rattle.uq_journal.specs.PutBack.{BeginWithin, ArePuttable, PutsAllBack, PutsBackAt, PutsEachBack};

use crate::format::{HEAD_SIZE, ORIGINAL_SIZE, PAGE_BYTES};
use crate::reading::{Found, read_gate, read_number};
use uq_outside::{Disk, DiskFault, FileNo};
use uq_page::PAGE_SIZE;

/// Puts the original at this place back.
fn put_original<D: Disk>(disk: &mut D, at: u64) -> Result<(), DiskFault>
    requires low { at + ORIGINAL_SIZE < 2 ^ 64 }
    requires within { ForSome (D.content disk.old) (λ files. at + ORIGINAL_SIZE ≤ length files.journal) }
    requires begins { ForSome (D.content disk.old) (λ files. PAGE_SIZE * number (drop at files.journal) ≤ length files.main) }
    ensures put { Becomes D.Disk (put_from 1 at) disk.old disk.new result }
    ensures alike { ToldAlike (D.content disk.old) (D.content disk.new) }
    ensures steps { PutsBackAt D.Disk 1 at disk.old disk.new }
    ensures kind { Names is_open_call result }
    ensures cause { HasCause (D.faults disk.old) (D.faults disk.new) result }
{
    let no = read_number(disk, at)?;
    let mut page = [0; PAGE_SIZE];
    disk.read(FileNo::Journal, at + 4, &mut page)?;
    disk.write_at(FileNo::Main, PAGE_BYTES * no as u64, &page)
}

/// Puts the originals from this place on back.
fn put_batch<D: Disk>(disk: &mut D, from: u64, count: u32) -> Result<(), DiskFault>
    requires low { from + ORIGINAL_SIZE * count < 2 ^ 64 }
    requires within { ForSome (D.content disk.old) (λ files. from + ORIGINAL_SIZE * count ≤ length files.journal) }
    requires begin { ForSome (D.content disk.old) (λ files. BeginWithin (length files.main) (originals_at count from files)) }
    ensures put { Becomes D.Disk (put_from count from) disk.old disk.new result }
    ensures alike { ToldAlike (D.content disk.old) (D.content disk.new) }
    ensures steps { PutsBackAt D.Disk count from disk.old disk.new }
    ensures kind { Names is_open_call result }
    ensures cause { HasCause (D.faults disk.old) (D.faults disk.new) result }
{
    for i in 0..count {
        put_original(disk, from + ORIGINAL_SIZE * i as u64)?;
    }
    Ok(())
}

/// Puts the originals of all batches back.
fn put_batches<D: Disk>(disk: &mut D, len: u64) -> Result<(), DiskFault>
    requires size { ForSome (D.content disk.old) (λ files. len ≡ length files.journal) }
    requires puttable { ForSome (D.content disk.old) (λ files. ArePuttable (length files.main) 0 files.journal) }
    ensures put { Becomes D.Disk put_all disk.old disk.new result }
    ensures alike { ToldAlike (D.content disk.old) (D.content disk.new) }
    ensures steps { PutsEachBack D.Disk disk.old disk.new }
    ensures kind { Names is_open_call result }
    ensures cause { HasCause (D.faults disk.old) (D.faults disk.new) result }
{
    let mut at = 0;
    while at < len {
        let Found::Open(head) = read_gate(disk, at, len)? else {
            return Ok(());
        };
        put_batch(disk, at + HEAD_SIZE, head.count)?;
        at = head.next;
    }
    Ok(())
}

/// Puts the originals of all batches back, cuts the main file to its old page count and syncs it.
pub(crate) fn restore_main<D: Disk>(disk: &mut D, len: u64, old_pages: u32) -> Result<(), DiskFault>
    requires size { ForSome (D.content disk.old) (λ files. len ≡ length files.journal) }
    requires puttable { ForSome (D.content disk.old) (λ files. ArePuttable (length files.main) 0 files.journal) }
    requires long { ForSome (D.content disk.old) (λ files. PAGE_SIZE * old_pages ≤ length files.main) }
    ensures put { Becomes D.Disk (put_whole (PAGE_SIZE * old_pages)) disk.old disk.new result }
    ensures settled { OnOk result (ForSome (D.content disk.new) (IsSettledIn D.Disk disk.new Main)) }
    ensures alike { ToldAlike (D.content disk.old) (D.content disk.new) }
    ensures steps { PutsAllBack D.Disk old_pages disk.old disk.new }
    ensures kind { Names is_open_call result }
    ensures cause { HasCause (D.faults disk.old) (D.faults disk.new) result }
{
    put_batches(disk, len)?;
    disk.cut(FileNo::Main, PAGE_BYTES * old_pages as u64)?;
    disk.sync(FileNo::Main)
}

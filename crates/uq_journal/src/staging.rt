//! How a batch is written into the journal, behind its closed gate.
ghost use Rattle.std.specs.Prelude.{◌≡◌, ◌+◌, ◌*◌, ◌≤◌, ◌^◌, [], ◌∷◌, length, OnOk, IfOk};
ghost use Rattle.std.specs.Option.{ForSome};
ghost use Rattle.uq_facts.specs.Causes.{HasCause};
ghost use Rattle.uq_journal.specs.Calls.{Names, is_commit_call};
ghost use Rattle.uq_outside.specs.Since.{Steps};
ghost use Rattle.uq_page.specs.declared.layout.TheConstants.{PAGE_SIZE};
ghost use Rattle.uq_journal.specs.declared.format.TheConstants.{ORIGINAL_SIZE};
ghost use Rattle.uq_journal.specs.Steps.{Becomes, Behind, StandsTo, StandsWhole, kept, with_original, with_originals};

use crate::Dirty;
use crate::format::{CLOSED, HEAD_SIZE, ORIGINAL_SIZE, PAGE_BYTES, head, original};
use uq_outside::{Disk, DiskFault, FileNo};
use uq_page::PAGE_SIZE;

/// Copies a page of the main file into the journal, behind the gate.
pub(crate) fn copy_original<D: Disk>(disk: &mut D, at: u64, no: u32) -> Result<(), DiskFault>
    requires behind { 1 ≤ at }
    requires low { at + ORIGINAL_SIZE ≤ 2 ^ 45 }
    requires within { ForSome (D.content disk.old) (λ files. at ≤ length files.journal) }
    requires there { ForSome (D.content disk.old) (λ files. PAGE_SIZE * no + PAGE_SIZE ≤ length files.main) }
    ensures steps { Steps D.Disk (Behind 1) disk.old disk.new }
    ensures copied { Becomes D.Disk (with_original no at) disk.old disk.new result }
    ensures kind { Names is_commit_call result }
    ensures cause { HasCause (D.faults disk.old) (D.faults disk.new) result }
{
    let mut page = [0; PAGE_SIZE];
    disk.read(FileNo::Main, PAGE_BYTES * no as u64, &mut page)?;
    disk.write_at(FileNo::Journal, at, &original(no, &page))
}

/// Writes a batch of the originals behind the gate. It answers where the batch ends.
fn write_body<D: Disk>(disk: &mut D, old_pages: u32, dirty: &[Dirty]) -> Result<u64, DiskFault>
    requires few { length (kept old_pages dirty.now) ≤ old_pages }
    requires rest { ForSome (D.content disk.old) (λ files. 1 ≤ length files.journal) }
    requires whole { ForSome (D.content disk.old) (λ files. PAGE_SIZE * old_pages ≤ length files.main) }
    ensures steps { Steps D.Disk (Behind 1) disk.old disk.new }
    ensures staged { IfOk result (StandsTo D.Disk old_pages dirty.now disk.old disk.new) }
    ensures kind { Names is_commit_call result }
    ensures cause { HasCause (D.faults disk.old) (D.faults disk.new) result }
{
    let count = count_kept(old_pages, dirty) as u32;
    disk.write_at(FileNo::Journal, 1, &head(old_pages, count))?;
    let mut at = HEAD_SIZE;
    for page in dirty {
        at = add_original(disk, at, old_pages, page)?;
    }
    Ok(at)
}

/// Writes a batch of the originals and a closed gate behind the gate, and syncs the journal.
pub(crate) fn stage_batch<D: Disk>(
    disk: &mut D,
    old_pages: u32,
    dirty: &[Dirty],
) -> Result<(), DiskFault>
    requires few { length (kept old_pages dirty.now) ≤ old_pages }
    requires rest { ForSome (D.content disk.old) (λ files. 1 ≤ length files.journal) }
    requires whole { ForSome (D.content disk.old) (λ files. PAGE_SIZE * old_pages ≤ length files.main) }
    ensures steps { Steps D.Disk (Behind 1) disk.old disk.new }
    ensures staged { OnOk result (StandsWhole D.Disk old_pages dirty.now disk.old disk.new) }
    ensures kind { Names is_commit_call result }
    ensures cause { HasCause (D.faults disk.old) (D.faults disk.new) result }
{
    let end = write_body(disk, old_pages, dirty)?;
    disk.write_at(FileNo::Journal, end, &[CLOSED])?;
    disk.sync(FileNo::Journal)
}

/// Journals a page that was there. It answers where the next one goes.
fn add_original<D: Disk>(
    disk: &mut D,
    at: u64,
    old_pages: u32,
    page: &Dirty,
) -> Result<u64, DiskFault>
    requires behind { 1 ≤ at }
    requires low { at + ORIGINAL_SIZE ≤ 2 ^ 45 }
    requires within { ForSome (D.content disk.old) (λ files. at ≤ length files.journal) }
    requires whole { ForSome (D.content disk.old) (λ files. PAGE_SIZE * old_pages ≤ length files.main) }
    ensures steps { Steps D.Disk (Behind 1) disk.old disk.new }
    ensures next { IfOk result (λ next. next ≡ at + ORIGINAL_SIZE * length (kept old_pages (page.now ∷ []))) }
    ensures added { Becomes D.Disk (with_originals old_pages at (page.now ∷ [])) disk.old disk.new result }
    ensures kind { Names is_commit_call result }
    ensures cause { HasCause (D.faults disk.old) (D.faults disk.new) result }
{
    if page.no >= old_pages {
        return Ok(at);
    }
    copy_original(disk, at, page.no)?;
    Ok(at + ORIGINAL_SIZE)
}

/// How many of the pages were there, and so have an original.
fn count_kept(old_pages: u32, dirty: &[Dirty]) -> usize
    ensures { result ≡ length (kept old_pages dirty.now) }
{
    dirty.iter().filter(|page| page.no < old_pages).count()
}

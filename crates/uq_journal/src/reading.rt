//! How the batches of a journal are read, one gate after the other.
ghost use Rattle.std.specs.Prelude.{◌≡◌, ◌+◌, ◌*◌, ◌<◌, ◌≤◌, ◌^◌, length, drop, IfOk};
ghost use Rattle.std.specs.Option.{ForSome};
ghost use Rattle.uq_facts.specs.Causes.{HasCause};
ghost use Rattle.uq_journal.specs.declared.format.TheConstants.{ORIGINAL_SIZE};
ghost use Rattle.uq_journal.specs.Batches.{number};
ghost use Rattle.uq_journal.specs.Calls.{IsStill, Names, is_open_call};
ghost use Rattle.uq_journal.specs.Opening.{Leads, Reads, Tells, batches_at, are_below_at, is_whole};

use crate::format::{HEAD_SIZE, OPEN, ORIGINAL_SIZE};
use uq_outside::{Disk, DiskFault, FileNo};

/// A batch behind an open gate.
#[derive(Clone, Copy, Debug, PartialEq, Eq)]
pub(crate) struct Head {
    pub(crate) old_pages: u32,
    /// How many originals it has.
    pub(crate) count: u32,
    /// Where the next gate stands.
    pub(crate) next: u64,
}

/// What stands at a gate.
#[derive(Clone, Copy, Debug, PartialEq, Eq)]
pub(crate) enum Found {
    /// The gate is closed.
    Closed,
    /// A batch that lies whole before its next gate.
    Open(Head),
    /// The gate is open, and no whole batch lies behind it.
    Broken,
}

/// The number of four bytes at this place.
pub(crate) fn read_number<D: Disk>(disk: &mut D, at: u64) -> Result<u32, DiskFault>
    requires within { ForSome (D.content disk.old) (λ files. at + 4 ≤ length files.journal) }
    ensures told { Reads D.Disk (λ files. number (drop at files.journal)) disk.old result }
    ensures still { IsStill D.Disk disk.old disk.new }
    ensures kind { Names is_open_call result }
    ensures cause { HasCause (D.faults disk.old) (D.faults disk.new) result }
{
    let mut bytes = [0; 4];
    disk.read(FileNo::Journal, at, &mut bytes)?;
    Ok(u32::from_be_bytes(bytes))
}

/// What stands at the gate at this place, in a journal of `len` bytes.
pub(crate) fn read_gate<D: Disk>(disk: &mut D, at: u64, len: u64) -> Result<Found, DiskFault>
    requires within { at < len }
    requires size { ForSome (D.content disk.old) (λ files. len ≡ length files.journal) }
    ensures leads { IfOk result (Leads at len) }
    ensures told { IfOk result (λ found. ForSome (D.content disk.old) (λ files. Tells at files.journal found)) }
    ensures still { IsStill D.Disk disk.old disk.new }
    ensures kind { Names is_open_call result }
    ensures cause { HasCause (D.faults disk.old) (D.faults disk.new) result }
{
    let mut gate = [0];
    disk.read(FileNo::Journal, at, &mut gate)?;
    if gate[0] != OPEN {
        return Ok(Found::Closed);
    }
    if len - at <= HEAD_SIZE {
        return Ok(Found::Broken);
    }
    let old_pages = read_number(disk, at + 1)?;
    let count = read_number(disk, at + 5)?;
    let size = HEAD_SIZE + ORIGINAL_SIZE * count as u64;
    if len - at <= size {
        return Ok(Found::Broken);
    }
    Ok(Found::Open(Head {
        old_pages,
        count,
        next: at + size,
    }))
}

/// Whether the numbers of the originals from this place on are below the old page count.
pub(crate) fn are_below<D: Disk>(
    disk: &mut D,
    from: u64,
    count: u32,
    old_pages: u32,
) -> Result<bool, DiskFault>
    requires low { from + ORIGINAL_SIZE * count < 2 ^ 64 }
    requires within { ForSome (D.content disk.old) (λ files. from + ORIGINAL_SIZE * count ≤ length files.journal) }
    ensures told { Reads D.Disk (are_below_at old_pages count from) disk.old result }
    ensures still { IsStill D.Disk disk.old disk.new }
    ensures kind { Names is_open_call result }
    ensures cause { HasCause (D.faults disk.old) (D.faults disk.new) result }
{
    for i in 0..count {
        if read_number(disk, from + ORIGINAL_SIZE * i as u64)? >= old_pages {
            return Ok(false);
        }
    }
    Ok(true)
}

/// Whether the batches from the first gate on lie whole, with this old page count and page numbers below it.
pub(crate) fn is_whole<D: Disk>(disk: &mut D, len: u64, old_pages: u32) -> Result<bool, DiskFault>
    requires size { ForSome (D.content disk.old) (λ files. len ≡ length files.journal) }
    ensures told { Reads D.Disk (λ files. is_whole old_pages (batches_at 0 files.journal)) disk.old result }
    ensures still { IsStill D.Disk disk.old disk.new }
    ensures kind { Names is_open_call result }
    ensures cause { HasCause (D.faults disk.old) (D.faults disk.new) result }
{
    let mut at = 0;
    while at < len {
        match read_gate(disk, at, len)? {
            Found::Closed => return Ok(true),
            Found::Broken => return Ok(false),
            Found::Open(head) => {
                if head.old_pages != old_pages {
                    return Ok(false);
                }
                if !are_below(disk, at + HEAD_SIZE, head.count, old_pages)? {
                    return Ok(false);
                }
                at = head.next;
            }
        }
    }
    Ok(false)
}

//! How a journal that a stop left is brought to rest.
ghost use Rattle.std.specs.Prelude.{◌≡◌, ◌≤◌, length, take, OnOk, IfOk};
ghost use Rattle.std.specs.Option.{ForSome};
ghost use Rattle.uq_outside.specs.declared.fault.FileNo.TheVariants.{Journal, Main};
ghost use Rattle.uq_facts.specs.Causes.{HasCause};
ghost use Rattle.uq_outside.specs.Files.{Keeps, in_file};
ghost use Rattle.uq_outside.specs.Since.{IsSettled, IsSettledIn, LeavesOnly, Steps};
ghost use Rattle.uq_outside.specs.Stops.{ToldAlike};
ghost use Rattle.uq_journal.specs.Calls.{IsStill, KeepsFilesAtGate, KeepsMainWhereClosed, KeepsRecovered};
ghost use Rattle.uq_journal.specs.Calls.{Names, RecoversAs, Stays, is_open_call};
ghost use Rattle.uq_journal.specs.Recovery.{Empties, IsOpen, IsRecovered, IsShut, LeavesMain, Opens};
ghost use Rattle.uq_journal.specs.Recovery.{RefusesStill, Restores, Shortens, Shows};
ghost use Rattle.uq_journal.specs.Steps.{Becomes};

use crate::format::{CLOSED, PAGE_BYTES};
use crate::gate::set_gate;
use crate::reading::{Found, is_whole, read_gate};
use crate::restoring::restore_main;
use uq_outside::{Disk, DiskFault, FileNo};

/// What a stop left of the batches.
#[derive(Clone, Copy, Debug, PartialEq, Eq)]
enum State {
    /// None counts.
    Shut,
    /// Whole ones, with this old page count.
    Open(u32),
    /// The files recover to nothing.
    Broken,
}

/// Puts the originals of the open batches back, and closes the gate before them.
fn undo_batches<D: Disk>(disk: &mut D, len: u64, old_pages: u32) -> Result<(), DiskFault>
    requires size { ForSome (D.content disk.old) (λ files. len ≡ length files.journal) }
    requires settled { ForSome (D.content disk.old) (IsSettled D.Disk disk.old) }
    requires open { ForSome (D.content disk.old) (IsOpen old_pages) }
    ensures recovered { OnOk result (ForSome (D.content disk.old) (λ start. IsRecovered D.Disk start disk.new)) }
    ensures alike { ToldAlike (D.content disk.old) (D.content disk.new) }
    ensures stop { ForSome (D.content disk.old) (λ start. LeavesOnly D.Disk disk.old disk.new (RecoversAs start)) }
    ensures kind { Names is_open_call result }
    ensures cause { HasCause (D.faults disk.old) (D.faults disk.new) result }
{
    restore_main(disk, len, old_pages)?;
    // While the gate may read as open, its batches restore the same pages.
    set_gate(disk, CLOSED)
}

/// What a stop left of the batches, in a journal of `len` bytes.
fn examine<D: Disk>(disk: &mut D, len: u64) -> Result<State, DiskFault>
    requires some { 1 ≤ len }
    requires size { ForSome (D.content disk.old) (λ files. len ≡ length files.journal) }
    ensures shows { IfOk result (λ state. ForSome (D.content disk.old) (λ files. Shows files state)) }
    ensures still { IsStill D.Disk disk.old disk.new }
    ensures kind { Names is_open_call result }
    ensures cause { HasCause (D.faults disk.old) (D.faults disk.new) result }
{
    if len == 1 {
        return Ok(State::Shut);
    }
    match read_gate(disk, 0, len)? {
        Found::Closed => Ok(State::Shut),
        Found::Broken => Ok(State::Broken),
        Found::Open(head) => {
            if !is_whole(disk, len, head.old_pages)? {
                return Ok(State::Broken);
            }
            if disk.length(FileNo::Main)? < PAGE_BYTES * head.old_pages as u64 {
                return Ok(State::Broken);
            }
            Ok(State::Open(head.old_pages))
        }
    }
}

/// Puts the originals of the batches back where the first gate is open. Answers whether the files recover to something.
fn restore<D: Disk>(disk: &mut D, len: u64) -> Result<bool, DiskFault>
    requires some { 1 ≤ len }
    requires size { ForSome (D.content disk.old) (λ files. len ≡ length files.journal) }
    requires settled { ForSome (D.content disk.old) (IsSettled D.Disk disk.old) }
    ensures answer { IfOk result (λ whole. ForSome (D.content disk.old) (λ start. Restores D.Disk start disk.new whole)) }
    ensures refused { RefusesStill D.Disk disk.old disk.new result }
    ensures closed { KeepsMainWhereClosed D.Disk disk.old disk.new }
    ensures gate { KeepsFilesAtGate D.Disk disk.old disk.new }
    ensures alike { ToldAlike (D.content disk.old) (D.content disk.new) }
    ensures stop { ForSome (D.content disk.old) (λ start. LeavesOnly D.Disk disk.old disk.new (RecoversAs start)) }
    ensures kind { Names is_open_call result }
    ensures cause { HasCause (D.faults disk.old) (D.faults disk.new) result }
{
    match examine(disk, len)? {
        State::Shut => Ok(true),
        State::Broken => Ok(false),
        State::Open(old_pages) => {
            undo_batches(disk, len, old_pages)?;
            Ok(true)
        }
    }
}

/// Cuts the journal to its first gate, and syncs it.
fn cut_journal<D: Disk>(disk: &mut D) -> Result<(), DiskFault>
    requires some { ForSome (D.content disk.old) (λ files. 1 ≤ length files.journal) }
    ensures steps { Steps D.Disk Shortens disk.old disk.new }
    ensures cut { Becomes D.Disk (in_file Journal (take 1)) disk.old disk.new result }
    ensures settled { OnOk result (ForSome (D.content disk.new) (IsSettledIn D.Disk disk.new Journal)) }
    ensures kind { Names is_open_call result }
    ensures cause { HasCause (D.faults disk.old) (D.faults disk.new) result }
{
    disk.cut(FileNo::Journal, 1)?;
    disk.sync(FileNo::Journal)
}

/// Leaves a journal of one closed gate, of one in which no batch counts.
fn empty_journal<D: Disk>(disk: &mut D) -> Result<(), DiskFault>
    requires settled { ForSome (D.content disk.old) (IsSettled D.Disk disk.old) }
    requires shut { ForSome (D.content disk.old) (λ files. IsShut files.journal) }
    ensures rest { OnOk result (Empties D.Disk disk.old disk.new) }
    ensures main { Steps D.Disk (Keeps Main) disk.old disk.new }
    ensures gate { KeepsFilesAtGate D.Disk disk.old disk.new }
    ensures stop { LeavesMain D.Disk disk.old disk.new }
    ensures kind { Names is_open_call result }
    ensures cause { HasCause (D.faults disk.old) (D.faults disk.new) result }
{
    cut_journal(disk)?;
    let mut gate = [0];
    disk.read(FileNo::Journal, 0, &mut gate)?;
    if gate[0] == CLOSED {
        return Ok(());
    }
    // Any byte may stand there now, and nothing stands behind it.
    set_gate(disk, CLOSED)
}

/// Syncs both files, so that a stop leaves what they hold.
fn settle<D: Disk>(disk: &mut D) -> Result<(), DiskFault>
    ensures steps { Steps D.Disk Stays disk.old disk.new }
    ensures same { OnOk result (D.content disk.new ≡ D.content disk.old) }
    ensures settled { OnOk result (ForSome (D.content disk.new) (IsSettled D.Disk disk.new)) }
    ensures kind { Names is_open_call result }
    ensures cause { HasCause (D.faults disk.old) (D.faults disk.new) result }
{
    disk.sync(FileNo::Main)?;
    disk.sync(FileNo::Journal)
}

/// Recovers the files, of which a stop leaves what they hold. Answers whether they recover to something.
fn recover_settled<D: Disk>(disk: &mut D) -> Result<bool, DiskFault>
    requires settled { ForSome (D.content disk.old) (IsSettled D.Disk disk.old) }
    ensures answer { IfOk result (λ whole. ForSome (D.content disk.old) (λ start. Opens D.Disk start disk.new whole)) }
    ensures refused { RefusesStill D.Disk disk.old disk.new result }
    ensures closed { KeepsMainWhereClosed D.Disk disk.old disk.new }
    ensures gate { KeepsFilesAtGate D.Disk disk.old disk.new }
    ensures alike { ToldAlike (D.content disk.old) (D.content disk.new) }
    ensures stop { ForSome (D.content disk.old) (λ start. LeavesOnly D.Disk disk.old disk.new (RecoversAs start)) }
    ensures kind { Names is_open_call result }
    ensures cause { HasCause (D.faults disk.old) (D.faults disk.new) result }
{
    let len = disk.length(FileNo::Journal)?;
    if len == 0 {
        set_gate(disk, CLOSED)?;
        return Ok(true);
    }
    if !restore(disk, len)? {
        return Ok(false);
    }
    empty_journal(disk)?;
    Ok(true)
}

/// Recovers the files, and leaves a journal of one closed gate. Answers whether they recover to something.
pub(crate) fn recover<D: Disk>(disk: &mut D) -> Result<bool, DiskFault>
    ensures answer { IfOk result (λ whole. ForSome (D.content disk.old) (λ start. Opens D.Disk start disk.new whole)) }
    ensures refused { RefusesStill D.Disk disk.old disk.new result }
    ensures closed { KeepsMainWhereClosed D.Disk disk.old disk.new }
    ensures gate { KeepsFilesAtGate D.Disk disk.old disk.new }
    ensures alike { ToldAlike (D.content disk.old) (D.content disk.new) }
    ensures stop { KeepsRecovered D.Disk disk.old disk.new }
    ensures kind { Names is_open_call result }
    ensures cause { HasCause (D.faults disk.old) (D.faults disk.new) result }
{
    settle(disk)?;
    recover_settled(disk)
}

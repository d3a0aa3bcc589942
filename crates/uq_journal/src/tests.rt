//! Stops of a commit and of a recovery, over a disk in memory.
ghost use Rattle.std.specs.Prelude.{◌≡◌};
ghost use Rattle.uq_journal.specs.Recovered.{Ascends, numbers};

use crate::{Dirty, Journal};
use std::alloc::Global;
use std::test::Fail;
use uq_outside::{FileNo, Image, MemDisk};
use uq_page::{PAGE_SIZE, Page};

/// The calls of a commit of three pages of which two have originals, over files whose journal is empty: five to open
/// it, four for the originals, three for the pages, four writes and four syncs beside.
const COMMIT: u64 = 20;

/// The calls of a recovery with two originals, and the first of them that changes a file.
const RECOVERY: u64 = 30;

const FIRST_WRITE: u64 = 19;

/// A file of pages, each filled with one of these bytes.
fn pages(alloc: Global, bytes: &[u8]) -> Result<Vec<u8>, Fail> {
    let mut pages = Vec::new(alloc);
    for byte in bytes {
        pages.extend_from_slice(&[*byte; PAGE_SIZE])?;
    }
    Ok(pages)
}

/// A page to be written, filled with this byte.
fn dirty(no: u32, byte: u8) -> Dirty
    ensures { result.no ≡ no }
{
    Dirty {
        no,
        first: true,
        page: Page::from_bytes([byte; PAGE_SIZE]),
    }
}

/// Opens the journal and writes the pages. It answers whether no call failed.
fn commit(disk: &mut MemDisk, old_pages: u32, dirty: &[Dirty]) -> bool
    requires { Ascends 0 old_pages (numbers dirty.now) }
{
    let Ok(mut journal) = Journal::open(disk) else {
        return false;
    };
    if disk.file(FileNo::Main).len() as u64 != PAGE_SIZE as u64 * old_pages as u64 {
        return false;
    }
    journal.commit_batch(disk, old_pages, dirty).is_ok()
}

/// Writes three pages over two.
fn commit_three(disk: &mut MemDisk) -> bool {
    commit(disk, 2, &[dirty(0, 4), dirty(1, 5), dirty(2, 6)])
}

/// Whether each stop after so many calls leaves files that recover to one of these main files and a closed gate.
fn recovers_to(alloc: Global, disk: &MemDisk, moment: u64, mains: &[&[u8]]) -> Result<bool, Fail> {
    if moment > disk.calls() {
        return Ok(false);
    }
    for choice in 0..5u8 {
        let left = disk.image(moment, choice)?;
        let mut disk = MemDisk::new(alloc, left.main(), left.journal(), &[])?;
        Journal::open(&mut disk)?;
        let is_right = mains.iter().any(|main| *main == disk.file(FileNo::Main));
        if !is_right || disk.file(FileNo::Journal) != [0].as_slice() {
            return Ok(false);
        }
    }
    Ok(true)
}

#[test]
fn a_commit_stopped_at_any_call_leaves_the_old_pages_or_the_new(
    rt: HostRuntime,
) -> Result<(), Fail> {
    let old = pages(rt.alloc(), &[1, 2])?;
    let new = pages(rt.alloc(), &[4, 5, 6])?;
    for call in 1..COMMIT + 1 {
        let mut disk = MemDisk::new(rt.alloc(), old.as_slice(), b"", &[call])?;
        assert!(rt; !commit_three(&mut disk), "call {call}");
        assert!(rt;
            recovers_to(rt.alloc(), &disk, call, &[old.as_slice(), new.as_slice()])?,
            "call {call}"
        );
    }
    let mut disk = MemDisk::new(rt.alloc(), old.as_slice(), b"", &[])?;
    assert!(rt; commit_three(&mut disk));
    assert_eq!(rt; disk.calls(), COMMIT);
    for moment in 0..COMMIT {
        assert!(rt;
            recovers_to(rt.alloc(), &disk, moment, &[old.as_slice(), new.as_slice()])?,
            "moment {moment}"
        );
    }
    assert!(rt; recovers_to(rt.alloc(), &disk, COMMIT, &[new.as_slice()])?);
    Ok(())
}

/// An open batch with the originals of two pages.
fn two_originals(alloc: Global) -> Result<Vec<u8>, Fail> {
    let mut journal = Vec::new(alloc);
    journal.extend_from_slice(&[0xa5, 0, 0, 0, 2, 0, 0, 0, 2])?;
    for no in 0..2u8 {
        journal.extend_from_slice(&[0, 0, 0, no])?;
        journal.extend_from_slice(&[no + 1; PAGE_SIZE])?;
    }
    journal.push(0)?;
    Ok(journal)
}

/// Whether an opening that stops at each call from its first write on leaves files that recover to this main file.
fn restores(alloc: Global, left: &Image, old: &[u8]) -> Result<bool, Fail> {
    for call in FIRST_WRITE..RECOVERY + 1 {
        let mut disk = MemDisk::new(alloc, left.main(), left.journal(), &[call])?;
        let _stopped = Journal::open(&mut disk);
        if !recovers_to(alloc, &disk, disk.calls(), &[old])? {
            return Ok(false);
        }
    }
    Ok(true)
}

#[test]
fn a_recovery_stopped_at_any_call_and_twice_in_a_row_restores_the_old_pages(
    rt: HostRuntime,
) -> Result<(), Fail> {
    let old = pages(rt.alloc(), &[1, 2])?;
    let half_written = pages(rt.alloc(), &[4, 9, 6])?;
    let journal = two_originals(rt.alloc())?;
    for call in 1..RECOVERY + 2 {
        let files = (half_written.as_slice(), journal.as_slice());
        let mut disk = MemDisk::new(rt.alloc(), files.0, files.1, &[call])?;
        assert_eq!(rt; Journal::open(&mut disk).is_ok(), call > RECOVERY);
        assert!(rt;
            recovers_to(rt.alloc(), &disk, disk.calls(), &[old.as_slice()])?,
            "call {call}"
        );
        if call < FIRST_WRITE {
            continue;
        }
        for choice in 0..5u8 {
            let left = disk.image(disk.calls(), choice)?;
            assert!(rt;
                restores(rt.alloc(), &left, old.as_slice())?,
                "call {call}, choice {choice}"
            );
        }
    }
    Ok(())
}

#[test]
fn a_first_commit_leaves_a_journal_of_ten_zero_bytes(rt: HostRuntime) -> Result<(), Fail> {
    let mut disk = MemDisk::new(rt.alloc(), b"", b"", &[])?;
    assert!(rt; commit(&mut disk, 0, &[dirty(0, 7)]));
    assert_eq!(rt; disk.file(FileNo::Journal), [0; 10].as_slice());
    assert_eq!(rt; disk.file(FileNo::Main), [7; PAGE_SIZE].as_slice());
    Ok(())
}

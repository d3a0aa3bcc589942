//! A pager over a disk in memory: what is held, and where it may be stopped.
ghost use Rattle.std.specs.Prelude.{◌≡◌, true, OnOk, List, ℕ, Some};
ghost use Rattle.std.specs.Option.{ForSome};
ghost use Rattle.uq_journal.specs.Calls.{recovered_pages};
ghost use Rattle.uq_pager.specs.Paged.{Commits};

use crate::{Pager, PagerFault, recover};
use std::alloc::Global;
use std::test::Fail;
use uq_outside::{Disk, FileNo, MemDisk};
use uq_page::{PAGE_SIZE, Page, Pages, PagesFault};

/// A file of pages, each filled with one of these bytes.
fn pages(alloc: Global, bytes: &[u8]) -> Result<Vec<u8>, Fail> {
    let mut pages = Vec::new(alloc);
    for byte in bytes {
        pages.extend_from_slice(&[*byte; PAGE_SIZE])?;
    }
    Ok(pages)
}

/// A page filled with this byte.
fn page(byte: u8) -> Page {
    Page::from_bytes([byte; PAGE_SIZE])
}

/// What a layer above does: it knows of `Pages` alone.
fn grow_and_rewrite<P: Pages>(pages: &mut P, times: u32) -> Result<(), PagesFault>
    requires { P.is_sound pages.old ≡ true }
    ensures { P.keeps pages.old pages.new }
{
    let mut copy = page(1);
    for _ in 0..times {
        if pages.count() == u32::MAX {
            return Ok(());
        }
        let no = pages.grow(&copy)?;
        pages.read_page(no, &mut copy)?;
        pages.write_page(no, &copy)?;
    }
    Ok(())
}

/// Under such a layer the committed pages stay, and whoever lent the disk knows them at the end.
fn change_and_drop<D: Disk>(alloc: Global, disk: &mut D, times: u32) -> Result<(), PagerFault>
    ensures { OnOk result (ForSome (D.content disk.old) (λ start. (pages : List (List ℕ)) → recovered_pages start ≡ Some pages → Commits D.Disk disk.new pages)) }
{
    let ready = recover(alloc, disk, 64)?;
    let mut pager = Pager::over(disk, ready);
    let _changed = grow_and_rewrite(&mut pager, times);
    let _disk = pager.into_disk();
    Ok(())
}

#[test]
fn pages_that_were_not_committed_are_gone(rt: HostRuntime) -> Result<(), Fail> {
    let mut disk = MemDisk::new(rt.alloc(), b"", b"", &[])?;
    change_and_drop(rt.alloc(), &mut disk, 3)?;
    assert_eq!(rt; disk.file(FileNo::Main), b"".as_slice());
    Ok(())
}

#[test]
fn a_page_is_grown_written_and_read_over_two_empty_files(rt: HostRuntime) -> Result<(), Fail> {
    let mut disk = MemDisk::new(rt.alloc(), b"", b"", &[])?;
    {
        let mut pager = Pager::open(rt.alloc(), &mut disk, 64)?;
        assert_eq!(rt; pager.count(), 0);
        assert!(rt; !pager.is_begun());
        assert_eq!(rt; pager.grow(&page(1))?, 0);
        pager.write_page(0, &page(2))?;
        let mut read = Page::zero();
        pager.read_page(0, &mut read)?;
        assert!(rt; read == page(2));
        assert!(rt; pager.is_begun());
        assert_eq!(rt; pager.held(), 1);
    }
    assert_eq!(rt; disk.file(FileNo::Journal), [0].as_slice());
    Ok(())
}

/// How many calls the disk got for an opening and a read of its page, once or twice.
fn calls_of_reads(alloc: Global, twice: bool) -> Result<u64, Fail> {
    let main = pages(alloc, &[7])?;
    let mut disk = MemDisk::new(alloc, main.as_slice(), &[0], &[])?;
    {
        let mut pager = Pager::open(alloc, &mut disk, 64)?;
        if pager.count() == 0 {
            return Err(Fail::from("no page"));
        }
        let mut read = Page::zero();
        pager.read_page(0, &mut read)?;
        if twice {
            pager.read_page(0, &mut read)?;
        }
    }
    Ok(disk.calls())
}

#[test]
fn a_second_read_of_a_held_page_makes_no_disk_call(rt: HostRuntime) -> Result<(), Fail> {
    let once = calls_of_reads(rt.alloc(), false)?;
    assert_eq!(rt; calls_of_reads(rt.alloc(), true)?, once);
    Ok(())
}

/// Opens the files, overwrites the first of two pages, appends a third, and commits or rolls back. It answers whether
/// no call failed.
fn change(alloc: Global, disk: &mut MemDisk, commits: bool) -> bool {
    let Ok(mut pager) = Pager::open(alloc, disk, 64) else {
        return false;
    };
    if pager.count() != 2 {
        return false;
    }
    pager.begin();
    let Ok(()) = pager.write_page(0, &page(4)) else {
        return false;
    };
    let Ok(_) = pager.grow(&page(6)) else {
        return false;
    };
    if commits {
        pager.commit().is_ok()
    } else {
        pager.rollback().is_ok()
    }
}

/// Whether each stop after so many calls leaves files that open with one of these main files.
fn opens_with(alloc: Global, disk: &MemDisk, moment: u64, mains: &[&[u8]]) -> Result<bool, Fail> {
    if moment > disk.calls() {
        return Ok(false);
    }
    for choice in 0..5u8 {
        let left = disk.image(moment, choice)?;
        let mut disk = MemDisk::new(alloc, left.main(), left.journal(), &[])?;
        drop(Pager::open(alloc, &mut disk, 64)?);
        if !mains.iter().any(|main| *main == disk.file(FileNo::Main)) {
            return Ok(false);
        }
    }
    Ok(true)
}

/// The calls of an opening of files whose journal is empty: five of the journal, and the length of the main file.
const OPENING: u64 = 6;

/// The calls of a commit of two pages of which one has an original: a read and a write for the original, two writes of
/// pages, and four writes and four syncs beside.
const COMMIT: u64 = 12;

#[test]
fn a_commit_stopped_at_any_call_leaves_the_old_pages_or_the_new(
    rt: HostRuntime,
) -> Result<(), Fail> {
    let old = pages(rt.alloc(), &[1, 2])?;
    let new = pages(rt.alloc(), &[4, 2, 6])?;
    let either = [old.as_slice(), new.as_slice()];
    for call in 1..OPENING + COMMIT + 1 {
        let mut disk = MemDisk::new(rt.alloc(), old.as_slice(), b"", &[call])?;
        assert!(rt; !change(rt.alloc(), &mut disk, true), "call {call}");
        for moment in 0..call + 1 {
            assert!(rt;
                opens_with(rt.alloc(), &disk, moment, &either)?,
                "call {call}"
            );
        }
    }
    let mut disk = MemDisk::new(rt.alloc(), old.as_slice(), b"", &[])?;
    assert!(rt; change(rt.alloc(), &mut disk, true));
    assert_eq!(rt; disk.calls(), OPENING + COMMIT);
    assert!(rt; opens_with(rt.alloc(), &disk, disk.calls(), &[new.as_slice()])?);
    Ok(())
}

#[test]
fn a_rollback_and_every_stop_before_it_leave_the_old_pages(rt: HostRuntime) -> Result<(), Fail> {
    let old = pages(rt.alloc(), &[1, 2])?;
    for call in 1..OPENING + 2 {
        let mut disk = MemDisk::new(rt.alloc(), old.as_slice(), b"", &[call])?;
        assert_eq!(rt; change(rt.alloc(), &mut disk, false), call > OPENING);
        for moment in 0..call.min(OPENING) + 1 {
            assert!(rt;
                opens_with(rt.alloc(), &disk, moment, &[old.as_slice()])?,
                "call {call}"
            );
        }
    }
    Ok(())
}

//! A store over a disk in memory: what is refused, what a fault closes, and where it may be stopped.
ghost use Rattle.std.specs.Prelude.{◌≤◌};

use crate::{Kv, KvFault, OpenFault, Space, recover};
use std::alloc::Global;
use std::test::Fail;
use uq_model::{Cause, Limits, MOST_BYTES, MOST_ENTRIES};
use uq_outside::{FileNo, MemDisk};

/// The greatest limits.
const LIMITS: Limits = Limits {
    entries: MOST_ENTRIES,
    bytes: MOST_BYTES,
};

/// Limits that any store has, cut to the greatest ones.
fn limits(entries: u64, bytes: u64) -> Limits
    ensures entries { result.entries ≤ MOST_ENTRIES }
    ensures bytes { result.bytes ≤ MOST_BYTES }
{
    Limits {
        entries: entries.min(MOST_ENTRIES),
        bytes: bytes.min(MOST_BYTES),
    }
}

/// A disk of two empty files.
fn empty_disk(alloc: Global) -> Result<MemDisk, Fail> {
    Ok(MemDisk::new(alloc, b"", b"", &[])?)
}

/// Opens the files, stores data under `a`, commits and closes. Answers whether no call failed.
fn store_a(alloc: Global, disk: &mut MemDisk, value: &[u8]) -> bool {
    let Ok(mut kv) = Kv::open(alloc, disk, LIMITS) else {
        return false;
    };
    let stored = kv.store(alloc, Space::Keys, b"a", value).is_ok();
    let committed = kv.commit() == Ok(true);
    stored && committed
}

/// The data of `a` in these files, opened anew.
fn data_of_a(alloc: Global, main: &[u8], journal: &[u8]) -> Result<Option<Vec<u8>>, Fail> {
    let mut disk = MemDisk::new(alloc, main, journal, &[])?;
    let mut kv = Kv::open(alloc, &mut disk, LIMITS)?;
    match kv.fetch(alloc, Space::Keys, b"a") {
        Ok(found) => Ok(Some(found)),
        Err(KvFault::NotFound) => Ok(None),
        Err(fault) => Err(Fail::from(fault)),
    }
}

/// Whether `a` has one of these data, or is not there where that is among them, in each image of a stop after so many
/// calls.
fn leaves(
    alloc: Global,
    disk: &MemDisk,
    moment: u64,
    outcomes: &[Option<&[u8]>],
) -> Result<bool, Fail> {
    if moment > disk.calls() {
        return Ok(false);
    }
    for choice in 0..5u8 {
        let left = disk.image(moment, choice)?;
        let found = data_of_a(alloc, left.main(), left.journal())?;
        let found = found.as_deref();
        if !outcomes.iter().any(|outcome| *outcome == found) {
            return Ok(false);
        }
    }
    Ok(true)
}

#[test]
fn what_is_stored_is_found_again_and_the_journal_is_ten_zero_bytes(
    rt: HostRuntime,
) -> Result<(), Fail> {
    let mut disk = empty_disk(rt.alloc())?;
    assert!(rt; store_a(rt.alloc(), &mut disk, b"1"));
    assert_eq!(rt; disk.file(FileNo::Journal), [0; 10].as_slice());
    let found = data_of_a(
        rt.alloc(),
        disk.file(FileNo::Main),
        disk.file(FileNo::Journal),
    )?;
    assert!(rt; found.as_deref() == Some(b"1".as_slice()));
    Ok(())
}

#[test]
fn spaces_are_apart_and_a_rollback_gives_the_saved_back(rt: HostRuntime) -> Result<(), Fail> {
    let mut disk = empty_disk(rt.alloc())?;
    {
        let alloc = rt.alloc();
        let mut kv = Kv::open(alloc, &mut disk, LIMITS)?;
        assert!(rt; kv.store(alloc, Space::Keys, b"a", b"1") == Ok(()));
        assert!(rt; kv.store(alloc, Space::Docs, b"a", b"2") == Ok(()));
        assert!(rt; kv.commit() == Ok(true));
        assert!(rt; kv.begin() == Ok(()));
        assert!(rt; kv.store(alloc, Space::Keys, b"a", b"3") == Ok(()));
        assert!(rt; kv.fetch(alloc, Space::Keys, b"a")?.as_slice() == b"3".as_slice());
        assert!(rt; kv.rollback() == Ok(()));
        assert!(rt; kv.fetch(alloc, Space::Keys, b"a")?.as_slice() == b"1".as_slice());
        assert!(rt; kv.fetch(alloc, Space::Docs, b"a")?.as_slice() == b"2".as_slice());
        let (answer, _disk) = kv.close();
        assert!(rt; answer == Ok(false));
    }
    Ok(())
}

#[test]
fn a_rollback_leaves_an_empty_file_empty(rt: HostRuntime) -> Result<(), Fail> {
    let mut disk = empty_disk(rt.alloc())?;
    {
        let alloc = rt.alloc();
        let mut kv = Kv::open(alloc, &mut disk, LIMITS)?;
        assert!(rt; kv.rollback() == Ok(()));
        assert!(rt; kv.store(alloc, Space::Keys, b"a", b"1") == Ok(()));
        assert!(rt; kv.rollback() == Ok(()));
        assert!(rt; kv.fetch(alloc, Space::Keys, b"a").is_err());
        assert!(rt; kv.commit() == Ok(false));
    }
    assert_eq!(rt; disk.file(FileNo::Main), b"".as_slice());
    Ok(())
}

/// So many letters.
fn letters(alloc: Global, len: usize) -> Result<Vec<u8>, Fail> {
    Ok(vec![in alloc; b'v'; len]?)
}

#[test]
fn refusals_come_at_their_lengths(rt: HostRuntime) -> Result<(), Fail> {
    let mut disk = empty_disk(rt.alloc())?;
    let alloc = rt.alloc();
    let mut kv = Kv::open(alloc, &mut disk, limits(2, MOST_BYTES))?;
    let key = [b'k'; 1025];
    let short = [b'v'; 255];
    let value = letters(alloc, 16_777_217)?;
    // The earlier refusal comes first: where the key is wrong whatever the data are, and full last.
    assert!(rt; kv.store(alloc, Space::Keys, b"", &value) == Err(KvFault::EmptyKey));
    assert!(rt; kv.store(alloc, Space::Keys, &key, &value) == Err(KvFault::KeyTooLong));
    assert!(rt; kv.store(alloc, Space::Keys, &key, b"") == Err(KvFault::KeyTooLong));
    assert!(rt; kv.store(alloc, Space::Keys, b"a", &value) == Err(KvFault::ValueTooLong));
    assert!(rt; kv.commit() == Ok(false));
    assert!(rt; kv.store(alloc, Space::Keys, &key[..1024], &short) == Ok(()));
    assert!(rt; kv.store(alloc, Space::Keys, b"a", b"") == Ok(()));
    assert!(rt; kv.store(alloc, Space::Keys, b"b", &value) == Err(KvFault::ValueTooLong));
    assert!(rt; kv.store(alloc, Space::Keys, b"b", b"") == Err(KvFault::Full));
    assert!(rt; kv.fetch(alloc, Space::Keys, &key[..1024])?.as_slice() == short.as_slice());
    assert!(rt; kv.fetch(alloc, Space::Keys, b"a")?.is_empty());
    let long = kv.fetch(alloc, Space::Keys, &key).map(|_| ());
    assert!(rt; long == Err(KvFault::KeyTooLong));
    let empty = kv.fetch(alloc, Space::Keys, b"").map(|_| ());
    assert!(rt; empty == Err(KvFault::EmptyKey));
    let absent = kv.fetch(alloc, Space::Keys, b"b").map(|_| ());
    assert!(rt; absent == Err(KvFault::NotFound));
    Ok(())
}

#[test]
fn data_stand_in_their_cell_or_in_a_chain_of_pages(rt: HostRuntime) -> Result<(), Fail> {
    let mut disk = empty_disk(rt.alloc())?;
    let alloc = rt.alloc();
    let mut kv = Kv::open(alloc, &mut disk, LIMITS)?;
    for len in [255, 256, 16_777_216, 0, 4081] {
        let value = letters(alloc, len)?;
        assert!(rt;
            kv.store(alloc, Space::Keys, b"a", &value) == Ok(()),
            "{len} bytes"
        );
        let found = kv.fetch(alloc, Space::Keys, b"a")?;
        assert!(rt; found.as_slice() == value.as_slice(), "{len} bytes");
    }
    Ok(())
}

#[test]
fn entries_of_many_pages_are_there_after_a_commit(rt: HostRuntime) -> Result<(), Fail> {
    let mut disk = empty_disk(rt.alloc())?;
    let alloc = rt.alloc();
    let mut key = [b'k'; 1024];
    let value = [b'v'; 300];
    {
        let mut kv = Kv::open(alloc, &mut disk, LIMITS)?;
        for first in 0..20u8 {
            key[0] = first;
            let data = &value[..usize::from(first) * 15];
            assert!(rt;
                kv.store(alloc, Space::Keys, &key, data) == Ok(()),
                "key {first}"
            );
        }
        assert!(rt; kv.commit() == Ok(true));
    }
    let mut kv = Kv::open(alloc, &mut disk, LIMITS)?;
    for first in 0..20u8 {
        key[0] = first;
        let found = kv.fetch(alloc, Space::Keys, &key)?;
        assert!(rt;
            found.as_slice() == &value[..usize::from(first) * 15],
            "key {first}"
        );
    }
    Ok(())
}

#[test]
fn limits_are_reached_and_not_passed(rt: HostRuntime) -> Result<(), Fail> {
    let mut disk = empty_disk(rt.alloc())?;
    let alloc = rt.alloc();
    {
        let mut kv = Kv::open(alloc, &mut disk, limits(1, 99))?;
        assert!(rt; kv.store(alloc, Space::Keys, b"a", b"1") == Ok(()));
        assert!(rt; kv.store(alloc, Space::Keys, b"b", b"2") == Err(KvFault::Full));
        assert!(rt; kv.store(alloc, Space::Keys, b"a", b"22") == Ok(()));
        assert!(rt; kv.commit() == Ok(true));
    }
    let mut kv = Kv::open(alloc, &mut disk, limits(9, 3))?;
    assert!(rt; kv.store(alloc, Space::Keys, b"a", b"333") == Err(KvFault::Full));
    assert!(rt; kv.store(alloc, Space::Keys, b"a", b"44") == Ok(()));
    assert!(rt; kv.store(alloc, Space::Keys, b"a", b"") == Ok(()));
    assert!(rt; kv.store(alloc, Space::Keys, b"a", b"5") == Ok(()));
    assert!(rt; kv.store(alloc, Space::Keys, b"a", b"66") == Err(KvFault::Full));
    Ok(())
}

#[test]
fn ten_zero_pages_and_a_torn_page_are_no_database(rt: HostRuntime) -> Result<(), Fail> {
    for len in [10usize, 4096, 40960] {
        let mut zeros = Vec::new(rt.alloc());
        for _ in 0..len {
            zeros.push(0u8)?;
        }
        let mut disk = MemDisk::new(rt.alloc(), zeros.as_slice(), b"", &[])?;
        let refused = recover(rt.alloc(), &mut disk).map(|_| ());
        assert!(rt; refused == Err(OpenFault::NotDatabase), "{len} bytes");
        assert!(rt; disk.file(FileNo::Main) == zeros.as_slice());
    }
    Ok(())
}

/// The main file of a database with `a`, with a byte of its bucket changed.
fn corrupt_disk(alloc: Global) -> Result<MemDisk, Fail> {
    let mut disk = empty_disk(alloc)?;
    if !store_a(alloc, &mut disk, b"1") {
        return Err(Fail::from("not stored"));
    }
    let mut main = Vec::new(alloc);
    main.extend_from_slice(disk.file(FileNo::Main))?;
    match main.get_mut(4096) {
        Some(mark) => *mark = b'X',
        None => return Err(Fail::from("one page")),
    }
    Ok(MemDisk::new(alloc, main.as_slice(), disk.file(FileNo::Journal), &[])?)
}

#[test]
fn a_closed_store_answers_its_first_cause(rt: HostRuntime) -> Result<(), Fail> {
    let alloc = rt.alloc();
    let mut disk = corrupt_disk(alloc)?;
    let mut kv = Kv::open(alloc, &mut disk, LIMITS)?;
    let first = kv.fetch(alloc, Space::Keys, b"a").map(|_| ());
    assert!(rt; first == Err(KvFault::Corrupt));
    let closed = KvFault::Closed {
        first: Cause::Corrupt,
    };
    let again = kv.fetch(alloc, Space::Keys, b"").map(|_| ());
    assert!(rt; again == Err(closed));
    assert!(rt; kv.store(alloc, Space::Keys, b"", b"") == Err(closed));
    assert!(rt; kv.begin() == Err(closed));
    assert!(rt; kv.commit() == Err(closed));
    assert!(rt; kv.rollback() == Err(closed));
    let (answer, _disk) = kv.close();
    assert!(rt; answer == Err(closed));
    Ok(())
}

/// The calls of an opening of two empty files, and of a commit of the two pages that are new.
const OPENING: u64 = 6;

const COMMIT: u64 = 10;

#[test]
fn a_commit_stopped_at_any_call_leaves_the_saved_or_what_is_there(
    rt: HostRuntime,
) -> Result<(), Fail> {
    let alloc = rt.alloc();
    for call in 1..OPENING + COMMIT + 1 {
        let mut disk = MemDisk::new(alloc, b"", b"", &[call])?;
        assert!(rt; !store_a(alloc, &mut disk, b"1"), "call {call}");
        for moment in 0..call + 1 {
            assert!(rt;
                leaves(alloc, &disk, moment, &[None, Some(b"1")])?,
                "call {call}"
            );
        }
    }
    let mut disk = empty_disk(alloc)?;
    assert!(rt; store_a(alloc, &mut disk, b"1"));
    assert_eq!(rt; disk.calls(), OPENING + COMMIT);
    assert!(rt; leaves(alloc, &disk, disk.calls(), &[Some(b"1")])?);
    Ok(())
}

#[test]
fn a_store_whose_commit_failed_answers_no_more(rt: HostRuntime) -> Result<(), Fail> {
    let alloc = rt.alloc();
    let mut disk = MemDisk::new(alloc, b"", b"", &[OPENING + COMMIT])?;
    {
        let mut kv = Kv::open(alloc, &mut disk, LIMITS)?;
        assert!(rt; kv.store(alloc, Space::Keys, b"a", b"1") == Ok(()));
        assert!(rt; kv.commit() == Err(KvFault::Disk));
        let closed = KvFault::Closed { first: Cause::Disk };
        let found = kv.fetch(alloc, Space::Keys, b"a").map(|_| ());
        assert!(rt; found == Err(closed));
        assert!(rt; kv.commit() == Err(closed));
    }
    // The last call is the sync behind the closed gate: the pages are there already.
    let found = data_of_a(alloc, disk.file(FileNo::Main), disk.file(FileNo::Journal))?;
    assert!(rt; found.as_deref() == Some(b"1".as_slice()));
    Ok(())
}

/// The files that a commit over `a` left which failed at its last write, the one that closes the gate.
fn leftover(alloc: Global) -> Result<MemDisk, Fail> {
    let mut disk = empty_disk(alloc)?;
    if !store_a(alloc, &mut disk, b"1") {
        return Err(Fail::from("not stored"));
    }
    let mut calls = 1u64;
    for call in 1..60u64 {
        let mut again = MemDisk::new(
            alloc,
            disk.file(FileNo::Main),
            disk.file(FileNo::Journal),
            &[call],
        )?;
        if store_a(alloc, &mut again, b"2") {
            break;
        }
        calls = call;
    }
    // The last call but one writes the gate.
    let last = calls.saturating_sub(1);
    let mut again = MemDisk::new(
        alloc,
        disk.file(FileNo::Main),
        disk.file(FileNo::Journal),
        &[last],
    )?;
    if store_a(alloc, &mut again, b"2") {
        return Err(Fail::from("no call failed"));
    }
    Ok(MemDisk::new(
        alloc,
        again.file(FileNo::Main),
        again.file(FileNo::Journal),
        &[],
    )?)
}

#[test]
fn an_opening_stopped_at_any_call_leaves_what_the_files_recover_to(
    rt: HostRuntime,
) -> Result<(), Fail> {
    let alloc = rt.alloc();
    let left = leftover(alloc)?;
    assert!(rt; left.file(FileNo::Journal).first() == Some(&0xa5));
    assert!(rt; leaves(alloc, &left, 0, &[Some(b"1")])?);
    let mut failed = 0u64;
    for call in 1..40u64 {
        let mut disk = MemDisk::new(
            alloc,
            left.file(FileNo::Main),
            left.file(FileNo::Journal),
            &[call],
        )?;
        let opened = recover(alloc, &mut disk).is_ok();
        // Before the call that fails the run is that of the later turns.
        for moment in call - 1..call + 1 {
            if moment <= disk.calls() {
                assert!(rt; leaves(alloc, &disk, moment, &[Some(b"1")])?, "call {call}");
            }
        }
        if opened {
            break;
        }
        failed = call;
    }
    assert!(rt; failed > 10);
    Ok(())
}

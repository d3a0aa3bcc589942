//! What a cursor is at, call by call, and small rows of calls on keys.
use crate::{Cursor, Kv, KvFault, Space};
use std::alloc::Global;
use std::test::Fail;
use uq_model::{Limits, MOST_BYTES, MOST_ENTRIES};
use uq_outside::MemDisk;

/// The greatest limits.
const LIMITS: Limits = Limits {
    entries: MOST_ENTRIES,
    bytes: MOST_BYTES,
};

/// A call on the user's keys or on a cursor.
#[derive(Clone, Copy)]
enum Call<'b> {
    Store(&'b [u8], &'b [u8]),
    Append(&'b [u8], &'b [u8]),
    Delete(&'b [u8]),
    Begin,
    Rollback,
    First,
    Last,
    Next,
    Prev,
    Seek(&'b [u8]),
    Drop,
    Reset,
}

/// A call, its answer, and what the cursor is at then: `KEY=DATA`, or nothing where its key is not there.
#[derive(Clone, Copy)]
struct Step<'b> {
    call: Call<'b>,
    answer: Result<(), KvFault>,
    at: &'b [u8],
}

fn want<'b>(call: Call<'b>, answer: Result<(), KvFault>, at: &'b [u8]) -> Step<'b> {
    Step { call, answer, at }
}

fn make(
    alloc: Global,
    kv: &mut Kv<'_, MemDisk>,
    c: &mut Cursor,
    call: Call<'_>,
) -> Result<(), KvFault> {
    match call {
        Call::Store(key, data) => kv.store(alloc, Space::Keys, key, data),
        Call::Append(key, more) => kv.append(alloc, Space::Keys, key, more),
        Call::Delete(key) => kv.delete(alloc, Space::Keys, key),
        Call::Begin => kv.begin(),
        Call::Rollback => kv.rollback(),
        Call::First => kv.cursor_first(alloc, c),
        Call::Last => kv.cursor_last(alloc, c),
        Call::Next => kv.cursor_next(alloc, c),
        Call::Prev => kv.cursor_prev(alloc, c),
        Call::Seek(key) => kv.cursor_seek(alloc, c, key),
        Call::Drop => kv.cursor_delete(alloc, c),
        Call::Reset => {
            kv.cursor_reset(c);
            Ok(())
        }
    }
}

/// What the cursor is at, as a step has it. Its three looks must agree on whether its key is there.
fn seen(alloc: Global, kv: &mut Kv<'_, MemDisk>, c: &Cursor) -> Result<Vec<u8>, Fail> {
    let mut at = Vec::new(alloc);
    match (kv.cursor_key(alloc, c), kv.cursor_data(alloc, c)) {
        (Ok(key), Ok(data)) => {
            at.extend_from_slice(&key)?;
            at.push(b'=')?;
            at.extend_from_slice(&data)?;
        }
        (Err(KvFault::NoEntry), Err(KvFault::NoEntry)) => {}
        _ => return Err(Fail::from("a key without data")),
    }
    if kv.cursor_valid(alloc, c)? == at.is_empty() {
        return Err(Fail::from("a key that is there and is not"));
    }
    Ok(at)
}

/// Makes the calls, and answers how many were right before one that was not.
fn count_right(alloc: Global, kv: &mut Kv<'_, MemDisk>, steps: &[Step<'_>]) -> Result<usize, Fail> {
    let mut c = Cursor::new();
    let mut right = 0usize;
    for step in steps {
        let answer = make(alloc, kv, &mut c, step.call);
        let at = seen(alloc, kv, &c)?;
        if answer != step.answer || at.as_slice() != step.at {
            return Ok(right);
        }
        right = right.saturating_add(1);
    }
    Ok(right)
}

/// Over a store with nothing in it.
fn right_over_nothing(alloc: Global, limits: Limits, steps: &[Step<'_>]) -> Result<usize, Fail> {
    if limits.entries > MOST_ENTRIES || limits.bytes > MOST_BYTES {
        return Err(Fail::from("limits"));
    }
    let mut disk = MemDisk::new(alloc, b"", b"", &[])?;
    let mut kv = Kv::open(alloc, &mut disk, limits)?;
    count_right(alloc, &mut kv, steps)
}

/// Over a store where `a`, `b` and `c` are saved, which are walked as `b`, `a`, `c`, and the same keys of the other space.
fn right_over_three(alloc: Global, steps: &[Step<'_>]) -> Result<usize, Fail> {
    let mut disk = MemDisk::new(alloc, b"", b"", &[])?;
    let mut kv = Kv::open(alloc, &mut disk, LIMITS)?;
    kv.store(alloc, Space::Keys, b"a", b"1")?;
    kv.store(alloc, Space::Keys, b"b", b"2")?;
    kv.store(alloc, Space::Keys, b"c", b"3")?;
    kv.store(alloc, Space::Docs, b"a", b"4")?;
    kv.store(alloc, Space::Docs, b"b", b"5")?;
    kv.store(alloc, Space::Docs, b"c", b"6")?;
    kv.commit()?;
    count_right(alloc, &mut kv, steps)
}

#[test]
fn over_an_empty_store_a_cursor_is_at_nothing(rt: HostRuntime) -> Result<(), Fail> {
    let steps = [
        want(Call::First, Err(KvFault::NoEntry), b""),
        want(Call::Last, Err(KvFault::NoEntry), b""),
        want(Call::Next, Err(KvFault::NoEntry), b""),
        want(Call::Prev, Err(KvFault::NoEntry), b""),
        want(Call::Seek(b"a"), Err(KvFault::NotFound), b""),
        want(Call::Drop, Err(KvFault::NoEntry), b""),
        want(Call::Reset, Ok(()), b""),
        want(Call::Delete(b"a"), Err(KvFault::NotFound), b""),
    ];
    assert_eq!(rt;
        right_over_nothing(rt.alloc(), LIMITS, &steps)?,
        steps.len()
    );
    Ok(())
}

#[test]
fn a_walk_goes_both_ways_and_passes_the_other_space(rt: HostRuntime) -> Result<(), Fail> {
    let steps = [
        want(Call::First, Ok(()), b"b=2"),
        want(Call::Next, Ok(()), b"a=1"),
        want(Call::Next, Ok(()), b"c=3"),
        want(Call::Prev, Ok(()), b"a=1"),
        want(Call::Prev, Ok(()), b"b=2"),
        want(Call::Prev, Err(KvFault::NoEntry), b""),
        want(Call::Last, Ok(()), b"c=3"),
        want(Call::Next, Err(KvFault::NoEntry), b""),
        want(Call::Prev, Err(KvFault::NoEntry), b""),
    ];
    assert_eq!(rt; right_over_three(rt.alloc(), &steps)?, steps.len());
    Ok(())
}

#[test]
fn a_walk_goes_on_behind_a_key_that_is_dropped(rt: HostRuntime) -> Result<(), Fail> {
    let steps = [
        want(Call::First, Ok(()), b"b=2"),
        want(Call::Drop, Ok(()), b""),
        want(Call::Drop, Err(KvFault::NoEntry), b""),
        want(Call::Next, Ok(()), b"a=1"),
        want(Call::Next, Ok(()), b"c=3"),
        want(Call::Next, Err(KvFault::NoEntry), b""),
        want(Call::First, Ok(()), b"a=1"),
    ];
    assert_eq!(rt; right_over_three(rt.alloc(), &steps)?, steps.len());
    Ok(())
}

#[test]
fn a_cursor_keeps_a_key_that_is_deleted(rt: HostRuntime) -> Result<(), Fail> {
    let steps = [
        want(Call::Seek(b"a"), Ok(()), b"a=1"),
        want(Call::Delete(b"a"), Ok(()), b""),
        want(Call::Store(b"a", b""), Ok(()), b"a="),
        want(Call::Drop, Ok(()), b""),
        want(Call::Prev, Ok(()), b"b=2"),
        want(Call::Next, Ok(()), b"c=3"),
        want(Call::Delete(b"c"), Ok(()), b""),
        want(Call::Next, Err(KvFault::NoEntry), b""),
        want(Call::Last, Ok(()), b"b=2"),
    ];
    assert_eq!(rt; right_over_three(rt.alloc(), &steps)?, steps.len());
    Ok(())
}

#[test]
fn a_cursor_is_at_data_that_are_replaced(rt: HostRuntime) -> Result<(), Fail> {
    let steps = [
        want(Call::Seek(b"a"), Ok(()), b"a=1"),
        want(Call::Store(b"a", b"9"), Ok(()), b"a=9"),
        want(Call::Append(b"a", b"8"), Ok(()), b"a=98"),
        want(Call::Store(b"b", b"7"), Ok(()), b"a=98"),
        want(Call::Next, Ok(()), b"c=3"),
    ];
    assert_eq!(rt; right_over_three(rt.alloc(), &steps)?, steps.len());
    Ok(())
}

#[test]
fn a_rollback_brings_the_key_of_a_cursor_back(rt: HostRuntime) -> Result<(), Fail> {
    let steps = [
        want(Call::Last, Ok(()), b"c=3"),
        want(Call::Begin, Ok(()), b"c=3"),
        want(Call::Drop, Ok(()), b""),
        want(Call::Rollback, Ok(()), b"c=3"),
        want(Call::Store(b"c", b"9"), Ok(()), b"c=9"),
        want(Call::Rollback, Ok(()), b"c=3"),
        want(Call::Prev, Ok(()), b"a=1"),
    ];
    assert_eq!(rt; right_over_three(rt.alloc(), &steps)?, steps.len());
    Ok(())
}

#[test]
fn a_rollback_takes_the_key_of_a_cursor_away(rt: HostRuntime) -> Result<(), Fail> {
    let steps = [
        want(Call::Store(b"d", b"9"), Ok(()), b""),
        want(Call::Seek(b"d"), Ok(()), b"d=9"),
        want(Call::Rollback, Ok(()), b""),
        want(Call::Store(b"d", b"8"), Ok(()), b"d=8"),
    ];
    assert_eq!(rt; right_over_three(rt.alloc(), &steps)?, steps.len());
    Ok(())
}

#[test]
fn a_seek_that_is_refused_unsets_the_cursor(rt: HostRuntime) -> Result<(), Fail> {
    let long = [b'k'; 1025];
    let steps = [
        want(Call::Seek(b"a"), Ok(()), b"a=1"),
        want(Call::Seek(b""), Err(KvFault::EmptyKey), b""),
        want(Call::Next, Err(KvFault::NoEntry), b""),
        want(Call::Seek(b"a"), Ok(()), b"a=1"),
        want(Call::Seek(&long), Err(KvFault::KeyTooLong), b""),
        want(Call::Prev, Err(KvFault::NoEntry), b""),
        want(Call::Seek(b"a"), Ok(()), b"a=1"),
        want(Call::Seek(b"d"), Err(KvFault::NotFound), b""),
        want(Call::Next, Err(KvFault::NoEntry), b""),
        want(Call::Seek(b"a"), Ok(()), b"a=1"),
        want(Call::Reset, Ok(()), b""),
        want(Call::Next, Err(KvFault::NoEntry), b""),
    ];
    assert_eq!(rt; right_over_three(rt.alloc(), &steps)?, steps.len());
    Ok(())
}

#[test]
fn appended_bytes_stand_behind_the_data(rt: HostRuntime) -> Result<(), Fail> {
    let cell = [b'v'; 255];
    let chain = [b'v'; 256];
    let mut seen = [b'v'; 258];
    seen[0] = b'k';
    seen[1] = b'=';
    let steps = [
        want(Call::Append(b"k", b"ab"), Ok(()), b""),
        want(Call::Seek(b"k"), Ok(()), b"k=ab"),
        want(Call::Append(b"k", b"cd"), Ok(()), b"k=abcd"),
        // From the cell into a chain of pages.
        want(Call::Store(b"k", &cell), Ok(()), &seen[..257]),
        want(Call::Append(b"k", b"v"), Ok(()), &seen),
        want(Call::Append(b"k", b""), Ok(()), &seen),
        want(Call::Store(b"k", &chain), Ok(()), &seen),
    ];
    assert_eq!(rt;
        right_over_nothing(rt.alloc(), LIMITS, &steps)?,
        steps.len()
    );
    Ok(())
}

#[test]
fn one_entry_fits(rt: HostRuntime) -> Result<(), Fail> {
    let limits = Limits {
        entries: 1,
        bytes: MOST_BYTES,
    };
    let steps = [
        want(Call::Store(b"a", b"1"), Ok(()), b""),
        want(Call::First, Ok(()), b"a=1"),
        want(Call::Store(b"b", b"2"), Err(KvFault::Full), b"a=1"),
        want(Call::Append(b"b", b""), Err(KvFault::Full), b"a=1"),
        want(Call::Store(b"a", b"22"), Ok(()), b"a=22"),
        want(Call::Drop, Ok(()), b""),
        want(Call::Store(b"b", b"2"), Ok(()), b""),
        want(Call::Prev, Ok(()), b"b=2"),
    ];
    assert_eq!(rt;
        right_over_nothing(rt.alloc(), limits, &steps)?,
        steps.len()
    );
    Ok(())
}

#[test]
fn three_bytes_fit(rt: HostRuntime) -> Result<(), Fail> {
    let limits = Limits {
        entries: MOST_ENTRIES,
        bytes: 3,
    };
    let steps = [
        want(Call::Store(b"a", b"1"), Ok(()), b""),
        want(Call::First, Ok(()), b"a=1"),
        want(Call::Store(b"a", b"12"), Err(KvFault::Full), b"a=1"),
        want(Call::Append(b"a", b"2"), Err(KvFault::Full), b"a=1"),
        want(Call::Append(b"a", b""), Ok(()), b"a=1"),
        want(Call::Store(b"a", b""), Ok(()), b"a="),
        want(Call::Append(b"a", b"2"), Ok(()), b"a=2"),
    ];
    assert_eq!(rt;
        right_over_nothing(rt.alloc(), limits, &steps)?,
        steps.len()
    );
    Ok(())
}

//! What no clause shows: which pages are taken and given, each call with ample memory, and what is corrupt.
ghost use Rattle.std.specs.Prelude.{◌≡◌, ◌≤◌, true, OnOk};

use crate::{append_chain, free_chain, give_page, read_chain, take_page, write_chain};
use std::alloc::Global;
use std::test::Fail;
use uq_page::{ChainFault, Header, MemPages, PAGE_SIZE, Page, Pages};

/// The header of one page.
const ONE: Header = Header {
    version: 0,
    pages: 1,
    buckets: 1,
    free: 0,
    root: 1,
    entries: 0,
    bytes: 0,
};

/// So many bytes, in which a shifted piece shows.
fn pattern(alloc: Global, len: u32) -> Result<Vec<u8>, ChainFault> {
    let mut bytes = Vec::new(alloc);
    for at in 0..len {
        if bytes.push((at % 251) as u8).is_err() {
            return Err(ChainFault::Memory);
        }
    }
    Ok(bytes)
}

/// What became of a chain that was written, made longer, read and freed.
#[derive(Drop)]
struct Lap {
    first: u32,
    written: u32,
    appended: u32,
    read: Vec<u8>,
    freed: Header,
}

fn run_lap<P: Pages>(alloc: Global, p: &mut P, bytes: &[u8], more: &[u8]) -> Result<Lap, ChainFault>
    requires sound { P.is_sound p.old ≡ true }
    requires some { 1 ≤ P.size p.old }
{
    let mut h = ONE;
    let mut read = Vec::new(alloc);
    if bytes.is_empty() || bytes.len() > 1 << 24 || more.len() > 1 << 24 {
        return Err(ChainFault::NoPage);
    }
    let len = bytes.len() as u32;
    let both = len + more.len() as u32;
    let first = write_chain(p, &mut h, bytes)?;
    let written = h.pages;
    append_chain(p, &mut h, first, len, more)?;
    let appended = h.pages;
    read_chain(p, first, both, &mut read)?;
    free_chain(p, &mut h, first, both)?;
    Ok(Lap {
        first,
        written,
        appended,
        read,
        freed: h,
    })
}

#[test]
fn a_chain_has_a_page_for_each_4080_bytes_and_gives_them_back(rt: HostRuntime) -> Result<(), Fail> {
    for (len, more, written, appended) in [
        (1, 1, 2, 2),
        (4079, 1, 2, 2),
        (4079, 2, 2, 3),
        (4080, 1, 2, 3),
        (4081, 4079, 3, 3),
        (8160, 1, 3, 4),
        (8160, (1 << 24) - 8160, 3, 4114),
        (1 << 24, 0, 4114, 4114),
    ] {
        let mut pages = MemPages::new(rt.alloc(), &[])?;
        pages.grow(&Page::zero())?;
        let bytes = pattern(rt.alloc(), len)?;
        let tail = pattern(rt.alloc(), more)?;
        let lap = run_lap(rt.alloc(), &mut pages, &bytes, &tail)?;
        assert!(rt;
            lap.written == written && lap.appended == appended,
            "{len} and {more} bytes"
        );
        assert!(rt; lap.read.len() == bytes.len() + tail.len());
        assert!(rt; lap.read.starts_with(&bytes) && lap.read.ends_with(&tail));
        // A chain is written from its last page on, and no page is taken or given besides.
        assert_eq!(rt;
            (lap.first, lap.freed.pages, pages.count()),
            (written - 1, appended, appended)
        );
    }
    Ok(())
}

/// A chain of two pages goes through all calls, up to a page of it that is taken and given.
fn use_two_pages<P: Pages>(
    p: &mut P,
    h: &mut Header,
    bytes: &[u8],
    read: &mut Vec<u8>,
) -> Result<(u32, u32), ChainFault>
    requires sound { P.is_sound p.old ≡ true }
    requires some { 1 ≤ P.size p.old }
    requires none { h.old.free ≡ 0 }
{
    if bytes.len() != 4081 {
        return Err(ChainFault::NoPage);
    }
    let first = write_chain(p, h, bytes)?;
    append_chain(p, h, first, 4081, b"x")?;
    read_chain(p, first, 4082, read)?;
    free_chain(p, h, first, 4082)?;
    let taken = take_page(p, h)?;
    give_page(p, h, taken)?;
    Ok((first, taken))
}

#[test]
fn a_page_of_a_freed_chain_is_taken_and_free_again(rt: HostRuntime) -> Result<(), Fail> {
    let mut pages = MemPages::new(rt.alloc(), &[])?;
    pages.grow(&Page::zero())?;
    let mut h = ONE;
    let bytes = pattern(rt.alloc(), 4081)?;
    let mut read = Vec::new(rt.alloc());
    // Page 2 was the first of the chain and 1 the last, so 1 was freed last.
    assert_eq!(rt;
        use_two_pages(&mut pages, &mut h, &bytes, &mut read)?,
        (2, 1)
    );
    assert!(rt; read.len() == 4082 && read.starts_with(&bytes) && read.ends_with(b"x"));
    assert_eq!(rt; (h.free, h.pages, pages.count()), (1, 3, 3));
    Ok(())
}

/// Chains of one page and of two are written and freed in turns, and pages taken.
fn take_in_turns<P: Pages>(p: &mut P, two: &[u8]) -> Result<[u32; 8], ChainFault>
    requires sound { P.is_sound p.old ≡ true }
    requires some { 1 ≤ P.size p.old }
{
    if two.len() != 4081 {
        return Err(ChainFault::NoPage);
    }
    let mut h = ONE;
    let a = write_chain(p, &mut h, b"a")?;
    let b = write_chain(p, &mut h, b"b")?;
    let c = write_chain(p, &mut h, b"c")?;
    free_chain(p, &mut h, b, 1)?;
    free_chain(p, &mut h, a, 1)?;
    free_chain(p, &mut h, c, 1)?;
    let d = take_page(p, &mut h)?;
    let e = write_chain(p, &mut h, two)?;
    free_chain(p, &mut h, e, 4081)?;
    let f = take_page(p, &mut h)?;
    let g = take_page(p, &mut h)?;
    let i = take_page(p, &mut h)?;
    Ok([a, b, c, d, e, f, g, i])
}

#[test]
fn the_page_that_was_freed_last_is_taken_first(rt: HostRuntime) -> Result<(), Fail> {
    let mut pages = MemPages::new(rt.alloc(), &[])?;
    pages.grow(&Page::zero())?;
    let two = pattern(rt.alloc(), 4081)?;
    // The list is 3, 1, 2, then 1, 2, then empty.
    assert_eq!(rt; take_in_turns(&mut pages, &two)?, [1, 2, 3, 3, 2, 1, 2, 4]);
    Ok(())
}

/// A page as it is laid out: its mark, the bytes that it holds, the next page, and one more byte that is set.
#[derive(Clone, Copy)]
struct Laid {
    mark: u8,
    held: u16,
    next: u32,
    set: usize,
}

/// A page of a chain.
const fn value(held: u16, next: u32) -> Laid {
    Laid {
        mark: 0x56,
        held,
        next,
        set: 0,
    }
}

/// A free page.
const fn free(next: u32) -> Laid {
    Laid {
        mark: 0x46,
        held: 0,
        next,
        set: 0,
    }
}

/// The same page with one more byte set.
const fn with(laid: Laid, set: usize) -> Laid {
    Laid { set, ..laid }
}

fn page_of(laid: &Laid) -> Page {
    let mut bytes = [0; PAGE_SIZE];
    if laid.set < PAGE_SIZE {
        bytes[laid.set] = 1;
    }
    bytes[0] = laid.mark;
    bytes[2..4].copy_from_slice(&laid.held.to_be_bytes());
    bytes[4..8].copy_from_slice(&laid.next.to_be_bytes());
    Page::from_bytes(bytes)
}

#[derive(Clone, Copy, Debug)]
enum Call {
    Read,
    Append,
    Free,
    Take,
    Write,
}

/// How one call answers over three pages behind that of a header, on the chain of `len` bytes from `first` on
/// and the free list from `head` on. It wants three pages.
fn answer(
    alloc: Global,
    rows: &[Laid; 3],
    call: Call,
    first: u32,
    len: u32,
    head: u32,
) -> Result<Result<(), ChainFault>, Fail>
    requires len { 1 ≤ len }
{
    let mut p = MemPages::new(alloc, &[])?;
    p.grow(&Page::zero())?;
    p.grow(&page_of(&rows[0]))?;
    p.grow(&page_of(&rows[1]))?;
    p.grow(&page_of(&rows[2]))?;
    let mut h = Header {
        free: head,
        pages: 4,
        ..ONE
    };
    let three = [7; 8161];
    let mut into = Vec::new(alloc);
    Ok(match call {
        Call::Read => read_chain(&mut p, first, len, &mut into),
        Call::Append => append_chain(&mut p, &mut h, first, len, &three),
        Call::Free => free_chain(&mut p, &mut h, first, len),
        Call::Take => take_page(&mut p, &mut h).map(|_| ()),
        Call::Write => write_chain(&mut p, &mut h, &three).map(|_| ()),
    })
}

#[test]
fn a_chain_in_another_shape_is_corrupt(rt: HostRuntime) -> Result<(), Fail> {
    let bad = Err(ChainFault::Corrupt);
    for (name, rows, first, len, want) in [
        (
            "a right chain",
            [value(4080, 2), value(1, 0), free(0)],
            1,
            4081,
            Ok(()),
        ),
        (
            "a chain that ends early",
            [value(4080, 0), value(1, 0), free(0)],
            1,
            4081,
            bad,
        ),
        (
            "a page that is not there",
            [value(4080, 4), value(1, 0), free(0)],
            1,
            4081,
            bad,
        ),
        (
            "another mark",
            [value(4080, 3), value(1, 0), free(0)],
            1,
            4081,
            bad,
        ),
        (
            "a page that is not full",
            [value(4079, 2), value(2, 0), free(0)],
            1,
            4081,
            bad,
        ),
        (
            "a last page that holds more",
            [value(4080, 2), value(2, 0), free(0)],
            1,
            4081,
            bad,
        ),
        (
            "a chain that goes on",
            [value(4080, 2), value(1, 3), value(1, 0)],
            1,
            4081,
            bad,
        ),
        ("no byte held", [value(0, 0), free(0), free(0)], 1, 1, bad),
        (
            "more bytes than a page has",
            [value(4081, 0), free(0), free(0)],
            1,
            4081,
            bad,
        ),
        (
            "a byte without a field",
            [with(value(4080, 2), 15), value(1, 0), free(0)],
            1,
            4081,
            bad,
        ),
        (
            "a loop of one page",
            [value(4080, 1), free(0), free(0)],
            1,
            8160,
            bad,
        ),
        (
            "a loop of two pages",
            [value(4080, 2), value(4080, 1), free(0)],
            1,
            12240,
            bad,
        ),
        ("a first page 0", [value(1, 0), free(0), free(0)], 0, 1, bad),
        (
            "a first page that is not there",
            [value(1, 0), free(0), free(0)],
            4,
            1,
            bad,
        ),
        (
            "a length that no chain has",
            [value(4080, 2), value(1, 0), free(0)],
            1,
            u32::MAX,
            bad,
        ),
    ] {
        for call in [Call::Read, Call::Append, Call::Free] {
            let got = answer(rt.alloc(), &rows, call, first, len.max(1), 0)?;
            assert!(rt; got == want, "{name}: {call:?}");
        }
    }
    Ok(())
}

#[test]
fn a_free_list_in_another_shape_is_corrupt(rt: HostRuntime) -> Result<(), Fail> {
    let bad = Err(ChainFault::Corrupt);
    for (name, one, two, head, taken, want) in [
        ("a right list", free(2), free(0), 1, Ok(()), Ok(())),
        (
            "a first page that is not there",
            free(2),
            free(0),
            4,
            bad,
            bad,
        ),
        ("a page that is not there", free(4), free(0), 1, Ok(()), bad),
        ("another mark", value(1, 0), free(0), 1, bad, bad),
        (
            "a byte without a field",
            with(free(2), 1),
            free(0),
            1,
            bad,
            bad,
        ),
        (
            "a last byte without a field",
            with(free(2), 4095),
            free(0),
            1,
            bad,
            bad,
        ),
        ("a loop of one page", free(1), free(0), 1, Ok(()), bad),
        ("a loop of two pages", free(2), free(1), 1, Ok(()), bad),
    ] {
        for (call, want) in [
            (Call::Take, taken),
            (Call::Write, want),
            (Call::Append, want),
        ] {
            let rows = [one, two, value(4080, 0)];
            let got = answer(rt.alloc(), &rows, call, 3, 4080, head)?;
            assert!(rt; got == want, "{name}: {call:?}");
        }
    }
    Ok(())
}

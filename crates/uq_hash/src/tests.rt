//! What no clause shows: each call with ample memory, the bytes of pages, and pages by the rules after many changes.
ghost use Rattle.std.specs.Prelude.{◌≡◌, ◌<◌, ◌≤◌, true, length, IfErr, IfOk, OnOk};
ghost use Rattle.uq_hash.specs.Looks.{len_or_none};

use crate::{
    Look, append_at, before, create, find, first, hash, insert, last, look_for, next_after, remove,
};
use std::alloc::Global;
use std::cmp::Ordering;
use std::test::Fail;
use uq_chain::read_chain;
use uq_page::{
    BucketHead, CELLS_ROOM, CellValue, ChainFault, Header, MOST_INLINE, MemPages, Page, Pages,
    read_bucket, read_cell, read_free, write_bucket,
};

/// The hash of no bytes.
const BASIS: u32 = 2166136261;

/// Where the cells of a page begin, and how many bytes of a cell stand before its key.
const CELLS_AT: usize = 16;

const CELL_HEAD: usize = 6;

/// The sizes of the values that are put: in the cell, and in chains of one page and more.
const SIZES: [usize; 8] = [0, 1, 255, 256, 4080, 4081, 8161, 70_000];

/// A key with its value, as the model keeps it.
#[derive(Drop)]
struct Kept {
    key: Vec<u8>,
    value: Vec<u8>,
}

/// A sequence of numbers that looks random.
#[derive(Drop)]
struct Dice {
    state: u64,
}

impl Dice {
    fn roll(&mut self, below: u64) -> u64 {
        self.state = self
            .state
            .wrapping_mul(6364136223846793005)
            .wrapping_add(1442695040888963407);
        if below == 0 {
            0
        } else {
            (self.state >> 33) % below
        }
    }
}

/// Bytes that tell their places apart.
fn bytes_from(alloc: Global, len: usize, seed: usize) -> Result<Vec<u8>, ChainFault> {
    let mut bytes = Vec::new(alloc);
    for at in 0..len {
        let byte = (at % 251) as u8 ^ (seed % 256) as u8;
        if bytes.push(byte).is_err() {
            return Err(ChainFault::Memory);
        }
    }
    Ok(bytes)
}

/// A key of so many. Two and two have the same hash: that of "costarring" is that of "liquid", and so are
/// those of the two with the same bytes behind.
fn key_of(alloc: Global, id: usize) -> Result<Vec<u8>, ChainFault> {
    let front: &[u8] = if id % 2 == 0 {
        b"liquid"
    } else {
        b"costarring"
    };
    let rest = bytes_from(alloc, 1 + id % 1500 / 7, id / 2)?;
    let mut key = Vec::new(alloc);
    if key.extend_from_slice(front).is_err() || key.extend_from_slice(&rest).is_err() {
        return Err(ChainFault::Memory);
    }
    Ok(key)
}

/// How two keys are walked.
fn walked(a: &[u8], b: &[u8]) -> Ordering {
    let rank = hash(BASIS, a).reverse_bits();
    match rank.cmp(&hash(BASIS, b).reverse_bits()) {
        Ordering::Equal => a.cmp(b),
        unequal => unequal,
    }
}

/// Where a key stands in the model, or else would stand.
fn place(model: &[Kept], key: &[u8]) -> Result<usize, usize>
    ensures there { IfOk result (λ at. at < length model.now) }
    ensures absent { IfErr result (λ at. at ≤ length model.now) }
{
    match model.binary_search_by(|kept| walked(&kept.key, key)) {
        Ok(at) => Ok(at),
        Err(at) => Err(at),
    }
}

fn key_at(model: &[Kept], at: usize) -> Option<&[u8]> {
    model.get(at).map(|kept| kept.key.as_slice())
}

/// Whether a call found this.
fn is_same(found: &Option<Vec<u8>>, want: Option<&[u8]>) -> bool {
    match (found, want) {
        (Some(found), Some(want)) => found.as_slice() == want,
        (None, None) => true,
        _ => false,
    }
}

/// Puts a key. `NoPage`, which no call answers, where a condition of `insert` does not hold.
fn put<P: Pages>(
    alloc: Global,
    p: &mut P,
    h: &mut Header,
    key: &[u8],
    value: &[u8],
) -> Result<bool, ChainFault>
    requires { P.is_sound p.old ≡ true }
    ensures sound { OnOk result (P.is_sound p.new ≡ true) }
    ensures size { P.size p.old ≤ P.size p.new }
{
    if key.is_empty() || key.len() > 3001 || value.len() > 16_777_216 {
        return Err(ChainFault::NoPage);
    }
    if h.entries > 33_554_432 || h.bytes > 2_147_483_648 {
        return Err(ChainFault::NoPage);
    }
    insert(alloc, p, h, key, value)
}

/// Puts a key in the pages and in the model. It answers whether the two agree on whether it was there.
fn put_in_both<P: Pages>(
    alloc: Global,
    p: &mut P,
    h: &mut Header,
    model: &mut Vec<Kept>,
    key: Vec<u8>,
    value: Vec<u8>,
) -> Result<bool, ChainFault>
    requires { P.is_sound p.old ≡ true }
    ensures sound { OnOk result (P.is_sound p.new ≡ true) }
{
    let was_there = put(alloc, p, h, &key, &value)?;
    match place(model, &key) {
        Ok(at) => {
            model[at].value = value;
            Ok(was_there)
        }
        Err(at) => match model.insert(at, Kept { key, value }) {
            Ok(()) => Ok(!was_there),
            Err(_) => Err(ChainFault::Memory),
        },
    }
}

/// How long the value at a place is.
fn old_len(at: &Look<'_>) -> u32
    ensures { result ≡ len_or_none at.now.len }
{
    match at.len() {
        Some(len) => len,
        None => 0,
    }
}

/// Puts bytes behind a value, from the place of its key. `NoPage`, which no call answers, where a condition of
/// `append_at` does not hold.
fn add<P: Pages>(
    alloc: Global,
    p: &mut P,
    h: &mut Header,
    key: &[u8],
    more: &[u8],
) -> Result<bool, ChainFault>
    requires { P.is_sound p.old ≡ true }
    ensures sound { OnOk result (P.is_sound p.new ≡ true) }
    ensures size { P.size p.old ≤ P.size p.new }
{
    if key.is_empty() || key.len() > 3001 {
        return Err(ChainFault::NoPage);
    }
    if h.entries > 33_554_432 || h.bytes > 2_147_483_648 {
        return Err(ChainFault::NoPage);
    }
    let at = look_for(p, h, key)?;
    let old = old_len(&at);
    if old > 16_777_216 || more.len() > 16_777_216 - old as usize {
        return Err(ChainFault::NoPage);
    }
    append_at(alloc, p, h, &at, more)?;
    Ok(at.len().is_some())
}

/// Puts bytes behind a value in both, likewise.
fn add_to_both<P: Pages>(
    alloc: Global,
    p: &mut P,
    h: &mut Header,
    model: &mut Vec<Kept>,
    key: Vec<u8>,
    more: Vec<u8>,
) -> Result<bool, ChainFault>
    requires { P.is_sound p.old ≡ true }
    ensures sound { OnOk result (P.is_sound p.new ≡ true) }
{
    let was_there = add(alloc, p, h, &key, &more)?;
    match place(model, &key) {
        Ok(at) => match model[at].value.extend_from_slice(&more) {
            Ok(()) => Ok(was_there),
            Err(_) => Err(ChainFault::Memory),
        },
        Err(at) => match model.insert(at, Kept { key, value: more }) {
            Ok(()) => Ok(!was_there),
            Err(_) => Err(ChainFault::Memory),
        },
    }
}

/// Takes a key out of both, likewise.
fn take_from_both<P: Pages>(
    alloc: Global,
    p: &mut P,
    h: &mut Header,
    model: &mut Vec<Kept>,
    key: &[u8],
) -> Result<bool, ChainFault>
    requires { P.is_sound p.old ≡ true }
    ensures sound { OnOk result (P.is_sound p.new ≡ true) }
{
    let was_there = remove(alloc, p, h, key)?;
    match place(model, key) {
        Ok(at) => {
            let _gone = model.remove(at);
            Ok(was_there)
        }
        Err(_) => Ok(!was_there),
    }
}

/// Whether a key is found as in the model, and the walk goes on from it as there.
fn looks_alike<P: Pages>(
    alloc: Global,
    p: &mut P,
    h: &Header,
    model: &[Kept],
    key: &[u8],
) -> Result<bool, ChainFault>
    requires { P.is_sound p.old ≡ true }
    ensures sound { OnOk result (P.is_sound p.new ≡ true) }
{
    let found = find(alloc, p, h, key)?;
    let next = next_after(alloc, p, h, key)?;
    let previous = before(alloc, p, h, key)?;
    let front = first(alloc, p, h)?;
    let end = last(alloc, p, h)?;
    let (want, behind, at) = match place(model, key) {
        Ok(at) => (
            model.get(at).map(|kept| kept.value.as_slice()),
            key_at(model, at.saturating_add(1)),
            at,
        ),
        Err(at) => (None, key_at(model, at), at),
    };
    let in_front = match at.checked_sub(1) {
        Some(at) => key_at(model, at),
        None => None,
    };
    let ends = is_same(&front, key_at(model, 0))
        && is_same(&end, model.last().map(|kept| kept.key.as_slice()));
    Ok(ends && is_same(&found, want) && is_same(&next, behind) && is_same(&previous, in_front))
}

/// The cell of an entry as the rules have it. The number of its value's chain is that which stands at byte
/// `at` and on of the page.
fn cell_by_rules(
    alloc: Global,
    kept: &Kept,
    page: &Page,
    at: usize,
) -> Result<Vec<u8>, ChainFault> {
    let mut cell = Vec::new(alloc);
    let number_at = at.saturating_add(CELL_HEAD).saturating_add(kept.key.len());
    let is_inline = kept.value.len() <= MOST_INLINE;
    let mut whole = cell
        .extend_from_slice(&((kept.key.len() % 65536) as u16).to_be_bytes())
        .is_ok()
        && cell
            .extend_from_slice(&((kept.value.len() % 4_294_967_296) as u32).to_be_bytes())
            .is_ok()
        && cell.extend_from_slice(&kept.key).is_ok();
    if is_inline {
        whole = whole && cell.extend_from_slice(&kept.value).is_ok();
    } else {
        // Where the number would go past the page's end it has four bytes all the same: so the cell does not fit.
        for at in 0..4 {
            let byte = page.bytes().get(number_at.saturating_add(at)).copied();
            whole = whole && cell.push(byte.unwrap_or(0)).is_ok();
        }
    }
    if whole {
        Ok(cell)
    } else {
        Err(ChainFault::Memory)
    }
}

/// The cells of the entries from `from` on as far as they fit in a page, and how many those are.
fn cells_by_rules(
    alloc: Global,
    model: &[Kept],
    from: usize,
    page: &Page,
) -> Result<(Vec<u8>, u16), ChainFault> {
    let mut cells = Vec::new(alloc);
    let mut count = 0u16;
    for kept in model.iter().skip(from) {
        let cell = cell_by_rules(alloc, kept, page, CELLS_AT.saturating_add(cells.len()))?;
        if cells.len().saturating_add(cell.len()) > CELLS_ROOM {
            break;
        }
        if cells.extend_from_slice(&cell).is_err() {
            return Err(ChainFault::Memory);
        }
        count = count.saturating_add(1);
    }
    Ok((cells, count))
}

/// Whether the chains that a page's cells name hold the values of the model. It answers how many pages they
/// have.
fn values_pages<P: Pages>(
    alloc: Global,
    p: &mut P,
    model: &[Kept],
    from: usize,
    page: &Page,
    count: u16,
) -> Result<Option<u32>, ChainFault>
    requires { P.is_sound p.old ≡ true }
    ensures sound { OnOk result (P.is_sound p.new ≡ true) }
{
    let mut pages = 0u32;
    let mut at = 16u32;
    for kept in model.iter().skip(from).take(usize::from(count)) {
        let Some(cell) = read_cell(page, at) else {
            return Ok(None);
        };
        let mut size = CELL_HEAD.saturating_add(cell.key.len());
        match cell.value {
            CellValue::Inline(value) => size = size.saturating_add(value.len()),
            CellValue::Chain(number) => {
                let mut value = Vec::new(alloc);
                read_chain(p, number, cell.len, &mut value)?;
                if value.as_slice() != kept.value.as_slice() {
                    return Ok(None);
                }
                pages = pages.saturating_add(cell.len.div_ceil(4080));
                size = size.saturating_add(4);
            }
        }
        at = at.saturating_add((size % 65536) as u32);
    }
    Ok(Some(pages))
}

/// Whether the pages of the bucket are those that the rules give for the model, byte by byte, and the values
/// stand where they should. It answers how many pages all this takes.
fn pages_by_rules<P: Pages>(
    alloc: Global,
    p: &mut P,
    h: &Header,
    model: &[Kept],
) -> Result<Option<u32>, ChainFault>
    requires { P.is_sound p.old ≡ true }
    ensures sound { OnOk result (P.is_sound p.new ≡ true) }
{
    let mut used = 0u32;
    let mut from = 0usize;
    let mut no = h.root;
    for _page in 0..p.count() {
        if no >= p.count() {
            return Ok(None);
        }
        let mut page = Page::zero();
        p.read_page(no, &mut page)?;
        let (cells, count) = cells_by_rules(alloc, model, from, &page)?;
        let Some(values) = values_pages(alloc, p, model, from, &page, count)? else {
            return Ok(None);
        };
        let Some(head) = read_bucket(&page) else {
            return Ok(None);
        };
        let end = CELLS_AT.saturating_add(cells.len());
        let held = page.bytes().iter().skip(CELLS_AT).take(cells.len());
        let is_right = head.cells == count
            && usize::from(head.end) == end
            && held.eq(cells.iter())
            && page.bytes().iter().skip(end).all(|byte| *byte == 0);
        if !is_right || (count == 0 && no != h.root) {
            return Ok(None);
        }
        used = used.saturating_add(1).saturating_add(values);
        from = from.saturating_add(usize::from(count));
        no = head.next;
        if no == 0 {
            return Ok(if from == model.len() {
                Some(used)
            } else {
                None
            });
        }
    }
    Ok(None)
}

/// How many pages the free list has.
fn count_free<P: Pages>(p: &mut P, h: &Header) -> Result<Option<u32>, ChainFault>
    requires { P.is_sound p.old ≡ true }
    ensures sound { OnOk result (P.is_sound p.new ≡ true) }
{
    let mut no = h.free;
    for count in 0..p.count() {
        if no == 0 {
            return Ok(Some(count));
        }
        if no >= p.count() {
            return Ok(None);
        }
        let mut page = Page::zero();
        p.read_page(no, &mut page)?;
        let Some(next) = read_free(&page) else {
            return Ok(None);
        };
        no = next;
    }
    Ok(None)
}

/// Whether all pages are by the rules, and the header has the model's sums.
fn is_by_rules<P: Pages>(
    alloc: Global,
    p: &mut P,
    h: &Header,
    model: &[Kept],
) -> Result<bool, ChainFault>
    requires { P.is_sound p.old ≡ true }
    ensures sound { OnOk result (P.is_sound p.new ≡ true) }
{
    let used = pages_by_rules(alloc, p, h, model)?;
    let free = count_free(p, h)?;
    let mut bytes = 0u64;
    for kept in model {
        bytes = bytes
            .saturating_add(kept.key.len() as u64)
            .saturating_add(kept.value.len() as u64);
    }
    let (Some(used), Some(free)) = (used, free) else {
        return Ok(false);
    };
    Ok(
        h.pages == p.count()
            && used.saturating_add(free).saturating_add(1) == h.pages
            && h.entries == model.len() as u64
            && h.bytes == bytes,
    )
}

/// One change or look-up at random, in both. It answers whether the two agree.
fn step<P: Pages>(
    alloc: Global,
    p: &mut P,
    h: &mut Header,
    model: &mut Vec<Kept>,
    dice: &mut Dice,
    keys: u64,
) -> Result<bool, ChainFault>
    requires { P.is_sound p.old ≡ true }
    ensures sound { OnOk result (P.is_sound p.new ≡ true) }
{
    let key = key_of(alloc, dice.roll(keys) as usize)?;
    match dice.roll(10) {
        8 | 9 => {
            let size = SIZES[dice.roll(7) as usize % 8];
            let more = bytes_from(alloc, size, dice.roll(256) as usize)?;
            add_to_both(alloc, p, h, model, key, more)
        }
        0 | 1 | 2 => {
            // The longest comes once where each other one comes four times.
            let size = SIZES[dice.roll(29) as usize / 4 % 8];
            let value = bytes_from(alloc, size, dice.roll(256) as usize)?;
            put_in_both(alloc, p, h, model, key, value)
        }
        3 => {
            let size = dice.roll(64) as usize;
            let value = bytes_from(alloc, size, size)?;
            put_in_both(alloc, p, h, model, key, value)
        }
        4 | 5 => take_from_both(alloc, p, h, model, &key),
        _ => looks_alike(alloc, p, h, model, &key),
    }
}

/// So many steps. It answers the first at which pages and model do not agree; each hundredth looks at all pages.
fn first_disagreement<P: Pages>(
    alloc: Global,
    p: &mut P,
    seed: u64,
    keys: u64,
    steps: u32,
) -> Result<Option<u32>, ChainFault>
    requires sound { P.is_sound p.old ≡ true }
    requires empty { P.size p.old ≡ 0 }
{
    let mut h = create(p)?;
    let mut model = Vec::new(alloc);
    let mut dice = Dice { state: seed };
    for at in 0..steps {
        let agree = step(alloc, p, &mut h, &mut model, &mut dice, keys)?;
        if !agree || (at % 100 == 99 && !is_by_rules(alloc, p, &h, &model)?) {
            return Ok(Some(at));
        }
    }
    Ok(None)
}

#[test]
fn the_hash_is_fnv_1a_of_32_bits(rt: HostRuntime) {
    for (start, text, want) in [
        (BASIS, "", 0x811c9dc5),
        (BASIS, "a", 0xe40c292c),
        (BASIS, "foobar", 0xbf9cf968),
        (BASIS, "Ka", 0x47eee3f1),
        (BASIS, "Kb", 0x44eedf38),
        (BASIS, "Kc", 0x45eee0cb),
        (BASIS, "costarring", 0x5e4daa9d),
        (BASIS, "liquid", 0x5e4daa9d),
        (BASIS ^ 1, "Ka", 0x6bf15b34),
    ] {
        assert_eq!(rt;
            hash(start, text.as_bytes()),
            want,
            "the hash of {text} from {start}"
        );
    }
}

#[test]
fn each_call_answers_over_one_key(rt: HostRuntime) -> Result<(), Fail> {
    let alloc = rt.alloc();
    let mut p = MemPages::new(alloc, &[])?;
    let mut h = create(&mut p)?;
    let was_there = put(alloc, &mut p, &mut h, b"Ka", b"1")?;
    let found = find(alloc, &mut p, &h, b"Ka")?;
    let front = first(alloc, &mut p, &h)?;
    let end = last(alloc, &mut p, &h)?;
    let next = next_after(alloc, &mut p, &h, b"Ka")?;
    let previous = before(alloc, &mut p, &h, b"Ka")?;
    let is_gone = remove(alloc, &mut p, &mut h, b"Ka")?;
    let empty = first(alloc, &mut p, &h)?;
    assert!(rt; !was_there && is_same(&found, Some(b"1")));
    assert!(rt; is_same(&front, Some(b"Ka")) && is_same(&end, Some(b"Ka")));
    assert!(rt; next.is_none() && previous.is_none());
    assert!(rt; is_gone && empty.is_none());
    Ok(())
}

/// The page of a bucket with three keys, of which one was put twice.
fn page_of_three<P: Pages>(alloc: Global, p: &mut P) -> Result<Page, ChainFault>
    requires sound { P.is_sound p.old ≡ true }
    requires empty { P.size p.old ≡ 0 }
{
    let mut h = create(p)?;
    put(alloc, p, &mut h, b"Kb", b"22")?;
    put(alloc, p, &mut h, b"Ka", b"1")?;
    put(alloc, p, &mut h, b"Kc", b"")?;
    put(alloc, p, &mut h, b"Ka", &[0x33; 256])?;
    let mut page = Page::zero();
    p.read_page(1, &mut page)?;
    Ok(page)
}

#[test]
fn cells_stand_in_walk_order(rt: HostRuntime) -> Result<(), Fail> {
    let mut p = MemPages::new(rt.alloc(), &[])?;
    let page = page_of_three(rt.alloc(), &mut p)?;
    assert_eq!(
        rt;
        page.bytes()[..47],
        [
            0x42, 0, 0, 3, 0, 0, 0, 0, 0, 46, 0, 0, 0, 0, 0, 0, // three cells up to byte 46
            0, 2, 0, 0, 0, 2, 0x4b, 0x62, 0x32, 0x32, // Kb
            0, 2, 0, 0, 1, 0, 0x4b, 0x61, 0, 0, 0, 2, // Ka, its value in the chain from page 2 on
            0, 2, 0, 0, 0, 0, 0x4b, 0x63, 0, // Kc, and the first zero behind
        ][..]
    );
    Ok(())
}

#[test]
fn random_changes_leave_the_pages_that_the_rules_have(rt: HostRuntime) -> Result<(), Fail> {
    for (seed, keys, steps) in [(1u64, 12u64, 600u32), (2, 90, 900), (3, 300, 1500)] {
        let mut p = MemPages::new(rt.alloc(), &[])?;
        let wrong = first_disagreement(rt.alloc(), &mut p, seed, keys, steps)?;
        assert_eq!(rt; wrong, None, "the first step of {seed}");
    }
    Ok(())
}

/// Calls of each kind, over pages of which some may fail.
fn calls_in_turn<P: Pages>(alloc: Global, p: &mut P) -> Result<(), ChainFault>
    requires sound { P.is_sound p.old ≡ true }
    requires empty { P.size p.old ≡ 0 }
{
    let mut h = create(p)?;
    let long = [7; 5000];
    for id in 0..16 {
        let key = key_of(alloc, id * 61)?;
        let len = id % 4 * 1500 + id;
        put(alloc, p, &mut h, &key, &long[..len])?;
    }
    for id in 0..16 {
        let key = key_of(alloc, id * 61)?;
        find(alloc, p, &h, &key)?;
        next_after(alloc, p, &h, &key)?;
        before(alloc, p, &h, &key)?;
        if id % 2 == 0 {
            put(alloc, p, &mut h, &key, &long[..300])?;
        } else {
            remove(alloc, p, &mut h, &key)?;
        }
        first(alloc, p, &h)?;
        last(alloc, p, &h)?;
    }
    Ok(())
}

#[test]
fn each_page_call_that_fails_is_answered_by_failed(rt: HostRuntime) -> Result<(), Fail> {
    let mut failed = 0;
    for call in 1..5000u64 {
        let mut p = MemPages::new(rt.alloc(), &[call])?;
        match calls_in_turn(rt.alloc(), &mut p) {
            Ok(()) => break,
            Err(fault) => assert!(rt; fault == ChainFault::Failed, "call {call}"),
        }
        failed = call;
    }
    assert!(rt; 100 < failed && failed < 4999, "{failed} calls failed");
    Ok(())
}

#[derive(Clone, Copy, Debug)]
enum Call {
    Find,
    First,
    Last,
    NextAfter,
    Before,
    Insert,
    Remove,
}

/// A call over a bucket of no cell that names itself as its next page.
fn answer_over_loop<P: Pages>(alloc: Global, p: &mut P, call: Call) -> Result<(), ChainFault>
    requires sound { P.is_sound p.old ≡ true }
    requires empty { P.size p.old ≡ 0 }
{
    let mut h = create(p)?;
    let mut page = Page::zero();
    let head = BucketHead {
        cells: 0,
        next: 1,
        end: 16,
    };
    write_bucket(&head, &mut page);
    p.write_page(1, &page)?;
    match call {
        Call::Find => find(alloc, p, &h, b"Ka").map(|_| ()),
        Call::First => first(alloc, p, &h).map(|_| ()),
        Call::Last => last(alloc, p, &h).map(|_| ()),
        Call::NextAfter => next_after(alloc, p, &h, b"Ka").map(|_| ()),
        Call::Before => before(alloc, p, &h, b"Ka").map(|_| ()),
        Call::Insert => put(alloc, p, &mut h, b"Ka", b"1").map(|_| ()),
        Call::Remove => remove(alloc, p, &mut h, b"Ka").map(|_| ()),
    }
}

#[test]
fn a_bucket_that_comes_back_to_itself_is_corrupt(rt: HostRuntime) -> Result<(), Fail> {
    for call in [
        Call::Find,
        Call::First,
        Call::Last,
        Call::NextAfter,
        Call::Before,
        Call::Insert,
        Call::Remove,
    ] {
        let mut p = MemPages::new(rt.alloc(), &[])?;
        let answer = answer_over_loop(rt.alloc(), &mut p, call);
        assert_eq!(rt; answer, Err(ChainFault::Corrupt), "{call:?}");
    }
    Ok(())
}

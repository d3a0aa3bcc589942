//! An entry in the pages, whoever keeps them.
ghost use Rattle.std.specs.Prelude.{◌≡◌, ◌+◌, ◌≤◌, ◌<◌, ◌^◌, ℕ, List, true, false, length, Ok, IfNone, IfOk, OnOk, IfSome, IsSome};
ghost use Rattle.std.specs.Option.{option_map};
ghost use Rattle.std.specs.FinMap.{get, insert};
ghost use Rattle.uq_facts.specs.Causes.{UnlessErr};
ghost use Rattle.uq_page.specs.Header.{IsInUse};
ghost use Rattle.uq_page.specs.Pages.{HasPagesCause};
ghost use Rattle.uq_model.specs.Full.{is_full};
ghost use Rattle.uq_hash.specs.Looks.{len_or_none};
ghost use Rattle.uq_kv.specs.Database.{WhereKept, WhereStored};
ghost use Rattle.uq_kv.specs.Stored.{IsWithinLimits, Stored, stored_key};
ghost use Rattle.uq_kv.specs.Writing.{Adds, AreAfter, HasHead, HasStoreCause, HoldsNow, IsBefore, IsSeen, Puts, Removes, added, len_seen, sums_in};

use crate::space::stored_key;
use crate::{MOST_KEY, MOST_VALUE, Space};
use std::alloc::Global;
use uq_hash::{
    Look, apart_from_header, append_at, create, find, insert, insert_at, look_for, remove_at,
    sums_of_insert, sums_of_remove,
};
use uq_model::{Limits, MOST_BYTES, MOST_ENTRIES};
use uq_page::{ChainFault, Header, Page, Pages, PagesFault, write_header};

/// Whether an entry was put in.
#[derive(Clone, Copy, Debug, PartialEq, Eq)]
pub(crate) enum Put {
    Done,
    /// The write is too much, and changed nothing.
    Full,
}

/// The data of a stored key, where it is there.
pub(crate) fn find_stored<P: Pages>(
    alloc: Global,
    p: &mut P,
    header: &Header,
    stored: &[u8],
) -> Result<Option<Vec<u8>>, ChainFault>
    requires { P.is_sound p.old ≡ true }
    ensures found { IfOk result (λ found. WhereStored (P.pages p.old) header.now (λ entries.
        option_map (λ value. value.items) found ≡ get entries stored.now)) }
    ensures reads { P.only_reads p.old p.new }
    ensures same { UnlessErr ChainFault.Failed result (P.pages p.new ≡ P.pages p.old) }
    ensures cause { HasStoreCause (P.pages p.old) header.now (P.faults p.old) (P.faults p.new) (P.is_sound p.new) result }
{
    if p.count() == 0 {
        return Ok(None);
    }
    find(alloc, p, header, stored)
}

/// The data of a key, where it is there.
pub(crate) fn look_up<P: Pages>(
    alloc: Global,
    p: &mut P,
    header: &Header,
    space: Space,
    key: &[u8],
) -> Result<Option<Vec<u8>>, ChainFault>
    requires { P.is_sound p.old ≡ true }
    ensures found { IfOk result (λ found. WhereStored (P.pages p.old) header.now (λ stored.
        option_map (λ value. value.items) found ≡ get stored (stored_key space key.now))) }
    ensures reads { P.only_reads p.old p.new }
    ensures same { UnlessErr ChainFault.Failed result (P.pages p.new ≡ P.pages p.old) }
    ensures cause { HasStoreCause (P.pages p.old) header.now (P.faults p.old) (P.faults p.new) (P.is_sound p.new) result }
{
    match stored_key(alloc, space, key) {
        Ok(stored) => find_stored(alloc, p, header, &stored),
        Err(_) => Err(ChainFault::Memory),
    }
}

/// How many entries a map has, and the bytes of its stored keys and data.
#[derive(Clone, Copy, Debug, PartialEq, Eq)]
pub(crate) struct Totals {
    pub(crate) entries: u64,
    pub(crate) bytes: u64,
}

/// What there is before the first write.
const NOTHING: Before = Before {
    totals: Totals {
        entries: 0,
        bytes: 0,
    },
    old_len: None,
};

/// What there is before a write: the totals, and how long the data of the key are, where it is there.
#[derive(Clone, Copy, Debug, PartialEq, Eq)]
pub(crate) struct Before {
    pub(crate) totals: Totals,
    pub(crate) old_len: Option<usize>,
}

/// A key that is about to be written: what there is before, and where its place is.
#[derive(Clone, Copy)]
pub(crate) struct Seen<'k> {
    pub(crate) before: Before,
    /// The place, where there are pages.
    pub(crate) at: Option<Look<'k>>,
}

// What there is before a write of this stored key. Its bucket is searched here, and not again by the write.
fn examine<'k, P: Pages>(
    p: &mut P,
    header: &Header,
    stored: &'k [u8],
) -> Result<Seen<'k>, ChainFault>
    requires { P.is_sound p.old ≡ true }
    ensures before { IfOk result (λ seen. WhereKept (P.pages p.old) header.now (λ it. IsBefore it stored.now seen.before)) }
    ensures entries { IfOk result (λ seen. 1 ≤ P.size p.old → seen.before.totals.entries ≡ header.now.entries) }
    ensures bytes { IfOk result (λ seen. 1 ≤ P.size p.old → seen.before.totals.bytes ≡ header.now.bytes) }
    ensures place { IfOk result (IsSeen (P.pages p.new) (P.size p.new) header.now stored.now) }
    ensures reads { P.only_reads p.old p.new }
    ensures size { P.size p.new ≡ P.size p.old }
    ensures same { UnlessErr ChainFault.Failed result (P.pages p.new ≡ P.pages p.old) }
    ensures cause { HasStoreCause (P.pages p.old) header.now (P.faults p.old) (P.faults p.new) (P.is_sound p.new) result }
{
    if p.count() == 0 {
        return Ok(Seen {
            before: NOTHING,
            at: None,
        });
    }
    let at = look_for(p, header, stored)?;
    let before = Before {
        totals: Totals {
            entries: header.entries,
            bytes: header.bytes,
        },
        old_len: at.len().map(|len| len as usize),
    };
    Ok(Seen {
        before,
        at: Some(at),
    })
}

// The totals after a write of a stored key and data of these lengths. `None` where the old ones are those of no store.
fn totals_after(before: &Before, key_len: usize, value_len: usize) -> Option<Totals>
    requires key { key_len ≤ MOST_KEY + 1 }
    requires value { value_len ≤ MOST_VALUE }
    ensures low { IfSome result (λ after. (before.now.totals.entries ≤ MOST_ENTRIES) × (before.now.totals.bytes ≤ MOST_BYTES)) }
    ensures after { (it : Stored) (key value : List ℕ) → key_len ≡ length key → value_len ≡ length value → IsBefore it key before.now
        → IfSome result (AreAfter it key value) }
    ensures some { (it : Stored) (key : List ℕ) → IsWithinLimits it → IsBefore it key before.now → IsSome result }
{
    sums_of_insert();
    let Totals { entries, bytes } = before.totals;
    if entries > MOST_ENTRIES || bytes > MOST_BYTES {
        return None;
    }
    match before.old_len {
        Some(old_len) => Some(Totals {
            entries,
            bytes: bytes.checked_sub(old_len as u64)? + value_len as u64,
        }),
        None => Some(Totals {
            entries: entries + 1,
            bytes: bytes + (key_len + value_len) as u64,
        }),
    }
}

// Whether the totals are more than before and more than their limits.
fn is_over(limits: &Limits, before: &Totals, after: &Totals) -> bool
    ensures { result ≡ is_full limits.now (sums_in before.now) (sums_in after.now) }
{
    (after.entries > before.entries && after.entries > limits.entries)
        || (after.bytes > before.bytes && after.bytes > limits.bytes)
}

// How long the data are, with none as long as no byte.
fn len_before(before: &Before) -> usize
    ensures { result ≡ len_or_none before.now.old_len }
{
    match before.old_len {
        Some(len) => len,
        None => 0,
    }
}

// How long data are with so many bytes more. `None` where they would be too long.
fn longer_len(len: usize, more: usize) -> Option<usize>
    ensures some { IfSome result (λ now. (now ≡ len + more) × (now ≤ MOST_VALUE)) }
    ensures none { IfNone result (MOST_VALUE < len + more) }
{
    let now = len.checked_add(more)?;
    if now > MOST_VALUE {
        return None;
    }
    Some(now)
}

// Puts the header on its page.
fn write_head<P: Pages>(p: &mut P, header: &Header) -> Result<(), PagesFault>
    requires sound { P.is_sound p.old ≡ true }
    requires some { 1 ≤ P.size p.old }
    requires in_use { IsInUse header.now }
    ensures written { OnOk result (HasHead (P.pages p.old) (P.pages p.new) header.now) }
    ensures keeps { P.keeps p.old p.new }
    ensures cause { HasPagesCause PagesFault.Failed (P.faults p.old) (P.faults p.new) (P.is_sound p.new) result }
{
    let mut head = Page::zero();
    write_header(header, &mut head);
    p.write_page(0, &head)
}

// Puts an entry in that is not too much, into the pages that there are, or else into the first ones.
fn put_entry<P: Pages>(
    alloc: Global,
    p: &mut P,
    header: &Header,
    seen: &Seen<'_>,
    key: &[u8],
    value: &[u8],
) -> Result<Header, ChainFault>
    requires sound { P.is_sound p.old ≡ true }
    requires seen { IsSeen (P.pages p.old) (P.size p.old) header.now key.now seen.now }
    requires key { 1 ≤ length key.now }
    requires key_end { length key.now ≤ 3001 }
    requires value { length value.now ≤ MOST_VALUE }
    requires in_use { IsInUse header.now }
    requires entries { 1 ≤ P.size p.old → header.now.entries ≤ 2 ^ 25 }
    requires bytes { 1 ≤ P.size p.old → header.now.bytes ≤ 2 ^ 31 }
    ensures in_use { IfOk result IsInUse }
    ensures some { OnOk result (1 ≤ P.size p.new) }
    ensures put { IfOk result (λ new. WhereKept (P.pages p.old) header.now (λ stored. HoldsNow (P.pages p.new) new (insert stored key.now value.now))) }
    ensures keeps { P.keeps p.old p.new }
    ensures cause { HasStoreCause (P.pages p.old) header.now (P.faults p.old) (P.faults p.new) (P.is_sound p.new) result }
{
    match &seen.at {
        Some(at) => {
            let mut new = *header;
            insert_at(alloc, p, &mut new, at, value)?;
            Ok(new)
        }
        None => {
            let mut new = create(p)?;
            insert(alloc, p, &mut new, key, value)?;
            Ok(new)
        }
    }
}

// Puts bytes behind the data of a key that are not too much, as `put_entry`.
fn add_entry<P: Pages>(
    alloc: Global,
    p: &mut P,
    header: &Header,
    seen: &Seen<'_>,
    key: &[u8],
    more: &[u8],
) -> Result<Header, ChainFault>
    requires sound { P.is_sound p.old ≡ true }
    requires seen { IsSeen (P.pages p.old) (P.size p.old) header.now key.now seen.now }
    requires key { 1 ≤ length key.now }
    requires key_end { length key.now ≤ 3001 }
    requires value { len_seen seen.now + length more.now ≤ MOST_VALUE }
    requires in_use { IsInUse header.now }
    requires entries { 1 ≤ P.size p.old → header.now.entries ≤ 2 ^ 25 }
    requires bytes { 1 ≤ P.size p.old → header.now.bytes ≤ 2 ^ 31 }
    ensures in_use { IfOk result IsInUse }
    ensures some { OnOk result (1 ≤ P.size p.new) }
    ensures added { IfOk result (λ new. WhereKept (P.pages p.old) header.now (λ stored. HoldsNow (P.pages p.new) new (added stored key.now more.now))) }
    ensures keeps { P.keeps p.old p.new }
    ensures cause { HasStoreCause (P.pages p.old) header.now (P.faults p.old) (P.faults p.new) (P.is_sound p.new) result }
{
    match &seen.at {
        Some(at) => {
            let mut new = *header;
            append_at(alloc, p, &mut new, at, more)?;
            Ok(new)
        }
        None => {
            let mut new = create(p)?;
            insert(alloc, p, &mut new, key, more)?;
            Ok(new)
        }
    }
}

/// Puts the entry in, where it is not too much, and its header on page 0. Any other answer leaves `header`.
pub(crate) fn write<P: Pages>(
    alloc: Global,
    p: &mut P,
    header: &mut Header,
    limits: &Limits,
    space: Space,
    key: &[u8],
    value: &[u8],
) -> Result<Put, ChainFault>
    requires sound { P.is_sound p.old ≡ true }
    requires key { length key.now ≤ MOST_KEY }
    requires value { length value.now ≤ MOST_VALUE }
    requires entries { limits.now.entries ≤ MOST_ENTRIES }
    requires bytes { limits.now.bytes ≤ MOST_BYTES }
    requires in_use { IsInUse header.old }
    ensures in_use { IsInUse header.new }
    ensures puts { IfOk result (λ put. WhereStored (P.pages p.old) header.old (λ stored.
        Puts limits.now space key.now value.now stored (P.pages p.new) header.new put)) }
    ensures full { result ≡ Ok Put.Full → (P.only_reads p.old p.new) × (P.pages p.new ≡ P.pages p.old) × (header.new ≡ header.old) }
    ensures keeps { P.keeps p.old p.new }
    ensures cause { HasStoreCause (P.pages p.old) header.old (P.faults p.old) (P.faults p.new) (P.is_sound p.new) result }
{
    let Ok(stored) = stored_key(alloc, space, key) else {
        return Err(ChainFault::Memory);
    };
    let seen = examine(p, header, &stored)?;
    let Some(after) = totals_after(&seen.before, stored.len(), value.len()) else {
        return Err(ChainFault::Corrupt);
    };
    if is_over(limits, &seen.before.totals, &after) {
        return Ok(Put::Full);
    }
    let new = put_entry(alloc, p, header, &seen, &stored, value)?;
    write_head(p, &new)?;
    apart_from_header();
    *header = new;
    Ok(Put::Done)
}

/// Whether bytes were put behind the data of a key.
#[derive(Clone, Copy, Debug, PartialEq, Eq)]
pub(crate) enum Added {
    Done,
    /// The data would be too long, and nothing was changed.
    TooLong,
    /// The write is too much, and changed nothing.
    Full,
}

/// Puts bytes behind the data of a key, where these are not too long then and it is not too much, and the
/// header on page 0. Any other answer leaves `header`.
pub(crate) fn append<P: Pages>(
    alloc: Global,
    p: &mut P,
    header: &mut Header,
    limits: &Limits,
    space: Space,
    key: &[u8],
    more: &[u8],
) -> Result<Added, ChainFault>
    requires sound { P.is_sound p.old ≡ true }
    requires key { length key.now ≤ MOST_KEY }
    requires entries { limits.now.entries ≤ MOST_ENTRIES }
    requires bytes { limits.now.bytes ≤ MOST_BYTES }
    requires in_use { IsInUse header.old }
    ensures in_use { IsInUse header.new }
    ensures adds { IfOk result (λ added. WhereStored (P.pages p.old) header.old (λ stored.
        Adds limits.now space key.now more.now stored (P.pages p.new) header.new added)) }
    ensures long { IfOk result (λ added. MOST_VALUE < length more.now → added ≡ Added.TooLong) }
    ensures same { IfOk result (λ added. (added ≡ Added.Done → ⊥) → (P.only_reads p.old p.new) × (P.pages p.new ≡ P.pages p.old) × (header.new ≡ header.old)) }
    ensures keeps { P.keeps p.old p.new }
    ensures cause { HasStoreCause (P.pages p.old) header.old (P.faults p.old) (P.faults p.new) (P.is_sound p.new) result }
{
    let Ok(stored) = stored_key(alloc, space, key) else {
        return Err(ChainFault::Memory);
    };
    let seen = examine(p, header, &stored)?;
    let Some(len) = longer_len(len_before(&seen.before), more.len()) else {
        return Ok(Added::TooLong);
    };
    let Some(after) = totals_after(&seen.before, stored.len(), len) else {
        return Err(ChainFault::Corrupt);
    };
    if is_over(limits, &seen.before.totals, &after) {
        return Ok(Added::Full);
    }
    let new = add_entry(alloc, p, header, &seen, &stored, more)?;
    write_head(p, &new)?;
    apart_from_header();
    *header = new;
    Ok(Added::Done)
}

/// Takes the entry of a stored key out, and puts the header on page 0. Answers whether the key was there. Any
/// other answer leaves `header`.
pub(crate) fn remove<P: Pages>(
    alloc: Global,
    p: &mut P,
    header: &mut Header,
    stored: &[u8],
) -> Result<bool, ChainFault>
    requires sound { P.is_sound p.old ≡ true }
    requires in_use { IsInUse header.old }
    ensures in_use { IsInUse header.new }
    ensures removes { IfOk result (λ there. WhereStored (P.pages p.old) header.old (λ entries.
        Removes stored.now entries (P.pages p.new) header.new there)) }
    ensures same { result ≡ Ok false → (P.only_reads p.old p.new) × (P.pages p.new ≡ P.pages p.old) × (header.new ≡ header.old) }
    ensures keeps { P.keeps p.old p.new }
    ensures cause { HasStoreCause (P.pages p.old) header.old (P.faults p.old) (P.faults p.new) (P.is_sound p.new) result }
{
    if p.count() == 0 {
        return Ok(false);
    }
    let at = look_for(p, header, stored)?;
    let Some(_len) = at.len() else {
        return Ok(false);
    };
    let mut new = *header;
    remove_at(alloc, p, &mut new, &at)?;
    write_head(p, &new)?;
    apart_from_header();
    sums_of_remove();
    *header = new;
    Ok(true)
}

/// Takes the entry of a key out, as `remove`.
pub(crate) fn remove_key<P: Pages>(
    alloc: Global,
    p: &mut P,
    header: &mut Header,
    space: Space,
    key: &[u8],
) -> Result<bool, ChainFault>
    requires sound { P.is_sound p.old ≡ true }
    requires in_use { IsInUse header.old }
    ensures in_use { IsInUse header.new }
    ensures removes { IfOk result (λ there. WhereStored (P.pages p.old) header.old (λ entries.
        Removes (stored_key space key.now) entries (P.pages p.new) header.new there)) }
    ensures same { result ≡ Ok false → (P.only_reads p.old p.new) × (P.pages p.new ≡ P.pages p.old) × (header.new ≡ header.old) }
    ensures keeps { P.keeps p.old p.new }
    ensures cause { HasStoreCause (P.pages p.old) header.old (P.faults p.old) (P.faults p.new) (P.is_sound p.new) result }
{
    match stored_key(alloc, space, key) {
        Ok(stored) => remove(alloc, p, header, &stored),
        Err(_) => Err(ChainFault::Memory),
    }
}

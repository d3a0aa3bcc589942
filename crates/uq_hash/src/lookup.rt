//! The value of a key.
ghost use Rattle.std.specs.Prelude.{◌≡◌, ◌+◌, ◌≤◌, ◌<◌, true, length, map, IfOk, Some};
ghost use Rattle.std.specs.Option.{option_map};
ghost use Rattle.std.specs.FinMap as finmap;
ghost use Rattle.std.specs.FinMap.Entries.{find as found_in};
ghost use Rattle.std.specs.Int.{w32, to_be_bytes};
ghost use Rattle.uq_facts.specs.Causes.{UnlessErr};
ghost use Rattle.uq_page.specs.Cell.{kept_bytes, IsKept};
ghost use Rattle.uq_page.specs.declared.layout.TheConstants.{MOST_INLINE};
ghost use Rattle.uq_chain.specs.Chain.{pages_for};
ghost use Rattle.uq_chain.specs.Causes.{HasChainCause};
ghost use Rattle.uq_hash.specs.Bucket.{NoBucket, WhereChained};
ghost use Rattle.uq_hash.specs.Causes.{HasMapCause};
ghost use Rattle.uq_hash.specs.Looked.{NoValue, WhereEntry};
ghost use Rattle.uq_hash.specs.Map.{AsksFew, WhereHeld, chain_pages, entry};
ghost use Rattle.uq_hash.specs.WalkOrder.{hash_start, walk_cmp};

use crate::directory::first_page;
use crate::searching::{Standing, key_cell, search};
use crate::seeking::Bound;
use std::alloc::Global;
use uq_chain::read_chain;
use uq_page::{CellValue, ChainFault, Header, Pages};

/// The value of a cell from its chain.
fn read_long<P: Pages>(
    alloc: Global,
    p: &mut P,
    len: u32,
    first: u32,
) -> Result<Vec<u8>, ChainFault>
    requires sound { P.is_sound p.old ≡ true }
    requires long { MOST_INLINE < len }
    ensures read { IfOk result (λ value. WhereEntry (P.pages p.old) len (to_be_bytes w32 first) (λ pages it. value.items ≡ it.value)) }
    ensures same { UnlessErr ChainFault.Failed result (P.pages p.new ≡ P.pages p.old) }
    ensures size { P.size p.new ≡ P.size p.old }
    ensures asked { P.asked p.new ≤ P.asked p.old + pages_for len }
    ensures reads { P.only_reads p.old p.new }
    ensures cause { HasChainCause (NoValue (P.pages p.old) len (to_be_bytes w32 first)) ⊥ (P.faults p.old) (P.faults p.new) (P.is_sound p.new) result }
{
    let mut bytes = Vec::new(alloc);
    read_chain(p, first, len, &mut bytes)?;
    Ok(bytes)
}

/// The value of a cell, from the cell or from its chain.
fn read_value<P: Pages>(
    alloc: Global,
    p: &mut P,
    len: u32,
    value: CellValue<'_>,
) -> Result<Vec<u8>, ChainFault>
    requires sound { P.is_sound p.old ≡ true }
    requires kept { IsKept len value }
    ensures read { IfOk result (λ found. WhereEntry (P.pages p.old) len (kept_bytes value.entry) (λ pages it. found.items ≡ it.value)) }
    ensures same { UnlessErr ChainFault.Failed result (P.pages p.new ≡ P.pages p.old) }
    ensures size { P.size p.new ≡ P.size p.old }
    ensures asked { WhereEntry (P.pages p.old) len (kept_bytes value.entry) (λ pages it. P.asked p.new ≤ P.asked p.old + chain_pages (Some it.value)) }
    ensures reads { P.only_reads p.old p.new }
    ensures cause { HasChainCause (NoValue (P.pages p.old) len (kept_bytes value.entry)) ⊥ (P.faults p.old) (P.faults p.new) (P.is_sound p.new) result }
{
    match value {
        CellValue::Inline(value) => match Vec::from_slice(alloc, value) {
            Ok(value) => Ok(value),
            Err(_) => Err(ChainFault::Memory),
        },
        CellValue::Chain(first) => read_long(alloc, p, len, first),
    }
}

/// The value of a key in the bucket that begins at page `first`.
fn find_in<P: Pages>(
    alloc: Global,
    p: &mut P,
    h: &Header,
    first: u32,
    key: &[u8],
) -> Result<Option<Vec<u8>>, ChainFault>
    requires { P.is_sound p.old ≡ true }
    ensures found { IfOk result (λ found. WhereChained (hash_start h.now) (P.pages p.old) first (λ pages row cells.
        option_map (λ value. value.items) found ≡ found_in (walk_cmp (hash_start h.now)) key.now (map entry cells))) }
    ensures same { UnlessErr ChainFault.Failed result (P.pages p.new ≡ P.pages p.old) }
    ensures size { P.size p.new ≡ P.size p.old }
    ensures asked { WhereChained (hash_start h.now) (P.pages p.old) first (λ pages row cells.
        P.asked p.new ≤ P.asked p.old + length row + chain_pages (found_in (walk_cmp (hash_start h.now)) key.now (map entry cells))) }
    ensures reads { P.only_reads p.old p.new }
    ensures cause { HasChainCause (NoBucket (hash_start h.now) (P.pages p.old) first) ⊥ (P.faults p.old) (P.faults p.new) (P.is_sound p.new) result }
{
    let place = search(p, h, first, Bound::Before(key))?;
    match key_cell(&place, key).ok_or(ChainFault::Corrupt)? {
        Standing::Cell(cell) => Ok(Some(read_value(alloc, p, cell.len, cell.value)?)),
        Standing::Nothing => Ok(None),
    }
}

/// The value of a key, where the key is there.
///
/// Where the pages hold a map with `h`, it is the map's. Where they hold none, the answer is `Corrupt` or
/// some value. Over a map at most three pages are asked for besides the bucket's and the value's.
pub fn find<P: Pages>(
    alloc: Global,
    p: &mut P,
    h: &Header,
    key: &[u8],
) -> Result<Option<Vec<u8>>, ChainFault>
    requires { P.is_sound p.old ≡ true }
    ensures found { IfOk result (λ found. WhereHeld (P.pages p.old) h.now (λ m. option_map (λ value. value.items) found ≡ finmap.get m key.now)) }
    ensures same { UnlessErr ChainFault.Failed result (P.pages p.new ≡ P.pages p.old) }
    ensures size { P.size p.new ≡ P.size p.old }
    ensures asked { AsksFew (P.pages p.old) h.now key.now (P.asked p.old) (P.asked p.new) }
    ensures reads { P.only_reads p.old p.new }
    ensures cause { HasMapCause (P.pages p.old) h.now (P.faults p.old) (P.faults p.new) (P.is_sound p.new) result }
{
    let first = first_page(p, h, key)?;
    find_in(alloc, p, h, first, key)
}

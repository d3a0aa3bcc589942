//! Bytes put behind the value of a key.
ghost use Rattle.std.specs.Prelude.{◌≡◌, ◌+◌, ◌≤◌, ◌<◌, ◌^◌, ◌∷◌, ◌++◌, ℕ, List, true, length, OnOk, IfOk, IfSome, IsSomeAnd, is_some};
ghost use Rattle.std.specs.Option.{ForSome};
ghost use Rattle.std.specs.FinMap as map;
ghost use Rattle.uq_facts.specs.Causes.{UnlessErr};
ghost use Rattle.uq_page.specs.Cell.{IsCellAt, IsKept, kept_bytes};
ghost use Rattle.uq_page.specs.Page.{bytes_of};
ghost use Rattle.uq_page.specs.declared.layout.TheConstants.{MOST_INLINE};
ghost use Rattle.uq_chain.specs.Causes.{HasChainCause};
ghost use Rattle.uq_chain.specs.FreeList.{KeepsCount};
ghost use Rattle.uq_hash.specs.Causes.{HasMapCause};
ghost use Rattle.uq_hash.specs.Found.{IsHere};
ghost use Rattle.uq_hash.specs.Looks.{IsLook, IsOf, len_or_none, value_or_none};
ghost use Rattle.uq_hash.specs.Map.{HoldsMap, Stored, WhereHeld};
ghost use Rattle.uq_hash.specs.Standing.{IsCellOf, rest_of};
ghost use Rattle.uq_hash.specs.declared.seeking.Bound.{Bound};

use crate::encoding::append;
use crate::insertion::insert_at;
use crate::looking::Look;
use crate::room::without_room;
use std::alloc::Global;
use uq_chain::append_chain;
use uq_page::{Cell, CellValue, ChainFault, Header, Pages, read_cell, write_cell};

/// The cell of the key that was looked for. `None` where none with a value of this length lies there.
fn cell_of<'a>(at: &'a Look<'_>, len: u32) -> Option<Cell<'a>>
    ensures lies { IfSome result (λ cell. IsCellAt (bytes_of at.entry.now.place.it.page) at.entry.now.place.spot.at cell.key.now cell.len (kept_bytes cell.value)) }
    ensures kept { IfSome result (λ cell. IsKept cell.len cell.value) }
    ensures long { IfSome result (λ cell. cell.len ≡ len) }
    ensures exact { (start : ℕ) (pages : List (List ℕ)) (row : List ℕ) (cells : List Stored) (bound : Bound) (here : IsHere start pages row cells bound at.entry.now.place)
        (it : Stored) (others : List Stored) → rest_of here.found.stands ≡ it ∷ others → len ≡ length it.value → IsSomeAnd result (IsCellOf it) }
{
    let cell = read_cell(&at.place.it.page, at.place.spot.at)?;
    if cell.len != len {
        return None;
    }
    Some(cell)
}

/// Two pieces of a value in one.
fn join(alloc: Global, front: &[u8], more: &[u8]) -> Result<Vec<u8>, ChainFault>
    ensures joined { IfOk result (λ all. all.items ≡ front.now ++ more.now) }
    ensures cause { HasChainCause ⊥ ⊥ 0 0 true result }
{
    let mut all = Vec::new(alloc);
    append(&mut all, front)?;
    append(&mut all, more)?;
    Ok(all)
}

/// Makes the chain of a cell that begins at page `first` longer, and writes the cell anew, which keeps its
/// size and its place.
fn lengthen<P: Pages>(
    p: &mut P,
    h: &mut Header,
    at: &Look<'_>,
    cell: &Cell<'_>,
    first: u32,
    more: &[u8],
) -> Result<(), ChainFault>
    requires sound { P.is_sound p.old ≡ true }
    requires looks { IsLook (P.pages p.old) (P.size p.old) h.old at.now }
    requires lies { IsCellAt (bytes_of at.now.place.it.page) at.now.place.spot.at cell.now.key.now cell.now.len (kept_bytes cell.now.value) }
    requires names { cell.now.value ≡ CellValue.Chain first }
    requires kept { IsKept cell.now.len cell.now.value }
    requires is { IsOf (P.pages p.old) h.old at.now cell.now }
    requires value { cell.now.len + length more.now ≤ 2 ^ 24 }
    requires entries { h.old.entries ≤ 2 ^ 25 }
    requires bytes { h.old.bytes ≤ 2 ^ 31 }
    ensures appended { OnOk result (WhereHeld (P.pages p.old) h.old (λ m.
        ForSome (P.pages p.new) (λ pages. HoldsMap pages h.new (map.insert m at.now.key.now (value_or_none (map.get m at.now.key.now) ++ more.now))))) }
    ensures version { OnOk result (h.new.version ≡ h.old.version) }
    ensures buckets { OnOk result (h.new.buckets ≡ h.old.buckets) }
    ensures root { OnOk result (h.new.root ≡ h.old.root) }
    ensures count { OnOk result (KeepsCount h.old h.new (P.size p.old) (P.size p.new)) }
    ensures told { UnlessErr ChainFault.Failed result (is_some (P.pages p.new) ≡ is_some (P.pages p.old)) }
    ensures size { P.size p.old ≤ P.size p.new }
    ensures keeps { P.keeps p.old p.new }
    ensures cause { HasMapCause (P.pages p.old) h.old (P.faults p.old) (P.faults p.new) (P.is_sound p.new) result }
{
    append_chain(p, h, first, cell.len, more).map_err(without_room)?;
    let longer = Cell {
        key: cell.key,
        len: cell.len + more.len() as u32,
        value: CellValue::Chain(first),
    };
    let mut page = at.place.it.page;
    write_cell(&longer, &mut page, at.place.spot.at);
    p.write_page(at.place.no, &page)?;
    h.bytes += more.len() as u64;
    Ok(())
}

/// Puts bytes behind the value of the key that was looked for. They are its value where it has none.
///
/// A value in a chain is not read: the last pages of its chain, the page of its cell, which stays where it
/// is, and the header are all that is touched. A value in its cell is inserted anew. After a refusal nothing
/// is said of the pages and of `h`.
pub fn append_at<P: Pages>(
    alloc: Global,
    p: &mut P,
    h: &mut Header,
    at: &Look<'_>,
    more: &[u8],
) -> Result<(), ChainFault>
    requires sound { P.is_sound p.old ≡ true }
    requires looks { IsLook (P.pages p.old) (P.size p.old) h.old at.now }
    requires key { 1 ≤ length at.now.key.now }
    requires key_end { length at.now.key.now ≤ 3001 }
    requires value { len_or_none at.now.len + length more.now ≤ 2 ^ 24 }
    requires entries { h.old.entries ≤ 2 ^ 25 }
    requires bytes { h.old.bytes ≤ 2 ^ 31 }
    ensures appended { OnOk result (WhereHeld (P.pages p.old) h.old (λ m.
        ForSome (P.pages p.new) (λ pages. HoldsMap pages h.new (map.insert m at.now.key.now (value_or_none (map.get m at.now.key.now) ++ more.now))))) }
    ensures version { OnOk result (h.new.version ≡ h.old.version) }
    ensures buckets { OnOk result (h.new.buckets ≡ h.old.buckets) }
    ensures root { OnOk result (h.new.root ≡ h.old.root) }
    ensures count { OnOk result (KeepsCount h.old h.new (P.size p.old) (P.size p.new)) }
    ensures told { UnlessErr ChainFault.Failed result (is_some (P.pages p.new) ≡ is_some (P.pages p.old)) }
    ensures size { P.size p.old ≤ P.size p.new }
    ensures keeps { P.keeps p.old p.new }
    ensures cause { HasMapCause (P.pages p.old) h.old (P.faults p.old) (P.faults p.new) (P.is_sound p.new) result }
{
    let Some(len) = at.len else {
        insert_at(alloc, p, h, at, more)?;
        return Ok(());
    };
    let cell = cell_of(at, len).ok_or(ChainFault::Corrupt)?;
    match cell.value {
        CellValue::Chain(first) => lengthen(p, h, at, &cell, first, more),
        CellValue::Inline(value) => {
            let joined = join(alloc, value, more)?;
            insert_at(alloc, p, h, at, &joined)?;
            Ok(())
        }
    }
}

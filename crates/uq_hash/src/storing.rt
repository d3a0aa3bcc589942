//! Values put where they should stand, and given up.
ghost use Rattle.std.specs.Prelude.{◌≡◌, ◌⊎◌, ◌+◌, ◌≤◌, ◌<◌, true, length, OnOk, IfOk, is_some};
ghost use Rattle.std.specs.Int.{w32, to_be_bytes};
ghost use Rattle.uq_facts.specs.Causes.{UnlessErr};
ghost use Rattle.uq_page.specs.Cell.{kept_bytes, IsKept};
ghost use Rattle.uq_page.specs.declared.layout.TheConstants.{MOST_INLINE};
ghost use Rattle.uq_chain.specs.Causes.{HasChainCause, NoFreeList, IsShort};
ghost use Rattle.uq_chain.specs.Chain.{pages_for};
ghost use Rattle.uq_chain.specs.FreeList.{KeepsCount, KeepsHeader};
ghost use Rattle.uq_hash.specs.Changed.{Drops, DropsOld, NoOldOrFreeList, NoValueOrFreeList, Stores};
ghost use Rattle.uq_hash.specs.Standing.{IsSound};

use crate::room::without_room;
use crate::searching::Standing;
use uq_chain::{free_chain, write_chain};
use uq_page::{CellValue, ChainFault, Header, MOST_INLINE, Pages};

/// Puts a value that is too long for its cell into a chain, and answers the first page of that, 0 where
/// the value stands in its cell.
pub(crate) fn store_value<P: Pages>(
    p: &mut P,
    h: &mut Header,
    value: &[u8],
) -> Result<u32, ChainFault>
    requires sound { P.is_sound p.old ≡ true }
    requires some { 1 ≤ P.size p.old }
    ensures stored { IfOk result (λ first. Stores (P.pages p.old) (P.pages p.new) h.old.free h.new.free first value.now) }
    ensures header { OnOk result (KeepsHeader h.old h.new) }
    ensures count { OnOk result (KeepsCount h.old h.new (P.size p.old) (P.size p.new)) }
    ensures told { UnlessErr ChainFault.Failed result (is_some (P.pages p.new) ≡ is_some (P.pages p.old)) }
    ensures size { P.size p.old ≤ P.size p.new }
    ensures most { P.size p.new ≤ P.size p.old + pages_for (length value.now) }
    ensures keeps { P.keeps p.old p.new }
    ensures cause { HasChainCause (NoFreeList (P.pages p.old) h.old.free ⊎ IsShort (P.pages p.old) h.old.free (P.size p.new) (pages_for (length value.now))) ⊥
        (P.faults p.old) (P.faults p.new) (P.is_sound p.new) result }
{
    if value.len() <= MOST_INLINE {
        return Ok(0);
    }
    write_chain(p, h, value).map_err(without_room)
}

/// Gives up the pages of a chain that a cell names.
fn drop_chain<P: Pages>(p: &mut P, h: &mut Header, len: u32, first: u32) -> Result<(), ChainFault>
    requires sound { P.is_sound p.old ≡ true }
    requires long { MOST_INLINE < len }
    ensures dropped { OnOk result (Drops (P.pages p.old) (P.pages p.new) h.old.free h.new.free len (to_be_bytes w32 first)) }
    ensures header { OnOk result (KeepsHeader h.old h.new) }
    ensures count { OnOk result (h.new.pages ≡ h.old.pages) }
    ensures told { UnlessErr ChainFault.Failed result (is_some (P.pages p.new) ≡ is_some (P.pages p.old)) }
    ensures size { P.size p.new ≡ P.size p.old }
    ensures keeps { P.keeps p.old p.new }
    ensures cause { HasChainCause (NoValueOrFreeList (P.pages p.old) len (to_be_bytes w32 first) h.old.free) ⊥
        (P.faults p.old) (P.faults p.new) (P.is_sound p.new) result }
{
    free_chain(p, h, first, len)
}

/// Gives up the pages of the value of a cell, where it has some.
pub(crate) fn drop_value<P: Pages>(
    p: &mut P,
    h: &mut Header,
    len: u32,
    value: CellValue<'_>,
) -> Result<(), ChainFault>
    requires sound { P.is_sound p.old ≡ true }
    requires kept { IsKept len value }
    ensures dropped { OnOk result (Drops (P.pages p.old) (P.pages p.new) h.old.free h.new.free len (kept_bytes value.entry)) }
    ensures header { OnOk result (KeepsHeader h.old h.new) }
    ensures count { OnOk result (h.new.pages ≡ h.old.pages) }
    ensures told { UnlessErr ChainFault.Failed result (is_some (P.pages p.new) ≡ is_some (P.pages p.old)) }
    ensures size { P.size p.new ≡ P.size p.old }
    ensures keeps { P.keeps p.old p.new }
    ensures cause { HasChainCause (NoValueOrFreeList (P.pages p.old) len (kept_bytes value.entry) h.old.free) ⊥
        (P.faults p.old) (P.faults p.new) (P.is_sound p.new) result }
{
    match value {
        CellValue::Inline(_) => Ok(()),
        CellValue::Chain(first) => drop_chain(p, h, len, first),
    }
}

/// Gives up the pages of the value that stood behind a place, where it has some.
pub(crate) fn drop_old<P: Pages>(
    p: &mut P,
    h: &mut Header,
    old: Standing<'_>,
) -> Result<(), ChainFault>
    requires sound { P.is_sound p.old ≡ true }
    requires kept { IsSound old }
    ensures dropped { OnOk result (DropsOld (P.pages p.old) (P.pages p.new) h.old.free h.new.free old.entry) }
    ensures header { OnOk result (KeepsHeader h.old h.new) }
    ensures count { OnOk result (h.new.pages ≡ h.old.pages) }
    ensures told { UnlessErr ChainFault.Failed result (is_some (P.pages p.new) ≡ is_some (P.pages p.old)) }
    ensures size { P.size p.new ≡ P.size p.old }
    ensures keeps { P.keeps p.old p.new }
    ensures cause { HasChainCause (NoOldOrFreeList (P.pages p.old) old.entry h.old.free) ⊥
        (P.faults p.old) (P.faults p.new) (P.is_sound p.new) result }
{
    match old {
        Standing::Cell(cell) => drop_value(p, h, cell.len, cell.value),
        Standing::Nothing => Ok(()),
    }
}

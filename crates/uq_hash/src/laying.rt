//! The pages of a bucket from a place on, laid anew.
ghost use Rattle.std.specs.Prelude.{◌≡◌, ◌⊎◌, ◌+◌, ◌≤◌, ◌<◌, ◌++◌, List, All, true, length, OnOk, is_some};
ghost use Rattle.std.specs.Option.{option_copied};
ghost use Rattle.uq_facts.specs.Causes.{UnlessErr};
ghost use Rattle.uq_page.specs.Page.{bytes_of};
ghost use Rattle.uq_page.specs.declared.layout.TheConstants.{CELLS_AT};
ghost use Rattle.uq_chain.specs.Causes.{HasChainCause};
ghost use Rattle.uq_chain.specs.FreeList.{KeepsCount, KeepsHeader};
ghost use Rattle.uq_hash.specs.Assembled.{FitsNew, NoneToReplace};
ghost use Rattle.uq_hash.specs.Found.{IsWithin};
ghost use Rattle.uq_hash.specs.Laid.{IsTail, LacksPages, Lays};
ghost use Rattle.uq_hash.specs.Lying.{IsCut, NoCells};
ghost use Rattle.uq_hash.specs.Map.{Stored};
ghost use Rattle.uq_hash.specs.Refill.{NoRow};

use crate::assembling::assemble;
use crate::opening::Open;
use crate::refilling::refill;
use crate::room::without_room;
use std::alloc::Global;
use uq_page::{ChainFault, Header, Pages};

/// Lays the cells of an open place anew: without the first behind the place where it is replaced, and with
/// a new cell there where there is one.
pub(crate) fn lay<P: Pages>(
    alloc: Global,
    p: &mut P,
    h: &mut Header,
    opened: &Open,
    is_replaced: bool,
    new: Option<&[u8]>,
) -> Result<(), ChainFault>
    requires sound { P.is_sound p.old ≡ true }
    requires pages { 1 ≤ P.size p.old }
    requires within { IsWithin opened.now.near }
    requires cut { IsCut opened.now.rest.sizes.items opened.now.rest.bytes.items }
    requires there { All (λ n. (1 ≤ n) × (n < P.size p.old)) opened.now.rest.row.items }
    requires some { 1 ≤ length opened.now.rest.row.items }
    requires new { FitsNew new }
    ensures laid { OnOk result (Lays (P.pages p.old) (P.pages p.new) h.old.free h.new.free opened.now is_replaced (option_copied new.entry)) }
    ensures header { OnOk result (KeepsHeader h.old h.new) }
    ensures count { OnOk result (KeepsCount h.old h.new (P.size p.old) (P.size p.new)) }
    ensures told { UnlessErr ChainFault.Failed result (is_some (P.pages p.new) ≡ is_some (P.pages p.old)) }
    ensures size { P.size p.old ≤ P.size p.new }
    ensures most { (front olds news others : List Stored) → IsTail opened.now is_replaced (option_copied new.entry) front olds news others
        → P.size p.new ≤ P.size p.old + (length (front ++ (news ++ others)) + 1) }
    ensures keeps { P.keeps p.old p.new }
    ensures cause { HasChainCause
        ((NoCells (bytes_of opened.now.near.it.page) CELLS_AT opened.now.near.spot.index ⊎ NoneToReplace is_replaced opened.now.rest.sizes.items)
        ⊎ (NoRow (P.pages p.old) h.old.free opened.now.rest.row.items
        ⊎ LacksPages (P.pages p.old) h.old.free (P.size p.new) opened.now is_replaced (option_copied new.entry)))
        ⊥ (P.faults p.old) (P.faults p.new) (P.is_sound p.new) result }
{
    let cells = assemble(alloc, &opened.near, &opened.rest, is_replaced, new)?;
    let row = &opened.rest.row;
    refill(alloc, p, h, row, &cells.sizes, &cells.bytes).map_err(without_room)?;
    Ok(())
}

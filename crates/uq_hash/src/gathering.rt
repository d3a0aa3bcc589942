//! The cells of a bucket from a place on.
ghost use Rattle.std.specs.Prelude.{◌≡◌, ◌+◌, ◌≤◌, ◌<◌, ℕ, All, true, length, sum, IfOk, OnOk};
ghost use Rattle.uq_facts.specs.Causes.{UnlessErr};
ghost use Rattle.uq_page.specs.Page.{bytes_of};
ghost use Rattle.uq_page.specs.declared.layout.TheConstants.{CELLS_AT, PAGE_SIZE};
ghost use Rattle.uq_chain.specs.Causes.{HasChainCause};
ghost use Rattle.uq_hash.specs.Found.{IsWithin};
ghost use Rattle.uq_hash.specs.Lying.{Appended, GathersWhere, IsCut, NoCells, NoNear};

use crate::bucket_page::read_bucket_page;
use crate::searching::Place;
use crate::seeking::size_of;
use std::alloc::Global;
use uq_page::{CELLS_AT, ChainFault, Page, Pages, read_cell};

/// Cells of a bucket, and the pages that they stand in.
#[derive(Drop)]
pub(crate) struct Rest {
    /// The numbers of the pages.
    pub row: Vec<u32>,

    /// How long each cell is.
    pub sizes: Vec<u16>,

    /// The cells, one behind the other.
    pub bytes: Vec<u8>,
}

/// Appends so many cells from byte `from` of a page on. A refusal may leave some of their sizes.
pub(crate) fn append_cells(
    sizes: &mut Vec<u16>,
    bytes: &mut Vec<u8>,
    page: &Page,
    from: u32,
    count: u16,
) -> Result<(), ChainFault>
    requires low { CELLS_AT ≤ from }
    requires high { from ≤ PAGE_SIZE }
    requires cut { IsCut sizes.old.items bytes.old.items }
    ensures cut { OnOk result (IsCut sizes.new.items bytes.new.items) }
    ensures appended { OnOk result (Appended (bytes_of page.now) from count sizes.old.items bytes.old.items sizes.new.items bytes.new.items) }
    ensures cause { HasChainCause (NoCells (bytes_of page.now) from count) ⊥ 0 0 true result }
{
    let mut at = from;
    for _seen in 0..count {
        let cell = read_cell(page, at).ok_or(ChainFault::Corrupt)?;
        let size = size_of(&cell);
        match sizes.push(size as u16) {
            Ok(()) => {}
            Err(_) => return Err(ChainFault::Memory),
        }
        at += size;
    }
    match bytes.extend_from_slice(&page.bytes()[from as usize..at as usize]) {
        Ok(()) => Ok(()),
        Err(_) => Err(ChainFault::Memory),
    }
}

/// The cells behind a place, and the pages from that of the place on.
pub(crate) fn gather<P: Pages>(alloc: Global, p: &mut P, place: &Place) -> Result<Rest, ChainFault>
    requires sound { P.is_sound p.old ≡ true }
    requires within { IsWithin place.now }
    requires there { place.now.no < P.size p.old }
    ensures gathered { IfOk result (λ rest. GathersWhere (P.pages p.old) place.now rest) }
    ensures cut { IfOk result (λ rest. IsCut rest.sizes.items rest.bytes.items) }
    ensures there { IfOk result (λ rest. All (λ n. (1 ≤ n) × (n < P.size p.old)) rest.row.items) }
    ensures some { IfOk result (λ rest. 1 ≤ length rest.row.items) }
    ensures same { UnlessErr ChainFault.Failed result (P.pages p.new ≡ P.pages p.old) }
    ensures size { P.size p.new ≡ P.size p.old }
    ensures reads { P.only_reads p.old p.new }
    ensures cause { HasChainCause (NoNear (P.pages p.old) place.now) ⊥ (P.faults p.old) (P.faults p.new) (P.is_sound p.new) result }
{
    let mut row = Vec::new(alloc);
    match row.push(place.no) {
        Ok(()) => {}
        Err(_) => return Err(ChainFault::Memory),
    }
    let mut sizes = Vec::new(alloc);
    let mut bytes = Vec::new(alloc);
    let left = place.it.head.cells - place.spot.index;
    append_cells(&mut sizes, &mut bytes, &place.it.page, place.spot.at, left)?;
    let mut next = place.it.head.next;
    // No page of a row comes twice, so that there are no more than all.
    for _seen in 0..p.count() {
        if next == 0 {
            return Ok(Rest { row, sizes, bytes });
        }
        let it = read_bucket_page(p, next)?;
        match row.push(next) {
            Ok(()) => {}
            Err(_) => return Err(ChainFault::Memory),
        }
        append_cells(
            &mut sizes,
            &mut bytes,
            &it.page,
            CELLS_AT as u32,
            it.head.cells,
        )?;
        next = it.head.next;
    }
    Err(ChainFault::Corrupt)
}

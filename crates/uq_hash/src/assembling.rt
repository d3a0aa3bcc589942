//! The cells that are laid anew where a bucket changes.
ghost use Rattle.std.specs.Prelude.{◌≡◌, ◌⊎◌, ◌+◌, ◌≤◌, ◌<◌, ◌∷◌, ◌++◌, [], All, length, sum, true, IfOk, OnOk};
ghost use Rattle.uq_page.specs.Page.{bytes_of};
ghost use Rattle.uq_chain.specs.Causes.{HasChainCause};
ghost use Rattle.uq_hash.specs.Assembled.{Assembles, FitsNew, NoneToReplace, rest_bytes, rest_sizes};
ghost use Rattle.uq_hash.specs.Found.{IsWithin};
ghost use Rattle.uq_hash.specs.Lying.{IsCut, NoCells};
ghost use Rattle.uq_hash.specs.Refill.{Fits};

use crate::gathering::{Rest, append_cells};
use crate::searching::Place;
use std::alloc::Global;
use uq_page::{CELLS_AT, ChainFault};

/// Encoded cells, one behind the other, and how long each is.
#[derive(Drop)]
pub(crate) struct Cells {
    pub sizes: Vec<u16>,
    pub bytes: Vec<u8>,
}

/// Appends one cell.
fn append_cell(sizes: &mut Vec<u16>, bytes: &mut Vec<u8>, cell: &[u8]) -> Result<(), ChainFault>
    requires cut { IsCut sizes.old.items bytes.old.items }
    requires fits { Fits (length cell.now) }
    ensures cut { OnOk result (IsCut sizes.new.items bytes.new.items) }
    ensures sizes { OnOk result (sizes.new.items ≡ sizes.old.items ++ length cell.now ∷ []) }
    ensures bytes { OnOk result (bytes.new.items ≡ bytes.old.items ++ cell.now) }
    ensures cause { HasChainCause ⊥ ⊥ 0 0 true result }
{
    match sizes.push(cell.len() as u16) {
        Ok(()) => {}
        Err(_) => return Err(ChainFault::Memory),
    }
    match bytes.extend_from_slice(cell) {
        Ok(()) => Ok(()),
        Err(_) => Err(ChainFault::Memory),
    }
}

/// Appends the cells that were gathered, but for the first where it is replaced.
fn append_rest(
    sizes: &mut Vec<u16>,
    bytes: &mut Vec<u8>,
    rest: &Rest,
    is_replaced: bool,
) -> Result<(), ChainFault>
    requires cut { IsCut sizes.old.items bytes.old.items }
    requires rest { IsCut rest.now.sizes.items rest.now.bytes.items }
    ensures cut { OnOk result (IsCut sizes.new.items bytes.new.items) }
    ensures sizes { OnOk result (sizes.new.items ≡ sizes.old.items ++ rest_sizes is_replaced rest.now.sizes.items) }
    ensures bytes { OnOk result (bytes.new.items ≡ bytes.old.items ++ rest_bytes is_replaced rest.now.sizes.items rest.now.bytes.items) }
    ensures cause { HasChainCause (NoneToReplace is_replaced rest.now.sizes.items) ⊥ 0 0 true result }
{
    let (from, at) = if is_replaced {
        match rest.sizes.first() {
            Some(size) => (1, usize::from(*size)),
            None => return Err(ChainFault::Corrupt),
        }
    } else {
        (0, 0)
    };
    match sizes.extend_from_slice(&rest.sizes[from..]) {
        Ok(()) => {}
        Err(_) => return Err(ChainFault::Memory),
    }
    match bytes.extend_from_slice(&rest.bytes[at..]) {
        Ok(()) => Ok(()),
        Err(_) => Err(ChainFault::Memory),
    }
}

/// The cells of a place's page before the place, a new cell where there is one, and the cells that were
/// gathered behind the place, but for the first where it is replaced.
pub(crate) fn assemble(
    alloc: Global,
    place: &Place,
    rest: &Rest,
    is_replaced: bool,
    new: Option<&[u8]>,
) -> Result<Cells, ChainFault>
    requires within { IsWithin place.now }
    requires cut { IsCut rest.now.sizes.items rest.now.bytes.items }
    requires new { FitsNew new }
    ensures cut { IfOk result (λ cells. IsCut cells.sizes.items cells.bytes.items) }
    ensures assembled { IfOk result (λ cells. Assembles place.now rest.now is_replaced new.entry cells.sizes.items cells.bytes.items) }
    ensures cause { HasChainCause (NoCells (bytes_of place.now.it.page) CELLS_AT place.now.spot.index ⊎ NoneToReplace is_replaced rest.now.sizes.items) ⊥
        0 0 true result }
{
    let mut sizes = Vec::new(alloc);
    let mut bytes = Vec::new(alloc);
    append_cells(
        &mut sizes,
        &mut bytes,
        &place.it.page,
        CELLS_AT as u32,
        place.spot.index,
    )?;
    if let Some(cell) = new {
        append_cell(&mut sizes, &mut bytes, cell)?;
    }
    append_rest(&mut sizes, &mut bytes, rest, is_replaced)?;
    Ok(Cells { sizes, bytes })
}

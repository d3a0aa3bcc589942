//! The bytes of a cell.
ghost use Rattle.std.specs.Prelude.{◌≡◌, ◌+◌, ◌≤◌, ◌<◌, ◌^◌, ◌++◌, ℕ, List, true, length, IfOk, OnOk};
ghost use Rattle.uq_page.specs.declared.layout.TheConstants.{MOST_INLINE};
ghost use Rattle.uq_chain.specs.Causes.{HasChainCause};
ghost use Rattle.uq_hash.specs.Map.{cell, first_of};
ghost use Rattle.uq_hash.specs.Refill.{Fits};

use std::alloc::Global;
use uq_page::{ChainFault, MOST_INLINE};

/// Appends bytes.
pub(crate) fn append(cell: &mut Vec<u8>, bytes: &[u8]) -> Result<(), ChainFault>
    ensures bytes { OnOk result (cell.new.items ≡ cell.old.items ++ bytes.now) }
    ensures cause { HasChainCause ⊥ ⊥ 0 0 true result }
{
    match cell.extend_from_slice(bytes) {
        Ok(()) => Ok(()),
        Err(_) => Err(ChainFault::Memory),
    }
}

/// The cell of a key with a value, which stands in the cell or in the chain that begins at page `first`.
pub(crate) fn encode(
    alloc: Global,
    key: &[u8],
    value: &[u8],
    first: u32,
) -> Result<Vec<u8>, ChainFault>
    requires key { length key.now ≤ 3001 }
    requires value { length value.now ≤ 2 ^ 24 }
    ensures cell { IfOk result (λ bytes. (row : List ℕ) → first ≡ first_of row
        → bytes.items ≡ cell (record { key = key.now; value = value.now; row = row })) }
    ensures fits { IfOk result (λ bytes. Fits (length bytes.items)) }
    ensures cause { HasChainCause ⊥ ⊥ 0 0 true result }
{
    let mut cell = Vec::new(alloc);
    append(&mut cell, &(key.len() as u16).to_be_bytes())?;
    append(&mut cell, &(value.len() as u32).to_be_bytes())?;
    append(&mut cell, key)?;
    if value.len() <= MOST_INLINE {
        append(&mut cell, value)?;
    } else {
        append(&mut cell, &first.to_be_bytes())?;
    }
    Ok(cell)
}

//! The sums in the header.
ghost use Rattle.std.specs.Prelude.{◌≡◌, ◌⊎◌, ◌+◌, ◌≤◌, ◌<◌, ◌^◌, true, length, OnOk};
ghost use Rattle.uq_chain.specs.Causes.{HasChainCause};
ghost use Rattle.uq_hash.specs.Recounted.{Discounts, Recounts, gone_bytes, gone_keys};

use crate::searching::Standing;
use uq_page::{ChainFault, Header};

/// Counts a value of the key in place of its old one, where it had one.
pub(crate) fn recount(
    h: &mut Header,
    old: Standing<'_>,
    key: &[u8],
    value: &[u8],
) -> Result<(), ChainFault>
    requires key { length key.now ≤ 3001 }
    requires value { length value.now ≤ 2 ^ 24 }
    requires entries { h.old.entries ≤ 2 ^ 25 }
    requires bytes { h.old.bytes ≤ 2 ^ 31 }
    ensures counts { OnOk result (Recounts h.old h.new (length key.now) (length value.now) old.entry) }
    ensures cause { HasChainCause (h.old.bytes < gone_bytes (length key.now) old.entry) ⊥ 0 0 true result }
{
    match old {
        Standing::Cell(cell) => {
            let rest = h
                .bytes
                .checked_sub(u64::from(cell.len))
                .ok_or(ChainFault::Corrupt)?;
            h.bytes = rest + value.len() as u64;
        }
        Standing::Nothing => {
            h.entries += 1;
            h.bytes += (key.len() + value.len()) as u64;
        }
    }
    Ok(())
}

/// Counts the key and its value of `len` bytes no more.
pub(crate) fn discount(h: &mut Header, key: &[u8], len: u32) -> Result<(), ChainFault>
    ensures counts { OnOk result (Discounts h.old h.new (length key.now) len) }
    ensures cause { HasChainCause (h.old.entries < 1 ⊎ h.old.bytes < length key.now + len) ⊥ 0 0 true result }
{
    let gone = key.len() as u64 + u64::from(len);
    h.entries = h.entries.checked_sub(1).ok_or(ChainFault::Corrupt)?;
    h.bytes = h.bytes.checked_sub(gone).ok_or(ChainFault::Corrupt)?;
    Ok(())
}

//! The two spaces of keys, and keys as they are stored.
ghost use Rattle.std.specs.Prelude.{◌≡◌, IfOk};
ghost use Rattle.uq_kv.specs.Stored.{space_byte, stored_key};

use std::alloc::{AllocError, Global};

/// Where a key belongs. A key is stored behind the byte of its space.
#[derive(Clone, Copy, Debug, PartialEq, Eq)]
pub enum Space {
    /// The keys of the user, behind `K`.
    Keys,
    /// Collections and their records, behind `D`.
    Docs,
}

impl Space {
    fn byte(self) -> u8
        ensures { result ≡ space_byte self }
    {
        match self {
            Space::Keys => b'K',
            Space::Docs => b'D',
        }
    }
}

/// The key as it is stored.
pub(crate) fn stored_key(alloc: Global, space: Space, key: &[u8]) -> Result<Vec<u8>, AllocError>
    ensures { IfOk result (λ stored. stored.items ≡ stored_key space key.now) }
{
    let mut stored = Vec::new(alloc);
    stored.push(space.byte())?;
    stored.extend_from_slice(key)?;
    Ok(stored)
}

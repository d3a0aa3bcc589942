//! Why a value can't be made or written.
ghost use Rattle.std.specs.Prelude.{◌≡◌};
ghost use Rattle.uq_value.specs.declared.error.ValueFault.TheVariants.{Memory};

use std::alloc::{AllocError, AllocFailed};

/// Memory was asked for and not had.
#[derive(Clone, Copy, Debug, PartialEq, Eq)]
pub struct NoMemory;

/// Why a value can't be made, or put where it is to stand.
#[derive(Clone, Copy, Debug, PartialEq, Eq)]
pub enum ValueFault {
    /// A step leads into a value that has no such parts.
    NotContainer,
    /// An index into a list is no whole number from 0 to its length.
    IndexRange,
    /// The value would be deeper than 128.
    TooDeep,
    /// The value's stored form would be longer than 16,777,152 bytes.
    TooLarge,
    /// Memory was asked for and not had.
    Memory,
}

impl From<AllocError> for NoMemory {
    fn from(_missing: AllocError) -> NoMemory {
        NoMemory
    }
}

/// What was not stored is dropped.
impl<T: Drop> From<AllocFailed<T>> for NoMemory {
    fn from(_refused: AllocFailed<T>) -> NoMemory {
        NoMemory
    }
}

impl From<NoMemory> for ValueFault {
    ghost from_gives = { λ _ e. e ≡ Memory };

    fn from(_missing: NoMemory) -> ValueFault {
        ValueFault::Memory
    }
}

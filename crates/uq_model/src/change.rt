//! Writes that were accepted, on the way to being made.

ghost use Rattle.std.specs.Prelude.{◌≡◌};
ghost use Rattle.uq_model.specs.declared.change.WriteStop.TheVariants.{Refused, Memory};

use crate::Refusal;
use std::alloc::{AllocError, AllocFailed};
use uq_value::{NoMemory, Value};

/// Why a write isn't made.
#[derive(Clone, Copy, Debug, PartialEq, Eq)]
pub enum WriteStop {
    Refused(Refusal),
    /// Memory was asked for and not had.
    Memory,
}

/// What becomes of one collection.
#[derive(Drop)]
pub enum Alteration {
    /// These records come, and that is the next id then.
    Append(Vec<(u64, Value)>, u64),
    /// A record comes in the place of the one of this id.
    Replace(u64, Value),
    /// The record of this id goes.
    Remove(u64),
    /// Another schema comes.
    SetSchema(Value),
}

/// What becomes of the collections.
#[derive(Drop)]
pub enum Change {
    /// One of this name comes, without records.
    Create(Vec<u8>),
    /// One goes.
    DropCollection,
    /// One is altered.
    Alter(Alteration),
}

/// An accepted write, with the entries and bytes of the store that it makes.
#[derive(Drop)]
pub struct Plan {
    pub change: Change,
    pub entries: u64,
    pub bytes: u64,
}

impl From<Refusal> for WriteStop {
    ghost from_gives = { λ refusal e. e ≡ Refused refusal };

    fn from(refusal: Refusal) -> WriteStop {
        WriteStop::Refused(refusal)
    }
}

impl From<NoMemory> for WriteStop {
    ghost from_gives = { λ _ e. e ≡ Memory };

    fn from(_missing: NoMemory) -> WriteStop {
        WriteStop::Memory
    }
}

impl From<AllocError> for WriteStop {
    ghost from_gives = { λ _ e. e ≡ Memory };

    fn from(_missing: AllocError) -> WriteStop {
        WriteStop::Memory
    }
}

/// What was not stored is dropped.
impl<T: Drop> From<AllocFailed<T>> for WriteStop {
    ghost from_gives = { λ _ e. e ≡ Memory };

    fn from(_refused: AllocFailed<T>) -> WriteStop {
        WriteStop::Memory
    }
}

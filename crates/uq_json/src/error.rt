//! Why a text is not read as JSON.
ghost use Rattle.std.specs.Prelude.{◌≡◌, ◌≢◌, None, IfOk, IfErr};
ghost use Rattle.uq_value.specs.declared.error.ValueFault.TheVariants.{Memory as NoRoom};
ghost use Rattle.uq_json.specs.declared.error.JsonFault.TheVariants.{Memory};

use std::alloc::AllocError;
use uq_value::{NoMemory, ValueFault};

/// Why a text is not read as JSON.
#[derive(Clone, Copy, Debug, PartialEq, Eq)]
pub enum JsonFault {
    /// The text is not in the grammar.
    NotJson,
    /// A `[` or `{` opens the 129th level.
    TooDeep,
    /// The value's stored form would be longer than 16,777,152 bytes.
    TooLarge,
    /// Memory was asked for and not had.
    Memory,
}

impl From<AllocError> for JsonFault {
    ghost from_gives = { λ _ e. e ≡ Memory };

    fn from(_missing: AllocError) -> JsonFault {
        JsonFault::Memory
    }
}

impl From<NoMemory> for JsonFault {
    ghost from_gives = { λ _ e. e ≡ Memory };

    fn from(_missing: NoMemory) -> JsonFault {
        JsonFault::Memory
    }
}

/// What can't be kept is left out, unless memory was wanting.
pub(crate) fn left_out<T>(fault: ValueFault) -> Result<Option<T>, JsonFault>
    ensures ok { IfOk result (λ kept. (kept ≡ None) × (fault ≢ NoRoom)) }
    ensures err { IfErr result (λ e. e ≡ Memory) }
{
    match fault {
        ValueFault::Memory => Err(JsonFault::Memory),
        _ => Ok(None),
    }
}

ghost use Rattle.std.specs.Prelude.{◌≡◌};
ghost use Rattle.uq_codec.specs.declared.error.CodecFault.TheVariants.{Memory};

use std::alloc::AllocError;
use uq_value::NoMemory;

/// Why bytes are not decoded.
#[derive(Clone, Copy, Debug, PartialEq, Eq)]
pub enum CodecFault {
    /// The bytes do not begin with the stored form of a value.
    NotCanonical,
    /// Memory was asked for and not had.
    Memory,
}

impl From<AllocError> for CodecFault {
    ghost from_gives = { λ _ e. e ≡ Memory };

    fn from(_missing: AllocError) -> CodecFault {
        CodecFault::Memory
    }
}

impl From<NoMemory> for CodecFault {
    ghost from_gives = { λ _ e. e ≡ Memory };

    fn from(_missing: NoMemory) -> CodecFault {
        CodecFault::Memory
    }
}

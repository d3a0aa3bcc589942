//! Why no token is cut off.

ghost use Rattle.std.specs.Prelude.{◌≡◌};
ghost use Rattle.jx9_lex.specs.declared.stop.Stop.TheVariants.{Memory};

use std::alloc::{AllocError, AllocFailed};

/// Why no token is cut off the front of a text.
#[derive(Clone, Copy, Drop)]
pub(crate) enum Stop {
    /// None begins there.
    Bad,
    /// Memory was asked for and not had.
    Memory,
}

impl From<AllocError> for Stop {
    ghost from_gives = { λ _ e. e ≡ Memory };

    fn from(_missing: AllocError) -> Stop {
        Stop::Memory
    }
}

impl<T: Drop> From<AllocFailed<T>> for Stop {
    ghost from_gives = { λ _ e. e ≡ Memory };

    fn from(_missing: AllocFailed<T>) -> Stop {
        Stop::Memory
    }
}

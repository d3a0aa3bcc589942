//! How `exec` answers.

use crate::ending::Ending;
use uq_model::BaseStop;
use uq_value::NoMemory;

/// A script that ended.
#[derive(Debug, Drop)]
pub struct Ran {
    pub ending: Ending,
    /// How many events it had: what it put out and what it committed.
    pub events: u64,
    /// The last byte that it put out, None where it put out none.
    pub last: Option<u8>,
}

/// A script that was stopped on its way.
#[derive(Clone, Copy, Debug, PartialEq, Eq)]
pub struct Stop {
    /// How many events were completed.
    pub events: u64,
    /// The last byte that these put out, None where they put out none.
    pub last: Option<u8>,
    pub cause: StopCause,
}

/// What stopped a script.
#[derive(Clone, Copy, Debug, PartialEq, Eq)]
pub enum StopCause {
    /// A call on the base had no answer.
    Base(BaseStop),
    /// The sink failed.
    Sink,
    /// Memory was asked for and not had.
    Memory,
}

impl From<NoMemory> for StopCause {
    ghost use Rattle.std.specs.Prelude.{◌≡◌};
    ghost use Rattle.jx9_vm.specs.declared.stop.StopCause.TheVariants.{Memory};

    ghost from_gives = { λ _ e. e ≡ Memory };

    fn from(_missing: NoMemory) -> StopCause {
        StopCause::Memory
    }
}

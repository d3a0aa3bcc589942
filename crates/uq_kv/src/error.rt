//! Why a call of a store was refused.
ghost use Rattle.std.specs.Prelude.{◌≡◌};
ghost use Rattle.uq_kv.specs.Calls.{is_stop};
ghost use Rattle.uq_kv.specs.Faults.{open_fault};

use thiserror::Error;
use uq_model::Cause;
use uq_pager::PagerFault;

/// Why a call of a store was refused.
///
/// The first six are refusals by the call's own rules, and change nothing, but that they unset a cursor that was to
/// move. `Disk`, `Corrupt` and `Memory` close the store: every later call answers `Closed` with the first of them.
#[derive(Clone, Copy, Debug, PartialEq, Eq, Error)]
pub enum KvFault {
    /// The key has no byte.
    #[error("empty key")]
    EmptyKey,

    /// The key has more than 1,024 bytes.
    #[error("key too long")]
    KeyTooLong,

    /// The data have more than 2^24 bytes.
    #[error("value too long")]
    ValueTooLong,

    /// The write makes entries or bytes greater than before and greater than their limit.
    #[error("full")]
    Full,

    /// The key is not there.
    #[error("not found")]
    NotFound,

    /// There is no such entry.
    #[error("no entry")]
    NoEntry,

    /// A call of the disk failed. After a commit the disk may hold what was saved or what was there.
    #[error("the disk failed")]
    Disk,

    /// The files are no database.
    #[error("not a database")]
    Corrupt,

    /// The store was closed before, by this cause.
    #[error("closed")]
    Closed { first: Cause },

    /// There was no memory.
    #[error("out of memory")]
    Memory,
}

impl KvFault {
    /// Whether it is a fault of what lies below, or that of a closed store, and no refusal by a call's own rules.
    pub(crate) fn is_stop(self) -> bool
        ensures { result ≡ is_stop self }
    {
        match self {
            KvFault::EmptyKey
            | KvFault::KeyTooLong
            | KvFault::ValueTooLong
            | KvFault::Full
            | KvFault::NotFound
            | KvFault::NoEntry => false,
            KvFault::Disk | KvFault::Corrupt | KvFault::Closed { first: _ } | KvFault::Memory =>
                true,
        }
    }
}

/// Why files could not be opened.
#[derive(Clone, Copy, Debug, PartialEq, Eq, Error)]
pub enum OpenFault {
    /// A call of the disk failed.
    #[error("the disk failed")]
    Disk,

    /// The files recover to no database.
    #[error("not a database")]
    NotDatabase,

    /// There was no memory.
    #[error("out of memory")]
    Memory,
}

impl From<PagerFault> for OpenFault {
    ghost from_gives = { λ fault gives. gives ≡ open_fault fault };

    fn from(fault: PagerFault) -> OpenFault {
        match fault {
            PagerFault::Disk => OpenFault::Disk,
            PagerFault::NotDatabase => OpenFault::NotDatabase,
            PagerFault::Memory => OpenFault::Memory,
        }
    }
}

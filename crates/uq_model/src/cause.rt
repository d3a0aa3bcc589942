//! What ends the use of a store.

/// Why a store was closed.
#[derive(Clone, Copy, Debug, PartialEq, Eq)]
pub enum Cause {
    /// A call on the disk failed.
    Disk,
    /// The files hold no store.
    Corrupt,
    /// Memory was asked for and not had.
    Memory,
}

/// Why a call on a base has no answer. The base is closed from then on.
#[derive(Clone, Copy, Debug, PartialEq, Eq)]
pub enum BaseStop {
    /// What lies behind the base failed in this call.
    Disk,
    /// What lies behind the base is no store.
    Corrupt,
    /// The base was closed before this call, by this cause.
    Closed { first: Cause },
    /// Memory was asked for and not had.
    Memory,
}

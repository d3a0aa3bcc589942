//! The answers of calls that write.

/// Why a call on a collection changed nothing. Where several apply, the first in the order of the call's row comes.
#[derive(Clone, Copy, Debug, PartialEq, Eq)]
pub enum Refusal {
    /// A name has 1 to 64 bytes of `A-Z a-z 0-9 _`.
    BadName,
    /// There is no collection of this name.
    NoCollection,
    /// There is a collection of this name.
    Exists,
    /// There is no record of this id.
    NoRecord,
    /// A record or a schema is an object.
    NotObject,
    /// With its `__id` the record would be above the limit of a value's size.
    RecordTooLarge,
    /// The ids of a collection end at 2^63 - 2.
    IdsUsedUp,
    /// Entries or bytes would be greater than before and greater than their limit.
    Full,
}

/// Whether a call was accepted.
#[derive(Clone, Copy, Debug, PartialEq, Eq)]
pub enum Done {
    Yes,
    No(Refusal),
}

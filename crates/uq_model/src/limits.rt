//! How much a store may hold.

/// No store has more entries: 2^24.
pub const MOST_ENTRIES: u64 = 16_777_216;

/// No store has more bytes: 2^30.
pub const MOST_BYTES: u64 = 1_073_741_824;

/// The limits of a store. A write is refused where it makes entries or bytes greater than before and greater than here.
#[derive(Clone, Copy, Debug, PartialEq, Eq)]
pub struct Limits {
    /// Keys, collections and records, at most 2^24.
    pub entries: u64,
    /// What their stored keys and data take together, at most 2^30.
    pub bytes: u64,
}

//! Why a call of a pager was refused.
use thiserror::Error;

/// Why a call of a pager was refused.
#[derive(Clone, Copy, Debug, PartialEq, Eq, Error)]
pub enum PagerFault {
    /// A call of the disk failed. No further call may be made; open the files anew.
    #[error("the disk failed")]
    Disk,

    /// The files recover to no whole number of pages below 2^32. They are as before.
    #[error("not a database")]
    NotDatabase,

    /// There was no memory.
    #[error("out of memory")]
    Memory,
}

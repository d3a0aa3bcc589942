//! Why a journal was not opened.
use thiserror::Error;
use uq_outside::DiskFault;

/// Why a journal was not opened.
#[derive(Clone, Copy, Debug, PartialEq, Eq, Error)]
pub enum JournalFault {
    /// A call of the disk failed. The files recover to what they did before; open them anew.
    #[error("{0}")]
    Disk(DiskFault),
    /// The files recover to nothing, and are left as they were.
    #[error("the journal holds no whole batches")]
    NotJournal,
}

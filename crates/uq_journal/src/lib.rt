//! A journal of originals: a batch of pages is put in place whole or not at all, at whatever moment it is stopped.
#![tactic(auto)]

mod committing;
mod dirty;
mod error;
mod format;
mod gate;
mod journal;
mod laws;
mod opening;
mod reading;
mod restoring;
mod staging;
#[cfg(test)]
mod tests;
mod writing;

pub use dirty::Dirty;
pub use error::JournalFault;
pub use journal::Journal;
pub use laws::{pages_tell_bytes, recovers_by_rows};

//! What a program over a store means: stores, sessions, the calls on collections, and the trait that scripts run over.
#![tactic(auto)]

mod base;
mod cause;
mod change;
mod changing;
mod collection;
mod done;
mod held;
mod laws;
mod limits;
mod looking;
mod map_base;
mod measuring;
mod planning;
mod records;
mod tables;
#[cfg(test)]
mod tests;

pub use base::Base;
pub use cause::{BaseStop, Cause};
pub use collection::CollectionInfo;
pub use done::{Done, Refusal};
pub use laws::worked_rows;
pub use limits::{Limits, MOST_BYTES, MOST_ENTRIES};
pub use map_base::MapBase;

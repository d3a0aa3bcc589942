//! Pages of a main file, with one transaction at a time, over a disk and its journal.
#![tactic(auto)]

mod changes;
mod error;
mod opening;
mod pager;
mod paging;
#[cfg(test)]
mod tests;
mod transaction;

pub use error::PagerFault;
pub use opening::{Ready, recover};
pub use pager::Pager;

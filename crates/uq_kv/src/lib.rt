//! Keys with their data over a disk, with one transaction at a time.
#![tactic(auto)]

mod closing;
mod cursor;
#[cfg(test)]
mod cursor_tests;
mod error;
mod keys;
mod kv;
mod limits;
mod opening;
mod recovering;
#[cfg(test)]
mod sequences;
mod space;
#[cfg(test)]
mod tests;
mod transaction;
mod walking;
mod writing;

pub use cursor::Cursor;
pub use error::{KvFault, OpenFault};
pub use kv::Kv;
pub use limits::{MOST_KEY, MOST_VALUE};
pub use opening::Ready;
pub use recovering::recover;
pub use space::Space;

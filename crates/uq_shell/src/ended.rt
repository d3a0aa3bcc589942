//! The end of a run.

use crate::Status;
use jx9_vm::Meter;

/// How a run ended, how many events of its meaning were completed, and the units that its scripts took.
#[derive(Drop)]
pub struct Ended {
    pub status: Status,
    pub done: u128,
    pub meter: Meter,
}

//! What holds for each command and each script of a run.

use uq_model::Limits;

/// What holds for each command and each script of a run.
#[derive(Clone, Copy, Debug)]
pub struct Terms {
    /// How much the store may hold.
    pub limits: Limits,
    /// The units of a script.
    pub budget: u64,
}

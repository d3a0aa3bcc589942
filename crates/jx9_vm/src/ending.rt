//! How a script ends.

use jx9_meaning::FaultKind;

/// How a script ended. Each ending but `Done` has rolled back what the script had not committed.
#[derive(Debug, Drop)]
pub enum Ending {
    /// It came to its end. What it began and did not commit is still begun.
    Done,
    /// An operation in this line faulted.
    Fault { kind: FaultKind, line: u32 },
    /// It had fewer units left than it was to take.
    Spent,
}

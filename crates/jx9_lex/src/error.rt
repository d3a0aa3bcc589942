//! Why a script has no tokens.

/// Why a script has no list of tokens.
#[derive(Clone, Copy, Debug, PartialEq, Eq)]
pub enum LexFault {
    /// At some byte no token begins. The line is that of the first such byte, and 1 more than the line feeds before it.
    Bad { line: u32 },
    /// Memory was asked for and not had.
    Memory,
}

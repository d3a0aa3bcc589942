//! Why a list of tokens has no program.

/// Why a list of tokens has no program.
#[derive(Clone, Copy, Debug, PartialEq, Eq)]
pub enum SyntaxFault {
    /// No program begins with the tokens up to and with this one, and one begins with those before it. Tokens are numbered
    /// from 0. The line is that of the token.
    Dead { token: u32, line: u32 },
    /// Memory was asked for and not had.
    Memory,
}

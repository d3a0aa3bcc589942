//! Tokens, and the lines in which they begin.

use crate::parts::Parts;
use crate::sign::Sign;
use uq_value::Text;

/// A token of a script, or its end.
#[derive(Drop)]
pub struct Token {
    /// What it is.
    pub kind: TokenKind,
    /// The line of its first byte: 1 more than the line feeds before it.
    pub line: u32,
}

/// What a token is.
#[derive(Drop)]
pub enum TokenKind {
    /// A letter or `_`, then letters, digits and `_`.
    Name(Text),
    /// A variable, by its name without `$`.
    Var(Text),
    /// A whole number, from 0 to 2^63 - 1.
    Int(i64),
    /// A text in quotes, by its bytes.
    Text(Text),
    /// A text in double quotes that names variables.
    Mixed(Parts),
    /// A sign.
    Sign(Sign),
    /// The end of the script.
    End,
}

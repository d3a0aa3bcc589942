//! Where reading stands, and the tokens that are read one by one.

ghost use Rattle.std.specs.Prelude.{◌+◌, ◌^◌, ◌<◌, ◌≤◌, length};

use crate::stop::Stop;
use jx9_syntax::{Function, Token};
use sqlite_items::Items;
use std::alloc::Global;

/// Where reading stands.
#[derive(Drop)]
pub(crate) struct Parser<'a> {
    pub(crate) alloc: Global,
    /// The tokens from the next one on, without the end.
    pub(crate) tokens: &'a [Token],
    /// The number of the next token.
    pub(crate) number: u32,
    /// The lambdas so far.
    pub(crate) lambdas: Items<Function>,
    // Each lambda took a token.
    ghost few: { length lambdas ≤ number },
    // Tokens are fewer than 2^32.
    ghost counted: { number + length tokens.now < 2 ^ 32 },
}

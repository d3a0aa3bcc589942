//! The tokens of a script, cut off its front one after the other.
#![tactic(auto)]

mod builder;
mod class;
mod cutting;
mod error;
mod laws;
mod lexer;
mod numbers;
mod piece;
mod quoted;
mod signs;
mod stop;
#[cfg(test)]
mod tests;
mod text;

pub use error::LexFault;
pub use laws::lists_end;
pub use lexer::lex;

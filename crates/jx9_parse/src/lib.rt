//! The trees of a script, read from its tokens by descent.
#![tactic(auto)]

mod arguments;
mod chain;
mod construct;
mod descent;
mod error;
mod expression;
mod keyword;
mod law;
mod number;
mod operator;
mod parser;
mod place;
mod primary;
mod program;
mod single;
mod spot;
mod statement;
mod stop;
#[cfg(test)]
mod tests;
mod text;
mod tree;
mod unary;
mod within;

pub use error::SyntaxFault;
pub use law::one_program;
pub use program::parse;

//! The script language: its tokens, its grammar and its trees.
#![tactic(auto)]

mod expression;
mod laws;
mod parts;
mod program;
mod sign;
mod statement;
mod token;

pub use expression::{Access, Binary, Change, Entry, Expr, Link, Literal, Node, Place, Step};
pub use laws::{front_is_longest, one_list, parts_stand_apart};
pub use parts::{Part, Parts};
pub use program::{Function, Named, Program};
pub use sign::Sign;
pub use statement::{Branch, Kind, Statement};
pub use token::{Token, TokenKind};

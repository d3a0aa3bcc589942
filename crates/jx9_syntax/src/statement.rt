//! Trees of statements. A node has the line and the number of its first token.

use crate::expression::Expr;
use sqlite_items::{Boxed, Items};
use uq_value::Text;

/// A statement.
#[cycle(statement)]
#[derive(Drop)]
pub struct Statement {
    /// The line of its first token.
    pub line: u32,
    /// The number of its first token.
    pub token: u32,
    /// What it is.
    pub kind: Kind,
}

/// What a statement is.
#[cycle(statement)]
#[derive(Drop)]
pub enum Kind {
    /// `;`
    Empty,
    /// `{ .. }`
    Block(Items<Statement>),
    /// `print e, ..;`
    Print(Items<Expr>),
    /// `e;`
    Expr(Expr),
    /// `if` and each `elseif`, then `else`.
    If(Items<Branch>, Option<Boxed<Statement>>),
    /// `while (e) ..`
    While(Expr, Boxed<Statement>),
    /// `for (e, ..; e; e, ..) ..`
    For(Items<Expr>, Option<Boxed<Expr>>, Items<Expr>, Boxed<Statement>),
    /// What `foreach` walks over, the variable of the key if there is one, that of the value, and the body.
    Foreach(Expr, Option<Text>, Text, Boxed<Statement>),
    /// `return e;`
    Return(Option<Boxed<Expr>>),
    /// `break;`
    Break,
    /// `continue;`
    Continue,
}

/// The condition of an `if` or `elseif`, and what it guards.
#[cycle(statement)]
#[derive(Drop)]
pub struct Branch {
    /// The condition.
    pub test: Expr,
    /// What runs where it is true.
    pub body: Statement,
}

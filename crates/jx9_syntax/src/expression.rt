//! Trees of expressions. A node has the line and the number of its first token; tokens are numbered from 0.

use crate::parts::Parts;
use sqlite_items::{Boxed, Items};
use uq_value::Text;

/// A literal. `JX9_EOL` is the text of one line feed.
#[derive(Drop)]
pub enum Literal {
    /// `null`
    Null,
    /// `true`, `false`
    Bool(bool),
    /// A whole number from 0 to 2^63 - 1.
    Int(i64),
    /// A text that names no variable.
    Text(Text),
}

/// An operator on two values.
#[derive(Clone, Copy, Debug, PartialEq, Eq)]
pub enum Binary {
    /// `+`
    Add,
    /// `-`
    Subtract,
    /// `*`
    Multiply,
    /// `/`
    Divide,
    /// `%`
    Remainder,
    /// `==`
    Equal,
    /// `!=`
    NotEqual,
    /// `===`
    Same,
    /// `!==`
    NotSame,
    /// `<`
    Less,
    /// `<=`
    LessOrEqual,
    /// `>`
    Greater,
    /// `>=`
    GreaterOrEqual,
}

/// What stands before the `=` of an assignment that reads its place.
#[derive(Clone, Copy, Debug, PartialEq, Eq)]
pub enum Change {
    /// `+=`, `-=`, `*=`, `/=`, `%=`
    By(Binary),
    /// `..=`
    Join,
}

/// `++` or `--`, before its place or after it.
#[derive(Clone, Copy, Debug, PartialEq, Eq)]
pub enum Step {
    /// `++$x`
    IncrementFirst,
    /// `--$x`
    DecrementFirst,
    /// `$x++`
    IncrementAfter,
    /// `$x--`
    DecrementAfter,
}

/// An expression.
#[cycle(expr)]
#[derive(Drop)]
pub struct Expr {
    /// The line of its first token.
    pub line: u32,
    /// The number of its first token.
    pub token: u32,
    /// What it is.
    pub node: Node,
}

/// What an expression is.
#[cycle(expr)]
#[derive(Drop)]
pub enum Node {
    /// A literal.
    Literal(Literal),
    /// A text in double quotes that names variables.
    Mixed(Parts),
    /// A variable with its steps.
    Var(Text, Items<Access>),
    /// A primary that is no variable with its steps, at least one.
    Path(Boxed<Expr>, Items<Access>),
    /// `(e)`
    Group(Boxed<Expr>),
    /// `[e, ..]`
    List(Items<Expr>),
    /// `{name: e, ..}`
    Object(Items<Entry>),
    /// A call of a function by its name, with its arguments.
    Call(Text, Items<Expr>),
    /// A call of the function that a variable names, with its arguments.
    VarCall(Text, Items<Expr>),
    /// A function without a name, by its number, from 1. The program keeps its parameters and its block.
    Lambda(u32),
    /// `-e`
    Negate(Boxed<Expr>),
    /// `!e`
    Not(Boxed<Expr>),
    /// `++` or `--`
    Step(Step, Place),
    /// The first operand of a chain of `||`, and the others.
    Or(Boxed<Expr>, Items<Expr>),
    /// The first operand of a chain of `&&`, and the others.
    And(Boxed<Expr>, Items<Expr>),
    /// The operands of a chain of `..`.
    Join(Items<Expr>),
    /// A chain of comparisons or of arithmetic, of one level.
    Chain(Boxed<Expr>, Items<Link>),
    /// `test ? e : e`
    Cond(Boxed<Expr>, Boxed<Expr>, Boxed<Expr>),
    /// `place = e`
    Assign(Place, Boxed<Expr>),
    /// `place[] = e`
    Append(Place, Boxed<Expr>),
    /// `place += e` and its kin
    Change(Place, Change, Boxed<Expr>),
}

/// An operator of a chain and the operand behind it.
#[cycle(expr)]
#[derive(Drop)]
pub struct Link {
    /// The operator.
    pub op: Binary,
    /// The operand.
    pub operand: Expr,
}

/// A member of an object literal.
#[cycle(expr)]
#[derive(Drop)]
pub struct Entry {
    /// The member's name.
    pub name: Text,
    /// Its value.
    pub value: Expr,
}

/// A step into a value.
#[cycle(expr)]
#[derive(Drop)]
pub enum Access {
    /// `.name`
    Member(Text),
    /// `[e]`
    Index(Expr),
}

/// A variable with its steps, which can be written.
#[cycle(expr)]
#[derive(Drop)]
pub struct Place {
    /// The variable's name without `$`.
    pub name: Text,
    /// The steps.
    pub steps: Items<Access>,
}

//! Whole programs.

ghost use Rattle.jx9_syntax.specs.Nesting.{ProgramFits, most_nesting};

use crate::statement::Statement;
use sqlite_items::Items;
use uq_value::Text;

/// The parameters and the block of a function of the text or of a lambda.
#[derive(Drop)]
pub struct Function {
    /// The parameters' names without `$`.
    pub params: Items<Text>,
    /// The block.
    pub body: Statement,
}

/// A function definition.
#[derive(Drop)]
pub struct Named {
    /// The line of the word `function`.
    pub line: u32,
    /// The number of that word among the tokens.
    pub token: u32,
    /// The function's name.
    pub name: Text,
    /// Its parameters and its block.
    pub function: Function,
}

/// A program, whose nesting is at most 200.
#[derive(Drop)]
pub struct Program {
    /// The function definitions, in order of text.
    pub functions: Items<Named>,
    /// The lambdas by their numbers, from 1: in order of their words `function`, so an outer one before those in it.
    pub lambdas: Items<Function>,
    /// The statements at the top, in order of text.
    pub statements: Items<Statement>,
    ghost nested: { ∥ ProgramFits most_nesting functions lambdas statements ∥₁ },
}

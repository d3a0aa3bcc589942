//! A law of lists of tokens, the contract of a function that does nothing.

ghost use Rattle.std.specs.Prelude.{List};
ghost use Rattle.jx9_parse.specs.OneProgram.{HasOneProgram};
ghost use Rattle.jx9_syntax.specs.declared.token.Token.{Token};

/// A list of tokens has at most one program, or at most one token of it is dead, and never both. It has one of both
/// where its one `End` stands last.
pub fn one_program()
    ensures { (tokens : List Token) → HasOneProgram tokens }
{}

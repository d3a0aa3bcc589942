//! Laws of lists of tokens, each the contract of a function that does nothing.

ghost use Rattle.std.specs.Prelude.{List};
ghost use Rattle.uq_value.specs.Data.{Bytes};
ghost use Rattle.jx9_syntax.specs.Program.{IsTokens};
ghost use Rattle.jx9_syntax.specs.Tokens.{Lexes};
ghost use Rattle.jx9_syntax.specs.declared.token.Token.{Token};

/// The tokens of a text have one `End`, which is the last.
pub fn lists_end()
    ensures { (text : Bytes) (tokens : List Token) → Lexes 1 text tokens → IsTokens tokens }
{}

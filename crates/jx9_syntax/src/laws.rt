//! Laws of the definitions, each the contract of a function that does nothing.

ghost use Rattle.std.specs.Prelude.{List};
ghost use Rattle.uq_value.specs.Data.{Bytes};
ghost use Rattle.jx9_syntax.specs.Quoted.{Piece, parts_of, StandApart};
ghost use Rattle.jx9_syntax.specs.Tokens.{HasOneAnswer};
ghost use Rattle.jx9_syntax.specs.Front.{front, IsFront};

/// What the definition `front` takes off a text is a word of a byte at least, and the longest that stands there. Where
/// it takes nothing, nothing stands there.
pub fn front_is_longest()
    ensures { (text : Bytes) → IsFront text (front text) }
{}

/// A text has one list of tokens, or none, and then it is stuck at one line.
pub fn one_list()
    ensures { (text : Bytes) → HasOneAnswer text }
{}

/// Among the parts of a text in quotes no text is empty, and no two texts stand side by side.
pub fn parts_stand_apart()
    ensures { (ps : List Piece) → StandApart (parts_of ps) }
{}

//! Words that stand in the grammar by themselves.

ghost use Rattle.std.specs.Prelude.{◌≡◌};
ghost use Rattle.jx9_parse.specs.Keywords.{keyword_code};

/// A word that stands in the grammar by itself.
#[derive(Clone, Copy)]
pub(crate) enum Keyword {
    Function,
    Print,
    If,
    While,
    For,
    Foreach,
    Return,
    Break,
    Continue,
    As,
    Else,
    Elseif,
}

/// Its number among the tokens.
pub(crate) fn keyword_number(keyword: Keyword) -> u8
    ensures { result ≡ keyword_code keyword }
{
    match keyword {
        Keyword::Function => 9,
        Keyword::Print => 21,
        Keyword::If => 22,
        Keyword::While => 23,
        Keyword::For => 24,
        Keyword::Foreach => 25,
        Keyword::Return => 26,
        Keyword::Break => 27,
        Keyword::Continue => 28,
        Keyword::As => 37,
        Keyword::Else => 38,
        Keyword::Elseif => 39,
    }
}

//! Tokens by their numbers, which tell apart what the grammar tells apart.

ghost use Rattle.std.specs.Prelude.{◌≡◌};
ghost use Rattle.jx9_syntax.specs.Grammar.{code, sign_code, word_code};

use jx9_syntax::{Sign, Token, TokenKind};

/// The number of a token.
pub(crate) fn token_number(token: &Token) -> u8
    ensures { result ≡ code token.now }
{
    match &token.kind {
        TokenKind::End => 0,
        TokenKind::Int(_) => 1,
        TokenKind::Text(_) => 2,
        TokenKind::Mixed(_) => 3,
        TokenKind::Name(name) => word_number(name.bytes()),
        TokenKind::Sign(sign) => sign_number(*sign),
        TokenKind::Var(_) => 17,
    }
}

/// The number of a sign.
pub(crate) fn sign_number(sign: Sign) -> u8
    ensures { result ≡ sign_code sign }
{
    match sign {
        Sign::OpenParen => 10,
        Sign::OpenBracket => 11,
        Sign::OpenBrace => 12,
        Sign::Minus => 13,
        Sign::Not => 14,
        Sign::Increment => 15,
        Sign::Decrement => 16,
        Sign::Semicolon => 20,
        Sign::CloseParen => 30,
        Sign::CloseBracket => 31,
        Sign::CloseBrace => 32,
        Sign::Comma => 33,
        Sign::Colon => 34,
        Sign::Question => 35,
        Sign::Dot => 36,
        Sign::Assign => 40,
        Sign::PlusAssign => 41,
        Sign::MinusAssign => 42,
        Sign::TimesAssign => 43,
        Sign::DivideAssign => 44,
        Sign::RemainderAssign => 45,
        Sign::JoinAssign => 46,
        Sign::Times => 50,
        Sign::Divide => 51,
        Sign::Remainder => 52,
        Sign::Plus => 53,
        Sign::Join => 54,
        Sign::Less => 55,
        Sign::LessOrEqual => 56,
        Sign::Greater => 57,
        Sign::GreaterOrEqual => 58,
        Sign::Equal => 59,
        Sign::NotEqual => 60,
        Sign::Same => 61,
        Sign::NotSame => 62,
        Sign::And => 63,
        Sign::Or => 64,
    }
}

/// The number of a name: its own where it is reserved, else 8.
fn word_number(name: &[u8]) -> u8
    ensures { result ≡ word_code name.now }
{
    if name == "null".as_bytes() {
        4
    } else if name == "NULL".as_bytes() {
        4
    } else if name == "true".as_bytes() {
        5
    } else if name == "TRUE".as_bytes() {
        5
    } else if name == "false".as_bytes() {
        6
    } else if name == "FALSE".as_bytes() {
        6
    } else if name == "JX9_EOL".as_bytes() {
        7
    } else if name == "function".as_bytes() {
        9
    } else if name == "print".as_bytes() {
        21
    } else if name == "if".as_bytes() {
        22
    } else if name == "while".as_bytes() {
        23
    } else if name == "for".as_bytes() {
        24
    } else if name == "foreach".as_bytes() {
        25
    } else if name == "return".as_bytes() {
        26
    } else if name == "break".as_bytes() {
        27
    } else if name == "continue".as_bytes() {
        28
    } else if name == "as".as_bytes() {
        37
    } else if name == "else".as_bytes() {
        38
    } else if name == "elseif".as_bytes() {
        39
    } else if name == "switch".as_bytes() {
        70
    } else if name == "case".as_bytes() {
        71
    } else if name == "default".as_bytes() {
        72
    } else if name == "uplink".as_bytes() {
        73
    } else {
        8
    }
}

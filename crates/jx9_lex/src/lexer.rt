//! All tokens of a script.

ghost use Rattle.std.specs.Prelude.{◌≡◌, ◌+◌, ◌^◌, ◌<◌, ◌≤◌, ◌++◌, length, IfOk, IfErr, OnOk};
ghost use Rattle.jx9_syntax.specs.Bytes.{breaks};
ghost use Rattle.jx9_syntax.specs.Program.{IsTokens};
ghost use Rattle.jx9_syntax.specs.Tokens.{Lexes};
ghost use Rattle.jx9_lex.specs.Answer.{IsLexFault, tokens_of, FaultAt};
ghost use Rattle.jx9_lex.specs.declared.error.LexFault.TheVariants.{Memory};

use crate::cutting::first_lexeme;
use crate::error::LexFault;
use crate::stop::Stop;
use jx9_syntax::{Token, TokenKind, front_is_longest};
use std::alloc::Global;

/// The tokens of a script, cut off its front, the longest first, and one `End`. It is `Bad` exactly where some byte
/// begins no token, with the line of the first such byte. There are fewer tokens than 2^32, and no other one is an `End`.
pub fn lex(alloc: Global, text: &[u8]) -> Result<Vec<Token>, LexFault>
    requires { length text.now ≤ 2 ^ 24 }
    ensures tokens { IfOk result (λ tokens. Lexes 1 text.now tokens.items) }
    ensures ended { IfOk result (λ tokens. IsTokens tokens.items) }
    ensures counted { IfOk result (λ tokens. length tokens.items < 2 ^ 32) }
    ensures fault { IfErr result (IsLexFault text.now) }
{
    front_is_longest();
    let mut tokens = Vec::new(alloc);
    let mut rest = text;
    let mut line = 1u32;
    while !rest.is_empty() {
        let (kind, after) = match first_lexeme(alloc, rest) {
            Ok(found) => found,
            Err(stop) => return Err(fault_at(stop, line)),
        };
        push(&mut tokens, kind, line)?;
        line += line_feeds(&rest[..rest.len() - after.len()]);
        rest = after;
    }
    push(&mut tokens, Some(TokenKind::End), line)?;
    Ok(tokens)
}

/// Why a script has no tokens, of which nothing is cut off in this line.
fn fault_at(stop: Stop, line: u32) -> LexFault
    ensures { FaultAt line stop result }
{
    match stop {
        Stop::Bad => LexFault::Bad { line },
        Stop::Memory => LexFault::Memory,
    }
}

/// Puts the token, where there is one, to the end.
fn push(tokens: &mut Vec<Token>, kind: Option<TokenKind>, line: u32) -> Result<(), LexFault>
    ensures ok { OnOk result (tokens.new.items ≡ tokens.old.items ++ tokens_of line kind) }
    ensures err { IfErr result (λ e. e ≡ Memory) }
{
    let Some(kind) = kind else {
        return Ok(());
    };
    match tokens.push(Token { kind, line }) {
        Ok(()) => Ok(()),
        Err(_) => Err(LexFault::Memory),
    }
}

/// How many line feeds there are.
fn line_feeds(word: &[u8]) -> u32
    requires { length word.now ≤ 2 ^ 24 }
    ensures count { result ≡ breaks word.now }
    ensures within { result ≤ length word.now }
{
    word.iter().filter(|byte| **byte == b'\n').count() as u32
}

//! What stands at the front of a text: a token, blanks, or a comment.

ghost use Rattle.std.specs.Prelude.{◌≡◌, true};
ghost use Rattle.std.specs.Option.{option_map};
ghost use Rattle.jx9_syntax.specs.Tokens.{behind_comment as spec_behind_comment};
ghost use Rattle.jx9_syntax.specs.Front.{Taken, front, variable_at, of_sign};
ghost use Rattle.jx9_syntax.specs.Signs.{sign_at as spec_sign_at};
ghost use Rattle.jx9_lex.specs.Numbers.{begins_with};
ghost use Rattle.jx9_lex.specs.Cuts.{Cuts, CutsToken, CutsName, first_other, first_slash, is_slash};

use crate::class::{Class, is_letter, split_run};
use crate::numbers::number;
use crate::quoted::quoted;
use crate::signs::sign_at;
use crate::stop::Stop;
use crate::text::new_text;
use jx9_syntax::TokenKind;
use std::alloc::Global;
use uq_value::Text;

/// The longest token at the front, or None where blanks or a comment stand there, and what stands behind it.
#[tactic(auto, unfolding(jx9_syntax::specs::Front::front))]
pub(crate) fn first_lexeme(alloc: Global, text: &[u8]) -> Result<(Option<TokenKind>, &[u8]), Stop>
    ensures { Cuts result (front text.now) }
{
    let [first, ..] = text else {
        return Err(Stop::Bad);
    };
    if is_letter(*first) {
        let (name, rest) = name(alloc, text)?;
        return Ok((Some(TokenKind::Name(name)), rest));
    }
    if first.is_ascii_digit() {
        let (z, rest) = number(text)?;
        return Ok((Some(TokenKind::Int(z)), rest));
    }
    other(alloc, text)
}

/// What begins with no letter and no digit.
fn other(alloc: Global, text: &[u8]) -> Result<(Option<TokenKind>, &[u8]), Stop>
    ensures { Cuts result (first_other text.now) }
{
    match text {
        [0x09..=0x0d | b' ', ..] => Ok((None, split_run(Class::Blank, text).1)),
        [b'$', rest @ ..] => token(variable(alloc, rest)),
        [b'"', rest @ ..] => token(quoted(alloc, b'"', rest)),
        [b'\'', rest @ ..] => token(quoted(alloc, b'\'', rest)),
        [b'#', rest @ ..] => Ok((None, split_run(Class::InLine, rest).1)),
        [b'/', ..] => slash(text),
        _ => sign(text),
    }
}

/// A token as what stands at the front.
fn token(cut: Result<(TokenKind, &[u8]), Stop>) -> Result<(Option<TokenKind>, &[u8]), Stop>
    ensures { (taken : Taken) → CutsToken cut.entry taken → Cuts result taken }
{
    let (kind, rest) = cut?;
    Ok((Some(kind), rest))
}

/// The run of letters, digits and `_` at the front, as a text, and what stands behind it.
fn name(alloc: Global, text: &[u8]) -> Result<(Text, &[u8]), Stop>
    ensures { CutsName result text.now }
{
    let (word, rest) = split_run(Class::Name, text);
    let name = new_text(alloc, word)?;
    Ok((name, rest))
}

/// A variable, here behind its `$`, and what stands behind it.
fn variable(alloc: Global, text: &[u8]) -> Result<(TokenKind, &[u8]), Stop>
    ensures { CutsToken result (variable_at text.now) }
{
    match text {
        [first, ..] if is_letter(*first) => {
            let (name, rest) = name(alloc, text)?;
            Ok((TokenKind::Var(name), rest))
        }
        _ => Err(Stop::Bad),
    }
}

/// A comment, or a sign that begins with `/`.
fn slash(text: &[u8]) -> Result<(Option<TokenKind>, &[u8]), Stop>
    requires { begins_with is_slash text.now ≡ true }
    ensures { Cuts result (first_slash text.now) }
{
    match text {
        [_, b'/', line @ ..] => Ok((None, split_run(Class::InLine, line).1)),
        [_, b'*', inner @ ..] => match behind_comment(inner) {
            Some(rest) => Ok((None, rest)),
            None => Err(Stop::Bad),
        },
        _ => sign(text),
    }
}

/// What stands behind the first `*/`.
fn behind_comment(text: &[u8]) -> Option<&[u8]>
    ensures { option_map (λ rest. rest.now) result ≡ spec_behind_comment text.now }
{
    let mut rest = text;
    while let [first, behind @ ..] = rest {
        if *first == b'*' {
            if let [b'/', after @ ..] = behind {
                return Some(after);
            }
        }
        rest = behind;
    }
    None
}

/// The longest sign, and what stands behind it.
fn sign(text: &[u8]) -> Result<(Option<TokenKind>, &[u8]), Stop>
    ensures { Cuts result (of_sign (spec_sign_at text.now)) }
{
    match sign_at(text) {
        Some((sign, rest)) => Ok((Some(TokenKind::Sign(sign)), rest)),
        None => Err(Stop::Bad),
    }
}

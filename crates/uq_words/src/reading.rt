//! Reading a line as words.
ghost use Rattle.std.specs.Prelude.{◌≡◌, ◌<◌, ◌≤◌, ◌∷◌, ◌++◌, [], true, length, map, IfOk, IfErr, OnOk};
ghost use Rattle.std.specs.List.{position_or_len};
ghost use Rattle.uq_words.specs.Texts.{AnswersWords, SplitsWord};
ghost use Rattle.uq_words.specs.Words.{bare_front, begins_with_quote, behind_blanks, ended, ends_bare as spec_ends_bare, is_blank as spec_is_blank, may_follow as spec_may_follow, starts_word, word_front};

use crate::{Words, WordsFault};
use std::alloc::Global;
use uq_json::split_string;

/// The words of a line: bare ones, which have no blank and no quote, and JSON strings, with blanks (space and tab)
/// between them. It is `Bad` exactly where the line is not made of such words.
pub fn read_words(alloc: Global, line: &[u8]) -> Result<Words, WordsFault>
    ensures { AnswersWords line.now result }
{
    let mut list = Vec::new(alloc);
    let mut rest = skip_blanks(line);
    'words: while !rest.is_empty() {
        let (word, behind) = split_word(alloc, rest)?;
        push(&mut list, word)?;
        rest = skip_blanks(behind);
    }
    Ok(Words { list })
}

fn push(list: &mut Vec<Vec<u8>>, word: Vec<u8>) -> Result<(), WordsFault>
    ensures ok { OnOk result (map (λ word. word.items) list.new.items ≡ map (λ word. word.items) list.old.items ++ word.items ∷ []) }
    ensures err { IfErr result (λ fault. fault ≡ WordsFault.Memory) }
{
    match list.push(word) {
        Ok(()) => Ok(()),
        Err(_) => Err(WordsFault::Memory),
    }
}

/// The text behind the blanks at its front.
pub(crate) fn skip_blanks(text: &[u8]) -> &[u8]
    ensures { result.now ≡ behind_blanks text.now }
{
    let mut count = 0;
    while count < text.len() && is_blank(text[count]) {
        count += 1;
    }
    &text[count..]
}

/// The word at the front of the text, behind which a blank or the end has to stand, and the text behind it.
fn split_word(alloc: Global, text: &[u8]) -> Result<(Vec<u8>, &[u8]), WordsFault>
    requires { starts_word text.now ≡ true }
    ensures shorter { IfOk result (λ x. length x.1.now < length text.now) }
    ensures splits { SplitsWord (λ x. (x.0.items, x.1.now)) (ended (word_front text.now)) result }
{
    let (word, behind) = split_any(alloc, text)?;
    if may_follow(behind) {
        Ok((word, behind))
    } else {
        Err(WordsFault::Bad)
    }
}

/// The word at the front of the text, and the text behind it, whatever that is.
fn split_any(alloc: Global, text: &[u8]) -> Result<(Vec<u8>, &[u8]), WordsFault>
    requires { starts_word text.now ≡ true }
    ensures shorter { IfOk result (λ x. length x.1.now < length text.now) }
    ensures splits { SplitsWord (λ x. (x.0.items, x.1.now)) (word_front text.now) result }
{
    if is_quoted(text) {
        let (word, behind) = split_string(alloc, text)?;
        Ok((word, behind))
    } else {
        let (word, behind) = split_bare(text);
        Ok((Vec::from_slice(alloc, word)?, behind))
    }
}

/// The bare word at the front of the text, and the text behind it.
fn split_bare(text: &[u8]) -> (&[u8], &[u8])
    ensures word { result.0.now ≡ (bare_front text.now).0 }
    ensures rest { result.1.now ≡ (bare_front text.now).1 }
{
    text.split_at(bare_len(text))
}

fn bare_len(text: &[u8]) -> usize
    ensures place { result ≡ position_or_len spec_ends_bare text.now }
    ensures within { result ≤ length text.now }
{
    for (at, byte) in text.iter().enumerate() {
        if ends_bare(*byte) {
            return at;
        }
    }
    text.len()
}

fn is_quoted(text: &[u8]) -> bool
    ensures { result ≡ begins_with_quote text.now }
{
    text.first() == Some(&b'"')
}

fn may_follow(text: &[u8]) -> bool
    ensures { result ≡ spec_may_follow text.now }
{
    match text {
        [] => true,
        [byte, ..] => is_blank(*byte),
    }
}

fn ends_bare(byte: u8) -> bool
    ensures { result ≡ spec_ends_bare byte }
{
    is_blank(byte) || byte == b'"'
}

fn is_blank(byte: u8) -> bool
    ensures { result ≡ spec_is_blank byte }
{
    byte == b' ' || byte == b'\t'
}

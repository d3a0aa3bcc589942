//! What the words of the program ask for.
ghost use Rattle.std.specs.Prelude.{◌≡◌, ◌≤◌, ◌++◌, IfOk, OnOk, length, map, string_bytes};
ghost use Rattle.std.specs.List.{after_first, before_first, list_any, position_or_len};
ghost use Rattle.uq_words.specs.Options.{begins_with_dash as spec_begins_with_dash, is_dashes as spec_is_dashes, most_budget};
ghost use Rattle.uq_model.specs.declared.limits.TheConstants.{MOST_BYTES, MOST_ENTRIES};
ghost use Rattle.uq_words.specs.Texts.{AnswersOptions, AnswersOrder, AnswersPlain, texts, texts_of};

use crate::settings::{Given, Setting, read_settings};
use crate::{OptionsFault, Words};
use std::alloc::{AllocError, Global};
use uq_model::Limits;

/// What the words of the program ask for.
#[derive(Debug, Drop)]
pub struct Order {
    /// The units of each script.
    pub budget: u64,
    /// How many entries the store may hold.
    pub max_entries: u64,
    /// How many bytes the store may hold.
    pub max_bytes: u64,
    /// The database.
    pub name: Name,
    /// The words of a command. None of them asks for the commands of the input.
    pub words: Words,
}

/// The name of a database. It is not empty.
#[derive(Debug, Drop)]
pub struct Name {
    pub(crate) text: String,
}

impl Order {
    ghost use Rattle.std.specs.Prelude.{◌≡◌};

    /// How much the store may hold.
    pub fn limits(&self) -> Limits
        ensures { result ≡ record { entries = self.now.max_entries; bytes = self.now.max_bytes } }
    {
        Limits {
            entries: self.max_entries,
            bytes: self.max_bytes,
        }
    }
}

impl Name {
    ghost use Rattle.std.specs.Prelude.{◌≡◌, string_bytes};

    /// The word as it stood.
    pub fn text(&self) -> &str
        ensures { result.now ≡ string_bytes self.now.text }
    {
        self.text.as_str()
    }
}

/// What the words ask for: options `--budget N`, `--max-entries N` and `--max-bytes N` first, each at most once; then
/// the name of a database; then the words of a command. `--` is dropped, and all words behind it are plain; before it,
/// every other word that begins with a dash is `Usage`. N is decimal digits alone, from 1 to the most that the option
/// may give.
pub fn read_options(alloc: Global, words: &[String]) -> Result<Order, OptionsFault>
    ensures answers { AnswersOptions (texts words.now) result }
    ensures budget { IfOk result (λ order. order.budget ≤ most_budget) }
    ensures entries { IfOk result (λ order. order.max_entries ≤ MOST_ENTRIES) }
    ensures bytes { IfOk result (λ order. order.max_bytes ≤ MOST_BYTES) }
{
    match read_settings(words) {
        Some((given, words)) => read_order(alloc, given, words),
        None => Err(OptionsFault::Usage),
    }
}

/// What the words behind the options ask for.
fn read_order(alloc: Global, given: Given, words: &[String]) -> Result<Order, OptionsFault>
    ensures { AnswersOrder given (texts words.now) result }
{
    let plain = plain_words(alloc, words)?;
    match plain.as_slice() {
        [name, words @ ..] if !name.is_empty() => Ok(Order {
            budget: given.value(Setting::Budget),
            max_entries: given.value(Setting::MaxEntries),
            max_bytes: given.value(Setting::MaxBytes),
            name: Name {
                text: String::from_str(alloc, name)?,
            },
            words: copy_words(alloc, words)?,
        }),
        _ => Err(OptionsFault::Usage),
    }
}

/// The words without the first `--`, before which none may begin with a dash.
fn plain_words<'a>(alloc: Global, words: &'a [String]) -> Result<Vec<&'a str>, OptionsFault>
    ensures { AnswersPlain (λ list. map (λ word. word.now) list.items) (texts words.now) result }
{
    let (before, behind) = split_at_dashes(words);
    if has_dash(before) {
        return Err(OptionsFault::Usage);
    }
    let mut plain = Vec::new(alloc);
    push_words(&mut plain, before)?;
    push_words(&mut plain, behind)?;
    Ok(plain)
}

/// Whether a word begins with a dash.
fn has_dash(words: &[String]) -> bool
    ensures { result ≡ list_any (λ word. spec_begins_with_dash (string_bytes word)) words.now }
{
    words.iter().any(begins_with_dash)
}

fn push_words<'a>(plain: &mut Vec<&'a str>, words: &'a [String]) -> Result<(), AllocError>
    ensures { OnOk result (map (λ word. word.now) plain.new.items ≡ map (λ word. word.now) plain.old.items ++ texts words.now) }
{
    for word in words {
        plain.push(word.as_str()).map_err(AllocError::from)?;
    }
    Ok(())
}

fn copy_words(alloc: Global, words: &[&str]) -> Result<Words, AllocError>
    ensures { IfOk result (λ copies. texts_of copies ≡ map (λ word. word.now) words.now) }
{
    let mut list = Vec::new(alloc);
    for word in words {
        let copy = Vec::from_slice(alloc, word.as_bytes())?;
        list.push(copy).map_err(AllocError::from)?;
    }
    Ok(Words { list })
}

/// The words before the first `--`, and those behind it.
fn split_at_dashes(words: &[String]) -> (&[String], &[String])
    ensures before { texts result.0.now ≡ before_first spec_is_dashes (texts words.now) }
    ensures behind { texts result.1.now ≡ after_first spec_is_dashes (texts words.now) }
{
    let at = place_of_dashes(words);
    (&words[..at], &words[words.len().min(at + 1)..])
}

/// Where the first `--` stands; how many words there are, where none does.
fn place_of_dashes(words: &[String]) -> usize
    ensures place { result ≡ position_or_len (λ word. spec_is_dashes (string_bytes word)) words.now }
    ensures within { result ≤ length words.now }
{
    for (at, word) in words.iter().enumerate() {
        if is_dashes(word) {
            return at;
        }
    }
    words.len()
}

fn is_dashes(word: &String) -> bool
    ensures { result ≡ spec_is_dashes (string_bytes word.now) }
{
    word.as_str() == "--"
}

fn begins_with_dash(word: &String) -> bool
    ensures { result ≡ spec_begins_with_dash (string_bytes word.now) }
{
    word.as_str().as_bytes().first() == Some(&b'-')
}

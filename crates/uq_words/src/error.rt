//! Why words are not in form.
ghost use Rattle.std.specs.Prelude.{◌≡◌};
ghost use Rattle.uq_words.specs.declared.error.OptionsFault.TheVariants as options;
ghost use Rattle.uq_words.specs.declared.error.WordsFault.TheVariants as words;

use std::alloc::AllocError;
use uq_json::JsonFault;

/// Why a line has no words.
#[derive(Clone, Copy, Debug, PartialEq, Eq)]
pub enum WordsFault {
    /// A bare word has a quote in it, or a word that begins with one is no JSON string, or goes on behind its end.
    Bad,
    /// Memory was asked for and not had.
    Memory,
}

/// Why the words of the program ask for nothing.
#[derive(Clone, Copy, Debug, PartialEq, Eq)]
pub enum OptionsFault {
    /// They are in no form: an option is unknown, stands in another place, is repeated or has no number within its
    /// limit; or no database is named.
    Usage,
    /// Memory was asked for and not had.
    Memory,
}

impl From<AllocError> for WordsFault {
    ghost from_gives = { λ _ e. e ≡ words.Memory };

    fn from(_missing: AllocError) -> WordsFault {
        WordsFault::Memory
    }
}

impl From<JsonFault> for WordsFault {
    ghost use Rattle.uq_words.specs.Texts.{word_fault};

    ghost from_gives = { λ fault e. e ≡ word_fault fault };

    fn from(fault: JsonFault) -> WordsFault {
        match fault {
            JsonFault::NotJson | JsonFault::TooDeep | JsonFault::TooLarge => WordsFault::Bad,
            JsonFault::Memory => WordsFault::Memory,
        }
    }
}

impl From<AllocError> for OptionsFault {
    ghost from_gives = { λ _ e. e ≡ options.Memory };

    fn from(_missing: AllocError) -> OptionsFault {
        OptionsFault::Memory
    }
}

/// Why no line was taken.
#[derive(Clone, Copy, Debug, PartialEq, Eq)]
pub enum InputFault {
    /// A take of the source failed.
    Source,
    /// Memory was asked for and not had.
    Memory,
}

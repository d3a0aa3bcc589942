//! The options of the program, each of which gives a number.
ghost use Rattle.std.specs.Prelude.{◌≡◌, ◌≤◌, ◌^◌, string_bytes};
ghost use Rattle.uq_words.specs.Options.{number, once};
ghost use Rattle.uq_words.specs.Texts.{ReadsSettings, texts};

use uq_model::{MOST_BYTES, MOST_ENTRIES};

/// The most units that a script may have: 10^12.
pub const MOST_BUDGET: u64 = 1_000_000_000_000;

/// The units of a script where no option says otherwise.
const USUAL_BUDGET: u64 = 10_000_000;

/// An option of the program.
#[derive(Clone, Copy, Debug, PartialEq, Eq)]
pub(crate) enum Setting {
    Budget,
    MaxEntries,
    MaxBytes,
}

/// The numbers that options have given.
#[derive(Clone, Copy, Drop)]
pub(crate) struct Given {
    budget: Option<u64>,
    max_entries: Option<u64>,
    max_bytes: Option<u64>,
}

impl Setting {
    ghost use Rattle.std.specs.Prelude.{◌≡◌, ◌≤◌, ◌^◌, string_bytes};
    ghost use Rattle.std.specs.Option.{option_map};
    ghost use Rattle.uq_words.specs.Options.{greatest as spec_greatest, setting as spec_setting, usual as spec_usual};
    ghost use Rattle.uq_words.specs.Texts.{setting_as};

    /// The option that a word is.
    fn named(word: &String) -> Option<Setting>
        ensures { option_map setting_as result ≡ spec_setting (string_bytes word.now) }
    {
        match word.as_str() {
            "--budget" => Some(Setting::Budget),
            "--max-entries" => Some(Setting::MaxEntries),
            "--max-bytes" => Some(Setting::MaxBytes),
            _ => None,
        }
    }

    /// The greatest number that it may give.
    fn greatest(self) -> u64
        ensures number { result ≡ spec_greatest (setting_as self) }
        ensures small { result ≤ 2 ^ 40 }
    {
        match self {
            Setting::Budget => MOST_BUDGET,
            Setting::MaxEntries => MOST_ENTRIES,
            Setting::MaxBytes => MOST_BYTES,
        }
    }

    /// The number that holds where it gives none.
    fn usual(self) -> u64
        ensures { result ≡ spec_usual (setting_as self) }
    {
        match self {
            Setting::Budget => USUAL_BUDGET,
            Setting::MaxEntries => MOST_ENTRIES,
            Setting::MaxBytes => MOST_BYTES,
        }
    }
}

impl Given {
    ghost use Rattle.std.specs.Prelude.{◌≡◌, string_bytes};
    ghost use Rattle.std.specs.Option.{option_map};
    ghost use Rattle.uq_words.specs.Options.{give, given, gives, no_numbers, value_of};
    ghost use Rattle.uq_words.specs.Texts.{numbers_of, setting_as};

    fn none() -> Given
        ensures { numbers_of result ≡ no_numbers }
    {
        Given {
            budget: None,
            max_entries: None,
            max_bytes: None,
        }
    }

    fn get(self, setting: Setting) -> Option<u64>
        ensures { result ≡ given (setting_as setting) (numbers_of self) }
    {
        match setting {
            Setting::Budget => self.budget,
            Setting::MaxEntries => self.max_entries,
            Setting::MaxBytes => self.max_bytes,
        }
    }

    /// The number that holds.
    pub(crate) fn value(self, setting: Setting) -> u64
        ensures { result ≡ value_of (setting_as setting) (numbers_of self) }
    {
        self.get(setting).unwrap_or(setting.usual())
    }

    /// With the number of an option that was not given before.
    fn with(self, setting: Setting, text: &String) -> Option<Given>
        ensures { option_map numbers_of result ≡ option_map (λ n. give (setting_as setting) n (numbers_of self))
            (gives (numbers_of self) (setting_as setting) (string_bytes text.now)) }
    {
        let number = Some(read_once(self.get(setting), text, setting.greatest())?);
        Some(match setting {
            Setting::Budget => Given {
                budget: number,
                ..self
            },
            Setting::MaxEntries => Given {
                max_entries: number,
                ..self
            },
            Setting::MaxBytes => Given {
                max_bytes: number,
                ..self
            },
        })
    }
}

/// The numbers of the options at the front, and the words behind these.
pub(crate) fn read_settings(words: &[String]) -> Option<(Given, &[String])>
    ensures { ReadsSettings (texts words.now) result }
{
    let mut given = Given::none();
    let mut rest = words;
    'options: loop {
        let [word, text, others @ ..] = rest else {
            return Some((given, rest));
        };
        let Some(setting) = Setting::named(word) else {
            return Some((given, rest));
        };
        given = given.with(setting, text)?;
        rest = others;
    }
}

/// The number of an option that was not given before.
fn read_once(before: Option<u64>, text: &String, most: u64) -> Option<u64>
    requires { most ≤ 2 ^ 40 }
    ensures { result ≡ once before (number most (string_bytes text.now)) }
{
    match before {
        Some(_) => None,
        None => read_number(text.as_str().as_bytes(), most),
    }
}

/// The number that decimal digits alone stand for, where it is from 1 to the most.
fn read_number(text: &[u8], most: u64) -> Option<u64>
    requires { most ≤ 2 ^ 40 }
    ensures { result ≡ number most text.now }
{
    let mut value: u64 = 0;
    let mut rest = text;
    'digits: while let [byte, others @ ..] = rest {
        if !byte.is_ascii_digit() {
            return None;
        }
        value = value * 10 + u64::from(*byte - b'0');
        if value > most {
            return None;
        }
        rest = others;
    }
    if value == 0 { None } else { Some(value) }
}

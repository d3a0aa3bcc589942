//! What the words make of the input.
ghost use Rattle.std.specs.Prelude.{◌≡◌, map};
ghost use Rattle.uq_shell.specs.Modes.{mode_in};
ghost use Rattle.uq_shell.specs.Stream.{mode_of};

use crate::asking::is_script;

/// What the words make of the input.
#[derive(Clone, Copy, Debug)]
pub enum Mode<'a> {
    /// Commands and blocks, line by line.
    Lines,
    /// One script.
    Script,
    /// Nothing: the words are a command.
    Words(&'a [Vec<u8>]),
}

impl<'a> Mode<'a> {
    /// What words behind the name of a database make of it.
    pub fn of(words: &'a [Vec<u8>]) -> Mode<'a>
        ensures { mode_in result ≡ mode_of (map (λ word. word.items) words.now) }
    {
        if words.is_empty() {
            Mode::Lines
        } else if is_script(words) {
            Mode::Script
        } else {
            Mode::Words(words)
        }
    }
}

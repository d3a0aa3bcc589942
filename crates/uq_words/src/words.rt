//! Words: byte strings of any length.

/// The words of a line, or those of the program behind its options.
#[derive(Debug, Drop)]
pub struct Words {
    pub(crate) list: Vec<Vec<u8>>,
}

impl Words {
    ghost use Rattle.std.specs.Prelude.{◌≡◌, length, map, slice_get};
    ghost use Rattle.std.specs.Option.{option_map};
    ghost use Rattle.uq_words.specs.Texts.{texts_of};

    /// How many there are.
    pub fn len(&self) -> usize
        ensures { result ≡ length (texts_of self.now) }
    {
        self.list.len()
    }

    /// The word with this number, from 0 on.
    pub fn word(&self, at: usize) -> Option<&[u8]>
        ensures { option_map (λ word. word.now) result ≡ slice_get (texts_of self.now) at }
    {
        match self.list.get(at) {
            Some(word) => Some(word.as_slice()),
            None => None,
        }
    }

    /// All of them.
    pub fn as_slice(&self) -> &[Vec<u8>]
        ensures { map (λ word. word.items) result.now ≡ texts_of self.now }
    {
        self.list.as_slice()
    }
}

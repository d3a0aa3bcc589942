//! The parts of a text in double quotes that names variables.

ghost use Rattle.std.specs.Prelude.{◌≡◌};

use std::marker::Model;
use uq_value::Text;

/// A part of a text in double quotes.
#[derive(Drop)]
pub enum Part {
    /// Bytes, at least one, that stand for themselves.
    Text(Text),
    /// A variable, by its name without `$`.
    Var(Text),
}

/// Parts in order. In those of a token no text is empty, and no two texts stand side by side. Contracts see the list.
#[derive(Drop)]
pub struct Parts {
    parts: Vec<Part>,
}

impl Model for Parts {
    ghost use Rattle.std.specs.Prelude.{List};
    ghost use Rattle.jx9_syntax.specs.declared.parts.Part.{Part};

    ghost Value = { List Part };

    ghost view = { λ p. p.parts.items };
}

impl Parts {
    /// The parts of a `Vec`.
    pub fn from_vec(parts: Vec<Part>) -> Parts
        ensures { result ≡ parts.items }
    {
        Parts { parts }
    }

    /// The parts in order.
    pub fn as_slice(&self) -> &[Part]
        ensures { result.now ≡ self.now }
    {
        self.parts.as_slice()
    }
}

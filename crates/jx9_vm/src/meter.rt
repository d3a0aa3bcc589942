//! How much scripts have taken.

ghost use Rattle.std.specs.Prelude.{◌≡◌, ◌+◌, ◌-◌, ◌^◌, min};

use std::marker::Model;

/// The units that scripts have taken, from 0 up to 2^128 - 1, where it stands. Only `exec` raises it.
#[derive(Drop)]
pub struct Meter {
    units: u128,
}

impl Model for Meter {
    ghost use Rattle.std.specs.Prelude.{ℕ};

    ghost Value = { ℕ };

    ghost view = { λ m. m.units };
}

impl Meter {
    /// No units yet.
    pub fn new() -> Meter
        ensures { result ≡ 0 }
    {
        Meter { units: 0 }
    }

    /// The units so far.
    pub fn units(&self) -> u128
        ensures { result ≡ self.now }
    {
        self.units
    }

    /// Counts so many units more.
    pub(crate) fn raise(&mut self, by: u64)
        ensures { self.new ≡ min (self.old + by) (2 ^ 128 - 1) }
    {
        self.units = self.units.saturating_add(u128::from(by));
    }
}

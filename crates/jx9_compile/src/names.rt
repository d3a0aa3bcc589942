//! The variables of a function, found by name.

ghost use Rattle.std.specs.Prelude.{◌≡◌, [], ◌∷◌, ◌++◌, length, position, IfOk, OnOk, None};
ghost use Rattle.std.specs.Str.{bytes_eq};

use crate::emitting::number_of;
use std::alloc::Global;
use std::collections::BTreeMap;
use std::marker::Model;
use uq_value::NoMemory;

/// The variables of a function in order of their slots, which count from 0. To find one of n takes about log n comparisons
/// of names, and so does a new one.
#[derive(Drop)]
pub(crate) struct Names {
    slots: BTreeMap<Vec<u8>, u32>,
}

impl Model for Names {
    ghost use Rattle.std.specs.Prelude.{List};
    ghost use Rattle.uq_value.specs.Data.{Bytes};
    ghost use Rattle.jx9_compile.specs.Names.{AreSlots, names_of};

    ghost Value = { List Bytes };

    ghost view = { λ s. names_of (λ k. k.items) s.slots.entries };

    ghost invariant = { λ s. AreSlots (λ k. k.items) s.slots.entries };
}

impl Names {
    /// No variables, which takes no memory yet.
    pub(crate) fn new(alloc: Global) -> Names
        ensures { result ≡ [] }
    {
        Names {
            slots: BTreeMap::new(alloc),
        }
    }

    /// How many there are.
    pub(crate) fn len(&self) -> usize
        ensures { result ≡ length self.now }
    {
        self.slots.len()
    }

    /// The slot of a variable, None where it has none.
    pub(crate) fn slot_of(&self, name: &[u8]) -> Option<u32>
        ensures { result ≡ position (λ n. bytes_eq n name.now) self.now }
    {
        self.slots.get(name).copied()
    }

    /// Gives a variable that has no slot the next one.
    pub(crate) fn add(&mut self, alloc: Global, name: &[u8]) -> Result<u32, NoMemory>
        requires { position (λ n. bytes_eq n name.now) self.old ≡ None }
        ensures slot { IfOk result (λ slot. slot ≡ length self.old) }
        ensures names { OnOk result (self.new ≡ self.old ++ name.now ∷ []) }
    {
        let slot = number_of(self.slots.len())?;
        let name = Vec::from_slice(alloc, name)?;
        self.slots.insert(name, slot)?;
        Ok(slot)
    }
}

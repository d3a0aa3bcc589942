//! Ordered maps that contracts see as finite maps.
ghost use Rattle.std.specs.Prelude.{◌≡◌, ◌<◌, ◌^◌, not, nat_lt, OnOk, OnErr, IfOk, option_copied};
ghost use Rattle.std.specs.Option.{option_map, OnSome, IfNone};
ghost use Rattle.std.specs.List.{find};
ghost use Rattle.std.specs.FinMap as map;

use crate::collection::Collection;
use std::alloc::Global;
use std::collections::BTreeMap;
use std::marker::Model;
use uq_value::{NoMemory, Value, copy};

/// Values by number.
#[derive(Drop)]
pub struct ById<V> {
    pub(crate) tree: BTreeMap<u64, V>,
}

impl<V> Model for ById<V> {
    ghost use Rattle.std.specs.Ordering.{nat_cmp};
    ghost use Rattle.std.specs.Coded.{coded_ℕ};
    ghost use Rattle.std.specs.FinMap as map;

    ghost Value = { map.FinMap nat_cmp V };

    ghost coded = { map.code coded_ℕ V.code };

    ghost view = { λ t. map.from_entries t.tree.entries };
}

impl<V> ById<V> {
    /// Without values, which takes no memory yet.
    pub fn new(alloc: Global) -> ById<V>
        ensures { result ≡ map.empty }
    {
        ById {
            tree: BTreeMap::new(alloc),
        }
    }

    /// How many there are.
    pub fn len(&self) -> usize
        ensures len { result ≡ map.len self.now }
        ensures small { result < 2 ^ 63 }
    {
        self.tree.len()
    }

    /// The value of this number.
    pub fn get(&self, id: u64) -> Option<&V>
        ensures { option_copied result ≡ map.get self.now id }
    {
        self.tree.get(&id)
    }

    /// The least number that has a value and is at least `id`.
    pub fn at_or_after(&self, id: u64) -> Option<u64>
        ensures { result ≡ option_map (λ e. e.0) (find (λ e. not (nat_lt e.0 id)) (map.entries self.now)) }
    {
        match self.tree.range(id..).next() {
            Some((found, _)) => Some(*found),
            None => None,
        }
    }
}

impl<V: Drop> ById<V> {
    /// Gives a number a value, in the place of the one that it has.
    pub fn insert(&mut self, id: u64, value: V) -> Result<(), NoMemory>
        ensures ok { OnOk result (self.new ≡ map.insert self.old id value) }
        ensures unchanged { OnErr result (self.new ≡ self.old) }
    {
        match self.tree.insert(id, value) {
            Ok(_) => Ok(()),
            Err(_) => Err(NoMemory),
        }
    }

    /// Takes the value of a number away, and answers it.
    pub fn remove(&mut self, id: u64) -> Option<V>
        ensures value { result ≡ map.get self.old id }
        ensures removed { self.new ≡ map.remove self.old id }
    {
        let _ = self.tree.len();
        self.tree.remove(&id)
    }
}

impl ById<Value> {
    /// The same values, in memory of their own.
    pub fn copy(&self, alloc: Global) -> Result<ById<Value>, NoMemory>
        ensures { IfOk result (λ t. t ≡ self.now) }
    {
        let mut copied = ById::new(alloc);
        for (id, value) in self.tree.iter() {
            copied.insert(*id, copy(alloc, value)?)?;
        }
        Ok(copied)
    }
}

/// Values by name.
#[derive(Drop)]
pub struct ByName<V> {
    tree: BTreeMap<Vec<u8>, V>,
}

impl<V> Model for ByName<V> {
    ghost use Rattle.std.specs.Ordering.{nat_cmp};
    ghost use Rattle.std.specs.Prelude.{map as list_map, ℕ, List};
    ghost use Rattle.std.specs.Cmp.Lexicographic.{slice_cmp};
    ghost use Rattle.std.specs.Coded.{coded_ℕ, coded_list};
    ghost use Rattle.std.specs.FinMap as map;

    ghost Value = { map.FinMap (slice_cmp nat_cmp) V };

    ghost coded = { map.code (coded_list coded_ℕ) V.code };

    ghost view = { λ t. map.from_entries (list_map (λ e. (e.0.items, e.1)) t.tree.entries) };
}

impl<V> ByName<V> {
    /// Without values, which takes no memory yet.
    pub fn new(alloc: Global) -> ByName<V>
        ensures { result ≡ map.empty }
    {
        ByName {
            tree: BTreeMap::new(alloc),
        }
    }

    /// The value of this name.
    pub fn get(&self, name: &[u8]) -> Option<&V>
        ensures { option_copied result ≡ map.get self.now name.now }
    {
        self.tree.get(name)
    }
}

impl<V: Drop> ByName<V> {
    /// Gives a name a value, in the place of the one that it has.
    pub fn insert(&mut self, name: Vec<u8>, value: V) -> Result<(), NoMemory>
        ensures ok { OnOk result (self.new ≡ map.insert self.old name.items value) }
        ensures unchanged { OnErr result (self.new ≡ self.old) }
    {
        match self.tree.insert(name, value) {
            Ok(_) => Ok(()),
            Err(_) => Err(NoMemory),
        }
    }

    /// Puts a value in the place of the one that a name has, and answers that. None where it has none: then nothing is
    /// put there. It takes no memory.
    pub fn replace(&mut self, name: &[u8], value: V) -> Option<V>
        ensures value { result ≡ map.get self.old name.now }
        ensures replaced { OnSome result (self.new ≡ map.insert self.old name.now value) }
        ensures unchanged { IfNone result (self.new ≡ self.old) }
    {
        if let Some(slot) = self.tree.get_mut(name) {
            let old = std::mem::replace(slot, value);
            return Some(old);
        }
        None
    }

    /// Takes the value of a name away, and answers it.
    pub fn remove(&mut self, name: &[u8]) -> Option<V>
        ensures value { result ≡ map.get self.old name.now }
        ensures removed { self.new ≡ map.remove self.old name.now }
    {
        let _ = self.tree.len();
        self.tree.remove(name)
    }
}

impl ByName<Collection> {
    /// The same values, in memory of their own.
    pub fn copy(&self, alloc: Global) -> Result<ByName<Collection>, NoMemory>
        ensures { IfOk result (λ t. t ≡ self.now) }
    {
        let mut copied = ByName::new(alloc);
        for (name, value) in self.tree.iter() {
            let name = Vec::from_slice(alloc, name.as_slice())?;
            copied.insert(name, value.copy(alloc)?)?;
        }
        Ok(copied)
    }
}

//! Lists, and writes within them.
ghost use Rattle.std.specs.Prelude.{◌≡◌, ◌≤◌, ◌<◌, ◌+◌, [], ◌∷◌, ◌++◌, ◌-◌, ◌^◌, min, map, length, slice_get, option_copied, IfOk, IfErr, OnOk, OnErr, Ok};
ghost use Rattle.uq_value.specs.Data.{list, items_of};
ghost use Rattle.uq_value.specs.Faults.{Refuses};
ghost use Rattle.uq_value.specs.Put.{limited, nth};
ghost use Rattle.uq_value.specs.Internal.Writing.{put_at, PushFits, size_beside_next};
ghost use Rattle.uq_value.specs.declared.value.Value.{Value};
ghost use Rattle.uq_value.specs.Size.{data_size, most_size};
ghost use Rattle.uq_value.specs.Depth.{data_depth, most_depth};
ghost use Rattle.uq_value.specs.IsValue.{IsValue, ItemsAreSound};
ghost use Rattle.uq_value.specs.Plain.{items as spec_items, plain, size as spec_size, depth as spec_depth};
ghost use Rattle.uq_value.specs.Truth.{is_empty as spec_is_empty};
ghost use Rattle.uq_value.specs.Same.{data_same};

use crate::comparing::alike;
use crate::copying::copy;
use crate::error::{NoMemory, ValueFault};
use crate::kept::Kept;
use crate::measuring::{MOST_DEPTH, MOST_SIZE, depth, is_value, leb_size, size};
use crate::step::Step;
use crate::value::Value;
use crate::writing::write;
use std::alloc::Global;
use std::marker::Model;

/// Values in order. Contracts see the list of their plain data.
#[cycle(value)]
#[derive(Drop)]
pub struct List {
    items: Vec<Value>,
    kept: Kept,
}

impl Model for List {
    ghost use Rattle.uq_value.specs.Data.{Datas};
    ghost use Rattle.uq_value.specs.Internal.Codes.{items_code};

    ghost Value = { Datas };

    ghost coded = { items_code };

    ghost use Rattle.uq_value.specs.Internal.Kept.{list_view, IsList, list_rank};

    ghost view = { list_view };

    ghost invariant = { IsList };

    ghost size = { list_rank };

    ghost use Rattle.uq_value.specs.Internal.Falls.{list_falls};

    ghost size_decreases = { λ a h. list_falls a.items.items };
}

impl List {
    /// A list without items, which takes no memory yet.
    pub fn new(alloc: Global) -> List
        ensures { result ≡ [] }
    {
        List {
            items: Vec::new(alloc),
            kept: Kept::new(),
        }
    }

    /// The number of items.
    pub fn len(&self) -> usize
        ensures { result ≡ length self.now }
    {
        self.items.len()
    }

    /// Whether there is no item.
    pub fn is_empty(&self) -> bool
        ensures { result ≡ spec_is_empty self.now }
    {
        self.items.is_empty()
    }

    /// The item at a place from 0 on.
    pub fn item(&self, at: usize) -> Option<&Value>
        ensures { option_copied result ≡ slice_get (spec_items self.now) at }
    {
        sqlite_items::at(self.items.as_slice(), at)
    }

    /// Whether the two have the same items in the same order.
    #[cycle(alike)]
    pub(crate) fn alike(&self, other: &List) -> bool
        ensures { result ≡ data_same (list self.now) (list other.now) }
    {
        if self.items.len() != other.items.len() {
            return false;
        }
        for at in 0..self.items.len() {
            if !alike(&self.items[at], &other.items[at]) {
                return false;
            }
        }
        true
    }

    #[cycle(copy)]
    pub(crate) fn copy(&self, alloc: Global) -> Result<List, NoMemory>
        ensures { IfOk result (λ l. l ≡ self.now) }
    {
        let mut items = Vec::with_capacity(alloc, self.items.len())?;
        for v in &self.items {
            let v = copy(alloc, v)?;
            items.push(v)?;
        }
        let kept = self.kept.copy(alloc)?;
        Ok(List { items, kept })
    }

    /// The list of these values. Refused is first one that would be `TooDeep`, then one that would be `TooLarge`.
    pub fn from_values(values: Vec<Value>) -> Result<List, ValueFault>
        ensures ok { IfOk result (λ l. l ≡ map plain values.items) }
        ensures fits { OnOk result (limited (Value.List (map plain values.items)) ≡ Ok (Value.List (map plain values.items))) }
        ensures refused { IfErr result (Refuses (limited (Value.List (map plain values.items)))) }
    {
        let (size, depth) = measured(values.as_slice());
        if depth > MOST_DEPTH {
            return Err(ValueFault::TooDeep);
        }
        if size > MOST_SIZE {
            return Err(ValueFault::TooLarge);
        }
        Ok(List {
            items: values,
            kept: Kept::new().with_numbers(size, depth),
        })
    }

    /// A list without items yet, with room for so many.
    pub fn with_capacity(alloc: Global, capacity: usize) -> Result<List, NoMemory>
        ensures { IfOk result (λ l. l ≡ []) }
    {
        Ok(List {
            items: Vec::with_capacity(alloc, capacity)?,
            kept: Kept::new(),
        })
    }

    /// Appends a value. Refused is first a list that would be `TooDeep`, then one that would be `TooLarge`; a refusal
    /// leaves the list.
    pub fn push(&mut self, v: Value) -> Result<(), ValueFault>
        ensures ok { OnOk result (self.new ≡ self.old ++ plain v ∷ []) }
        ensures fits { OnOk result (limited (Value.List (self.old ++ plain v ∷ [])) ≡ Ok (Value.List self.new)) }
        ensures refused { IfErr result (Refuses (limited (Value.List (self.old ++ plain v ∷ [])))) }
        ensures unchanged { OnErr result (self.new ≡ self.old) }
    {
        let depth = depth(&v);
        if depth >= MOST_DEPTH {
            return Err(ValueFault::TooDeep);
        }
        let size = self.size_beside_next() + size(&v);
        if size > MOST_SIZE {
            return Err(ValueFault::TooLarge);
        }
        Ok(self.push_within(v, size, depth)?)
    }

    /// Appends a value of this depth, with which the list has this size and keeps the limits.
    fn push_within(&mut self, v: Value, size: u64, depth: u32) -> Result<(), NoMemory>
        requires fits { PushFits v self.old }
        requires size { size ≡ size_beside_next self.old + spec_size v }
        requires depth { depth ≡ spec_depth v }
        ensures ok { OnOk result (self.new ≡ self.old ++ plain v ∷ []) }
        ensures unchanged { OnErr result (self.new ≡ self.old) }
    {
        is_value(&v);
        push_item(&mut self.items, v)?;
        self.kept.add(size, depth);
        Ok(())
    }

    /// The size with one item more, but for that item's own.
    fn size_beside_next(&self) -> u64
        ensures size { result ≡ size_beside_next self.now }
        ensures small { result ≤ most_size + 10 }
        ensures shallow { data_depth (list self.now) ≤ most_depth }
    {
        let count = self.items.len();
        self.kept.size() - leb_size(count) + leb_size(count + 1)
    }

    /// Writes from the item at a place on, or appends where none is there.
    #[cycle(write)]
    pub(crate) fn write_nth(
        &mut self,
        alloc: Global,
        at: usize,
        rest: &[Step],
        new: Value,
        room: u64,
    ) -> Result<(), ValueFault>
        requires shallow { length rest.now + spec_depth new < most_depth }
        requires small { room ≤ most_size }
        ensures ok { OnOk result (put_at room (nth at) rest.now new (Value.List self.old) ≡ Ok (Value.List self.new)) }
        ensures refused { IfErr result (Refuses (put_at room (nth at) rest.now new (Value.List self.old))) }
        ensures unchanged { OnErr result (self.new ≡ self.old) }
    {
        if at < self.len() {
            self.write_at(alloc, at, rest, new, room)
        } else {
            self.append(alloc, rest, new, room)
        }
    }

    /// Writes from an item that is there on.
    #[cycle(write)]
    fn write_at(
        &mut self,
        alloc: Global,
        at: usize,
        rest: &[Step],
        new: Value,
        room: u64,
    ) -> Result<(), ValueFault>
        requires within { at < length self.old }
        requires shallow { length rest.now + spec_depth new < most_depth }
        requires small { room ≤ most_size }
        ensures ok { OnOk result (put_at room (nth at) rest.now new (Value.List self.old) ≡ Ok (Value.List self.new)) }
        ensures refused { IfErr result (Refuses (put_at room (nth at) rest.now new (Value.List self.old))) }
        ensures unchanged { OnErr result (self.new ≡ self.old) }
    {
        let child = &mut self.items[at];
        let (size_before, depth_before) = (size(child), depth(child));
        write(
            alloc,
            child,
            rest,
            new,
            room.saturating_sub(self.kept.size() - size_before),
        )?;
        is_value(child);
        let (size_after, depth_after) = (size(child), depth(child));
        let size = self.kept.size() - size_before + size_after;
        self.kept.mend(
            alloc,
            self.items.as_slice(),
            size,
            depth_before,
            depth_after,
        );
        Ok(())
    }

    /// Writes from null on, and appends what comes of it.
    #[cycle(write)]
    pub(crate) fn append(
        &mut self,
        alloc: Global,
        rest: &[Step],
        new: Value,
        room: u64,
    ) -> Result<(), ValueFault>
        requires shallow { length rest.now + spec_depth new < most_depth }
        requires small { room ≤ most_size }
        ensures ok { OnOk result (put_at room (nth (length self.old)) rest.now new (Value.List self.old) ≡ Ok (Value.List self.new)) }
        ensures refused { IfErr result (Refuses (put_at room (nth (length self.old)) rest.now new (Value.List self.old))) }
        ensures unchanged { OnErr result (self.new ≡ self.old) }
    {
        let beside = self.size_beside_next();
        let mut last = Value::Null;
        write(alloc, &mut last, rest, new, room.saturating_sub(beside))?;
        let (size, depth) = (beside + size(&last), depth(&last));
        Ok(self.push_within(last, size, depth)?)
    }

    /// A list is a value: a caller's proof learns it from this call, which does nothing.
    pub fn is_value(&self)
        ensures { IsValue (list self.now) }
    {
        let _ = &self.items;
    }

    pub(crate) fn size(&self) -> u64
        ensures size { result ≡ data_size (list self.now) }
        ensures fits { data_size (list self.now) ≤ most_size }
    {
        self.kept.size()
    }

    pub(crate) fn depth(&self) -> u32
        ensures depth { result ≡ data_depth (list self.now) }
        ensures fits { data_depth (list self.now) ≤ most_depth }
    {
        self.kept.depth()
    }
}

/// Appends a value. The first one takes room for one: most lists within lists are short.
fn push_item(items: &mut Vec<Value>, v: Value) -> Result<(), NoMemory>
    ensures ok { OnOk result (items.new.items ≡ items.old.items ++ v ∷ []) }
    ensures unchanged { OnErr result (items.new.items ≡ items.old.items) }
{
    if items.is_empty() {
        items.reserve_exact(1)?;
    }
    items.push(v)?;
    Ok(())
}

/// The size and depth that a list of these values has. A size above 2^64 - 1 counts as that.
fn measured(values: &[Value]) -> (u64, u32)
    ensures size { result.0 ≡ min (data_size (list (map plain values.now))) (2 ^ 64 - 1) }
    ensures depth { result.1 ≡ data_depth (list (map plain values.now)) }
    ensures sound { ItemsAreSound (items_of (map plain values.now)) }
{
    let mut whole = 1 + leb_size(values.len());
    let mut deepest = 0;
    for v in values {
        is_value(v);
        whole = whole.saturating_add(size(v));
        deepest = depth(v).max(deepest);
    }
    (whole, deepest + 1)
}

//! Values in layers, one layer for each call that is active.

ghost use Rattle.std.specs.Prelude.{◌≡◌, ◌+◌, ◌-◌, ◌≤◌, ◌<◌, [], ◌∷◌, ◌++◌, drop, length, replicate, reverse, slice_get, slice_set, take, unwrap_or, IfOk, OnOk};
ghost use Rattle.uq_value.specs.declared.value.Value.{Value};
ghost use Rattle.jx9_compile.specs.Machine.{below, top};
ghost use Rattle.jx9_vm.specs.Operating.{value_of};

use crate::operators::Plain;
use std::alloc::Global;
use std::marker::Model;
use std::mem;
use uq_value::{NoMemory, Value};

/// Values in layers, one on top of another, in one vector that keeps its room. Contracts see the upper layer, and what
/// lies under it.
#[derive(Drop)]
pub(crate) struct Layers {
    values: Vec<Value>,
    /// Where the upper layer begins.
    floor: usize,
}

impl Model for Layers {
    ghost use Rattle.std.specs.Prelude.{◌≤◌, drop, length, take};
    ghost use Rattle.std.specs.Coded.{codes};
    ghost use Rattle.uq_value.specs.contracts.value.Value as value;
    ghost use Rattle.jx9_vm.specs.Layered.{Layered};

    ghost Value = { Layered };

    ghost coded = { Prim.hlevel (codes, value.the_row.coded) };

    ghost view = { λ l. record { under = take l.floor l.values.items; here = drop l.floor l.values.items } };

    ghost invariant = { λ l. l.floor ≤ length l.values.items };
}

impl Layers {
    /// One empty layer, with room for so many values.
    pub(crate) fn with_room(alloc: Global, room: usize) -> Result<Layers, NoMemory>
        ensures under { IfOk result (λ l. l.under ≡ []) }
        ensures here { IfOk result (λ l. l.here ≡ []) }
    {
        Ok(Layers {
            values: Vec::with_capacity(alloc, room)?,
            floor: 0,
        })
    }

    /// Where the upper layer begins.
    pub(crate) fn floor(&self) -> usize
        ensures { result ≡ length self.now.under }
    {
        self.floor
    }

    /// The upper layer.
    #[inline(always)]
    pub(crate) fn here(&self) -> &[Value]
        ensures { result.now ≡ self.now.here }
    {
        self.values.as_slice().split_at(self.floor).1
    }

    /// Puts a value on top.
    #[inline(always)]
    pub(crate) fn push(&mut self, value: Value) -> Result<(), NoMemory>
        ensures here { OnOk result (self.new.here ≡ self.old.here ++ value ∷ []) }
        ensures top { OnOk result (reverse self.new.here ≡ value ∷ reverse self.old.here) }
        ensures under { OnOk result (self.new.under ≡ self.old.under) }
    {
        // what is small is written by itself, as a whole value that was just made in parts is slow to move
        match value {
            Value::Int(z) => Ok(self.values.push(Value::Int(z))?),
            Value::Bool(b) => Ok(self.values.push(Value::Bool(b))?),
            other => Ok(self.values.push(other)?),
        }
    }

    /// Takes the top off the upper layer, null where that is empty.
    pub(crate) fn pop(&mut self) -> Value
        ensures value { result ≡ top (reverse self.old.here) }
        ensures rest { reverse self.new.here ≡ below (reverse self.old.here) }
        ensures under { self.new.under ≡ self.old.under }
    {
        if self.floor == self.values.len() {
            return Value::Null;
        }
        match self.values.pop() {
            Some(value) => value,
            None => Value::Null,
        }
    }

    /// Puts a value in the place of another, counted from the start of the upper layer. Where there is none, it is dropped.
    pub(crate) fn set(&mut self, at: usize, value: Value)
        ensures here { self.new.here ≡ slice_set self.old.here at value }
        ensures under { self.new.under ≡ self.old.under }
    {
        let _ = self.exchange(at, value);
    }

    /// Takes a value out of its place, counted from the start of the upper layer, and leaves null there. Where there is
    /// no such place, it is null.
    pub(crate) fn take(&mut self, at: usize) -> Value
        ensures value { result ≡ unwrap_or (slice_get self.old.here at) Value.Null }
        ensures here { self.new.here ≡ slice_set self.old.here at Value.Null }
        ensures under { self.new.under ≡ self.old.under }
    {
        self.exchange(at, Value::Null)
    }

    /// Puts a value in the place of another, and gives the other back; the value itself where there is no such place.
    fn exchange(&mut self, at: usize, value: Value) -> Value
        ensures value { result ≡ unwrap_or (slice_get self.old.here at) value }
        ensures here { self.new.here ≡ slice_set self.old.here at value }
        ensures under { self.new.under ≡ self.old.under }
    {
        if at < self.values.len() - self.floor {
            return mem::replace(&mut self.values[self.floor + at], value);
        }
        value
    }

    /// Puts a number or a truth value in the place of a value, counted from the start of the upper layer, if there is one.
    #[inline(always)]
    pub(crate) fn set_plain(&mut self, at: usize, plain: Plain)
        ensures here { self.new.here ≡ slice_set self.old.here at (value_of plain) }
        ensures under { self.new.under ≡ self.old.under }
    {
        if at < self.values.len() - self.floor {
            write_plain(&mut self.values[self.floor + at], plain);
        }
    }

    /// So many upper values of the upper layer, the lowest first; all of it where it has fewer.
    pub(crate) fn upper(&self, count: usize) -> &[Value]
        ensures { result.now ≡ drop (length self.now.here - count) self.now.here }
    {
        let here = self.here();
        here.split_at(here.len() - count.min(here.len())).1
    }

    /// Drops so many upper values of the upper layer.
    #[inline(always)]
    pub(crate) fn drop_upper(&mut self, count: usize)
        ensures here { self.new.here ≡ take (length self.old.here - count) self.old.here }
        ensures under { self.new.under ≡ self.old.under }
    {
        let count = count.min(self.values.len() - self.floor);
        self.values.truncate(self.values.len() - count);
    }

    /// Drops the top of the upper layer.
    #[inline(always)]
    pub(crate) fn drop_top(&mut self)
        ensures rest { reverse self.new.here ≡ below (reverse self.old.here) }
        ensures under { self.new.under ≡ self.old.under }
    {
        if self.floor < self.values.len() {
            drop_last(&mut self.values);
        }
    }

    /// Puts a number or a truth value in the place of the two upper values.
    #[inline(always)]
    pub(crate) fn replace_two(&mut self, plain: Plain)
        requires { 2 ≤ length self.old.here }
        ensures here { reverse self.new.here ≡ value_of plain ∷ below (below (reverse self.old.here)) }
        ensures under { self.new.under ≡ self.old.under }
    {
        let place = self.values.len() - 2;
        drop_last(&mut self.values);
        write_plain(&mut self.values[place], plain);
    }

    /// Puts an empty layer on top of all.
    pub(crate) fn cover(&mut self)
        ensures here { self.new.here ≡ [] }
        ensures under { self.new.under ≡ self.old.under ++ self.old.here }
    {
        self.floor = self.values.len();
    }

    /// Drops the upper layer, and goes back to the one that begins here.
    pub(crate) fn uncover(&mut self, floor: usize)
        ensures here { self.new.here ≡ drop floor self.old.under }
        ensures under { self.new.under ≡ take floor self.old.under }
    {
        self.values.truncate(self.floor);
        self.floor = floor.min(self.values.len());
    }

    /// Moves the first `kept` of so many upper values to the top of other layers, and drops the others.
    pub(crate) fn move_upper(
        &mut self,
        count: usize,
        kept: usize,
        to: &mut Layers,
    ) -> Result<(), NoMemory>
        ensures moved { OnOk result (to.new.here ≡ to.old.here ++ take kept (drop (length self.old.here - count) self.old.here)) }
        ensures to_under { OnOk result (to.new.under ≡ to.old.under) }
        ensures here { OnOk result (self.new.here ≡ take (length self.old.here - count) self.old.here) }
        ensures under { OnOk result (self.new.under ≡ self.old.under) }
    {
        let count = count.min(self.values.len() - self.floor);
        let from = self.values.len() - count;
        move_values(&mut self.values, from, from + kept.min(count), to)?;
        self.values.truncate(from);
        Ok(())
    }

    /// Puts null on top until the upper layer has so many values.
    pub(crate) fn fill(&mut self, count: usize) -> Result<(), NoMemory>
        ensures here { OnOk result (self.new.here ≡ self.old.here ++ replicate (count - length self.old.here) Value.Null) }
        ensures under { OnOk result (self.new.under ≡ self.old.under) }
    {
        let missing = count.saturating_sub(self.values.len() - self.floor);
        push_nulls(&mut self.values, missing)
    }
}

/// Drops the last value. A number or a truth value owns nothing that would be given back.
#[inline(always)]
fn drop_last(values: &mut Vec<Value>)
    ensures items { values.new.items ≡ take (length values.old.items - 1) values.old.items }
    ensures length { length values.new.items ≡ length values.old.items - 1 }
{
    match values.last() {
        Some(Value::Int(_)) | Some(Value::Bool(_)) => mem::forget(values.pop()),
        _ => values.truncate(values.len().saturating_sub(1)),
    }
}

/// Puts a number or a truth value in the place of a value.
#[inline(always)]
fn write_plain(value: &mut Value, plain: Plain)
    ensures { value.new ≡ value_of plain }
{
    match plain {
        Plain::Number(z) => write_number(value, z),
        Plain::Truth(b) => *value = Value::Bool(b),
    }
}

/// Puts a number in the place of a value. Over a number that is one word.
#[inline(always)]
fn write_number(value: &mut Value, z: i64)
    ensures { value.new ≡ Value.Int z }
{
    match value {
        Value::Int(number) => *number = z,
        other => *other = Value::Int(z),
    }
}

/// Moves the values from one place up to another to the top of the layers, and leaves null in their places.
fn move_values(
    values: &mut Vec<Value>,
    from: usize,
    end: usize,
    to: &mut Layers,
) -> Result<(), NoMemory>
    requires order { from ≤ end }
    requires within { end ≤ length values.old.items }
    ensures moved { OnOk result (to.new.here ≡ to.old.here ++ take (end - from) (drop from values.old.items)) }
    ensures under { OnOk result (to.new.under ≡ to.old.under) }
    ensures front { OnOk result (take from values.new.items ≡ take from values.old.items) }
    ensures same_length { length values.new.items ≡ length values.old.items }
{
    for at in from..end {
        to.push(mem::replace(&mut values[at], Value::Null))?;
    }
    Ok(())
}

/// Puts so many nulls on top.
fn push_nulls(values: &mut Vec<Value>, count: usize) -> Result<(), NoMemory>
    ensures pushed { OnOk result (values.new.items ≡ values.old.items ++ replicate count Value.Null) }
    ensures grows { length values.old.items ≤ length values.new.items }
{
    for _ in 0..count {
        values.push(Value::Null)?;
    }
    Ok(())
}

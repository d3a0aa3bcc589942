//! Where a step leads from a value. Whatever reads or writes along steps asks here.

ghost use Rattle.std.specs.Prelude.{◌≡◌, option_copied};
ghost use Rattle.uq_value.specs.Put.{key, in_list, there as spec_there};
ghost use Rattle.uq_value.specs.Internal.Reaching.{GivesKey, key_of};
ghost use Rattle.uq_value.specs.declared.step.Step.TheVariants.{Member, Index, Append};

use crate::error::ValueFault;
use crate::step::Step;
use crate::value::Value;
use itoa::Buffer;

/// Where a step leads in a list or an object.
#[derive(Clone, Copy)]
pub(crate) enum Key<'a> {
    /// The item at this place, or behind the last item.
    Nth(usize),
    /// The member of this name.
    Named(&'a [u8]),
}

impl<'a> Key<'a> {
    /// Where a step leads. Null is what the step asks for, a list or an object without parts. A whole number that names
    /// a member is spelled in the buffer.
    pub(crate) fn of_step(
        v: &Value,
        step: &'a Step,
        decimal: &'a mut Buffer,
    ) -> Result<Key<'a>, ValueFault>
        ensures { GivesKey (key step.now v.now) result }
    {
        match step {
            Step::Member(name) => Key::of_member(v, name.bytes()),
            Step::Index(at) => Key::of_index(v, at, decimal),
            Step::Append => Key::of_append(v),
        }
    }

    pub(crate) fn of_member(v: &Value, name: &'a [u8]) -> Result<Key<'a>, ValueFault>
        ensures { GivesKey (key (Member name.now) v.now) result }
    {
        match v {
            Value::Null | Value::Object(_) => Ok(Key::Named(name)),
            _ => Err(ValueFault::NotContainer),
        }
    }

    pub(crate) fn of_index(
        v: &Value,
        at: &'a Value,
        decimal: &'a mut Buffer,
    ) -> Result<Key<'a>, ValueFault>
        ensures { GivesKey (key (Index at.now) v.now) result }
    {
        match v {
            Value::Null => match at {
                Value::Int(z) => Key::in_list(0, *z),
                Value::Text(name) => Ok(Key::Named(name.bytes())),
                _ => Err(ValueFault::NotContainer),
            },
            Value::List(l) => match at {
                Value::Int(z) => Key::in_list(l.len(), *z),
                _ => Err(ValueFault::IndexRange),
            },
            Value::Object(_) => match at {
                Value::Text(name) => Ok(Key::Named(name.bytes())),
                Value::Int(z) => Ok(Key::Named(decimal.format(*z).as_bytes())),
                _ => Err(ValueFault::NotContainer),
            },
            _ => Err(ValueFault::NotContainer),
        }
    }

    fn of_append(v: &Value) -> Result<Key<'a>, ValueFault>
        ensures { GivesKey (key Append v.now) result }
    {
        match v {
            Value::Null => Ok(Key::Nth(0)),
            Value::List(l) => Ok(Key::Nth(l.len())),
            _ => Err(ValueFault::NotContainer),
        }
    }

    /// A list of so many items takes a whole number from 0 to that.
    fn in_list(items: usize, at: i64) -> Result<Key<'a>, ValueFault>
        ensures { GivesKey (in_list items at) result }
    {
        if at < 0 || at as usize > items {
            return Err(ValueFault::IndexRange);
        }
        Ok(Key::Nth(at as usize))
    }

    /// What stands there.
    pub(crate) fn there<'v>(self, v: &'v Value) -> Option<&'v Value>
        ensures { option_copied result ≡ spec_there (key_of self.entry) v.now }
    {
        match self {
            Key::Nth(at) => match v {
                Value::List(l) => l.item(at),
                _ => None,
            },
            Key::Named(name) => match v {
                Value::Object(o) => o.find(name),
                _ => None,
            },
        }
    }
}

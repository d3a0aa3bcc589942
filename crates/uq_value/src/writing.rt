//! Writing in place. A write goes down to the end of its steps with the size that is left for what stands there. All
//! that can be refused is refused before anything changes, and lists and objects mend their kept numbers on the way up.

ghost use Rattle.std.specs.Prelude.{◌≡◌, ◌≤◌, ◌<◌, ◌+◌, [], ◌∷◌, length, Ok, OnOk, OnErr, IfErr};
ghost use Rattle.uq_value.specs.Size.{most_size};
ghost use Rattle.uq_value.specs.Depth.{most_depth};
ghost use Rattle.uq_value.specs.Plain.{depth as spec_depth};
ghost use Rattle.uq_value.specs.Put.{put as spec_put, limited, with_child};
ghost use Rattle.uq_value.specs.Faults.{Refuses};
ghost use Rattle.uq_value.specs.Internal.Reaching.{key_of};
ghost use Rattle.uq_value.specs.Internal.Writing.{put_in, put_at};
ghost use Rattle.uq_value.specs.declared.step.Step.TheVariants.{Member, Index};

use crate::error::ValueFault;
use crate::key::Key;
use crate::list::List;
use crate::measuring::{MOST_DEPTH, MOST_SIZE, depth, is_value, size};
use crate::object::Object;
use crate::reaching::first_fault;
use crate::step::Step;
use crate::value::Value;
use itoa::Buffer;
use std::alloc::Global;

/// Puts a value at the end of these steps from the root on; without steps it becomes the root.
///
/// Null becomes the list or object that a step asks for. A member that is not there is added as the last one, and an
/// index at a list's length appends. Refused is first the first step that leads nowhere, by `NotContainer` or
/// `IndexRange`, then a root that would be `TooDeep`, then one that would be `TooLarge`. A refusal leaves the root.
pub fn put(alloc: Global, root: &mut Value, steps: &[Step], new: Value) -> Result<(), ValueFault>
    ensures ok { OnOk result (spec_put root.old steps.now new ≡ Ok root.new) }
    ensures refused { IfErr result (Refuses (spec_put root.old steps.now new)) }
    ensures unchanged { OnErr result (root.new ≡ root.old) }
{
    is_value(root);
    if steps.len() > (MOST_DEPTH - depth(&new)) as usize {
        return Err(first_fault(root, steps).unwrap_or(ValueFault::TooDeep));
    }
    write(alloc, root, steps, new, MOST_SIZE)
}

/// `put` with one step, to the member of this name.
pub fn put_member(alloc: Global, v: &mut Value, name: &[u8], new: Value) -> Result<(), ValueFault>
    ensures ok { OnOk result (spec_put v.old (Member name.now ∷ []) new ≡ Ok v.new) }
    ensures refused { IfErr result (Refuses (spec_put v.old (Member name.now ∷ []) new)) }
    ensures unchanged { OnErr result (v.new ≡ v.old) }
{
    let key = Key::of_member(v, name)?;
    put_child(alloc, v, key, new)
}

/// `put` with one step, to what this index stands for.
pub fn put_index(alloc: Global, v: &mut Value, at: &Value, new: Value) -> Result<(), ValueFault>
    ensures ok { OnOk result (spec_put v.old (Index at.now ∷ []) new ≡ Ok v.new) }
    ensures refused { IfErr result (Refuses (spec_put v.old (Index at.now ∷ []) new)) }
    ensures unchanged { OnErr result (v.new ≡ v.old) }
{
    let mut decimal = Buffer::new();
    let key = Key::of_index(v, at, &mut decimal)?;
    put_child(alloc, v, key, new)
}

/// Puts a value where a step leads.
fn put_child(alloc: Global, v: &mut Value, key: Key, new: Value) -> Result<(), ValueFault>
    ensures ok { OnOk result (limited (with_child (key_of key.entry) new v.old) ≡ Ok v.new) }
    ensures refused { IfErr result (Refuses (limited (with_child (key_of key.entry) new v.old))) }
    ensures unchanged { OnErr result (v.new ≡ v.old) }
{
    is_value(v);
    if depth(&new) >= MOST_DEPTH {
        return Err(ValueFault::TooDeep);
    }
    write_child(alloc, v, key, &[], new, MOST_SIZE)
}

/// Puts a value at the end of these steps, where the whole may have `room` bytes and is not too deep.
#[cycle(write)]
pub(crate) fn write(
    alloc: Global,
    v: &mut Value,
    steps: &[Step],
    new: Value,
    room: u64,
) -> Result<(), ValueFault>
    requires shallow { length steps.now + spec_depth new ≤ most_depth }
    requires small { room ≤ most_size }
    ensures ok { OnOk result (put_in room steps.now new v.old ≡ Ok v.new) }
    ensures refused { IfErr result (Refuses (put_in room steps.now new v.old)) }
    ensures unchanged { OnErr result (v.new ≡ v.old) }
{
    match steps.split_first() {
        None => replace(v, new, room),
        Some((step, rest)) => {
            let mut decimal = Buffer::new();
            let key = Key::of_step(v, step, &mut decimal)?;
            write_child(alloc, v, key, rest, new, room)
        }
    }
}

fn replace(v: &mut Value, new: Value, room: u64) -> Result<(), ValueFault>
    ensures ok { OnOk result (put_in room [] new v.old ≡ Ok v.new) }
    ensures refused { IfErr result (Refuses (put_in room [] new v.old)) }
    ensures unchanged { OnErr result (v.new ≡ v.old) }
{
    if size(&new) > room {
        return Err(ValueFault::TooLarge);
    }
    *v = new;
    Ok(())
}

/// Writes from what stands at a key on. What is no list or object becomes the one that the key asks for.
#[cycle(write)]
fn write_child(
    alloc: Global,
    v: &mut Value,
    key: Key,
    rest: &[Step],
    new: Value,
    room: u64,
) -> Result<(), ValueFault>
    requires shallow { length rest.now + spec_depth new < most_depth }
    requires small { room ≤ most_size }
    ensures ok { OnOk result (put_at room (key_of key.entry) rest.now new v.old ≡ Ok v.new) }
    ensures refused { IfErr result (Refuses (put_at room (key_of key.entry) rest.now new v.old)) }
    ensures unchanged { OnErr result (v.new ≡ v.old) }
{
    match key {
        Key::Nth(at) => match v {
            Value::List(l) => l.write_nth(alloc, at, rest, new, room),
            _ => {
                let mut l = List::new(alloc);
                l.append(alloc, rest, new, room)?;
                *v = Value::List(l);
                Ok(())
            }
        },
        Key::Named(name) => match v {
            Value::Object(o) => o.write_member(alloc, name, rest, new, room),
            _ => {
                let mut o = Object::new(alloc);
                o.write_member(alloc, name, rest, new, room)?;
                *v = Value::Object(o);
                Ok(())
            }
        },
    }
}

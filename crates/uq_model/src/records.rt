//! Records made of objects.

ghost use Rattle.std.specs.Prelude.{◌≡◌, ℕ, ◌<◌, ◌+◌, ◌^◌, true, length, All, OnOk, IfOk, take, bytes_eq, if◌then◌else◌};
ghost use Rattle.std.specs.List.{list_all};
ghost use Rattle.uq_value.specs.Data.{IsDistinct, names_of};
ghost use Rattle.uq_value.specs.Plain.{plain};
ghost use Rattle.uq_value.specs.Put.{with_member};
ghost use Rattle.uq_value.specs.declared.value.Value.{Value};
ghost use Rattle.uq_model.specs.Batch.{is_object as spec_is_object, small_from, sizes_checked};
ghost use Rattle.uq_model.specs.Change.{Decides};
ghost use Rattle.uq_model.specs.Collections.{id_name, without_id, record_within, record_made, batch as spec_batch};
ghost use Rattle.uq_model.specs.IsStore.{IsWithin};

use crate::Refusal;
use crate::change::WriteStop;
use std::alloc::Global;
use uq_value::{NoMemory, Object, ObjectBuilder, Value, ValueFault, copy};

/// The name of the member that has a record's id.
const ID_NAME: [u8; 4] = *b"__id";

/// The next id is at most this: no record has it.
const MOST_NEXT: u64 = 9_223_372_036_854_775_807;

/// The record of this id that is made of a value: a copy of its members without `__id`, and then that with the id.
pub(crate) fn record_of(alloc: Global, id: u64, value: &Value) -> Result<Value, WriteStop>
    requires id { id < 2 ^ 63 }
    ensures made { Decides (record_made id value.now) result (λ v. v) }
    ensures within { IfOk result IsWithin }
{
    match value {
        Value::Object(object) => record_of_object(alloc, id, object),
        Value::Null | Value::Bool(_) | Value::Int(_) | Value::Text(_) | Value::List(_) => {
            Err(WriteStop::Refused(Refusal::NotObject))
        }
    }
}

fn record_of_object(alloc: Global, id: u64, object: &Object) -> Result<Value, WriteStop>
    requires id { id < 2 ^ 63 }
    ensures made { Decides (record_within id object.now) result (λ v. v) }
    ensures within { IfOk result IsWithin }
{
    object.is_value();
    let mut members = kept_members(alloc, object)?;
    let name = Vec::from_slice(alloc, &ID_NAME)?;
    members.set(name, Value::Int(id as i64))?;
    match members.finish(alloc) {
        Ok(made) => Ok(Value::Object(made)),
        Err(ValueFault::TooLarge) => Err(WriteStop::Refused(Refusal::RecordTooLarge)),
        Err(ValueFault::Memory) => Err(WriteStop::Memory),
        // The members are those of a value and a number, which is no deeper.
        Err(ValueFault::TooDeep) => unreachable!(),
        Err(ValueFault::NotContainer) => unreachable!(),
        Err(ValueFault::IndexRange) => unreachable!(),
    }
}

/// A copy of the members without `__id`.
fn kept_members(alloc: Global, object: &Object) -> Result<ObjectBuilder, NoMemory>
    requires { IsDistinct (names_of object.now) }
    ensures { IfOk result (λ members. members ≡ without_id object.now) }
{
    let mut members = ObjectBuilder::new(alloc);
    for at in 0..object.len() {
        keep_next(alloc, &mut members, object, at)?;
    }
    Ok(members)
}

/// Keeps the member at this place too.
fn keep_next(
    alloc: Global,
    members: &mut ObjectBuilder,
    object: &Object,
    at: usize,
) -> Result<(), NoMemory>
    requires distinct { IsDistinct (names_of object.now) }
    requires there { at < length object.now }
    requires so_far { members.old ≡ without_id (take at object.now) }
    ensures { OnOk result (members.new ≡ without_id (take (at + 1) object.now)) }
{
    match object.member(at) {
        Some((name, value)) => keep_member(alloc, members, name, value),
        None => unreachable!(),
    }
}

/// Sets a copy of a member, unless it is the one that has the id.
fn keep_member(
    alloc: Global,
    members: &mut ObjectBuilder,
    name: &[u8],
    value: &Value,
) -> Result<(), NoMemory>
    ensures { OnOk result (members.new ≡ (if bytes_eq name.now id_name then members.old
        else with_member name.now (plain value.now) members.old)) }
{
    if name == ID_NAME.as_slice() {
        return Ok(());
    }
    let name = Vec::from_slice(alloc, name)?;
    let value = copy(alloc, value)?;
    members.set(name, value)?;
    Ok(())
}

/// The records that are made of these values in a collection whose next id is `next`, or the first refusal.
pub(crate) fn batch(
    alloc: Global,
    next: u64,
    values: &[Value],
) -> Result<Vec<(u64, Value)>, WriteStop>
    requires next { next < 2 ^ 63 }
    ensures made { Decides (spec_batch next values.now) result (λ records. records.items) }
    ensures within { IfOk result (λ records. All (λ (r : ℕ × Value). IsWithin r.1) records.items) }
{
    if !are_objects(values) {
        return Err(WriteStop::Refused(Refusal::NotObject));
    }
    if values.len() as u64 > MOST_NEXT - next {
        check_sizes(alloc, values)?;
        return Err(WriteStop::Refused(Refusal::IdsUsedUp));
    }
    records_from(alloc, next, values)
}

fn are_objects(values: &[Value]) -> bool
    ensures { result ≡ list_all spec_is_object values.now }
{
    values.iter().all(|v| is_object(v))
}

pub(crate) fn is_object(value: &Value) -> bool
    ensures { result ≡ spec_is_object value.now }
{
    match value {
        Value::Object(_) => true,
        Value::Null | Value::Bool(_) | Value::Int(_) | Value::Text(_) | Value::List(_) => false,
    }
}

/// The records of these objects, with ids from `first` on.
fn records_from(
    alloc: Global,
    first: u64,
    objects: &[Value],
) -> Result<Vec<(u64, Value)>, WriteStop>
    requires ids { first + length objects.now < 2 ^ 63 }
    requires objects { list_all spec_is_object objects.now ≡ true }
    ensures made { Decides (small_from first objects.now) result (λ records. records.items) }
    ensures within { IfOk result (λ records. All (λ (r : ℕ × Value). IsWithin r.1) records.items) }
{
    let mut records = Vec::new(alloc);
    for (at, object) in objects.iter().enumerate() {
        let id = first + at as u64;
        let made = record_of(alloc, id, object)?;
        records.push((id, made))?;
    }
    Ok(records)
}

/// Refuses objects of which one would be too large as a record.
fn check_sizes(alloc: Global, objects: &[Value]) -> Result<(), WriteStop>
    requires { list_all spec_is_object objects.now ≡ true }
    ensures { Decides (sizes_checked objects.now) result (λ done. done) }
{
    for object in objects {
        record_of(alloc, 0, object)?;
    }
    Ok(())
}

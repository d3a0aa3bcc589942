//! Reading the stored form of a value.
ghost use Rattle.std.specs.Prelude.{◌≡◌, ◌≤◌, ◌∷◌, ℕ, suc};
ghost use Rattle.uq_value.specs.Data.{list as list_data};
ghost use Rattle.uq_value.specs.Depth.{data_depth, most_depth};
ghost use Rattle.uq_value.specs.Plain.{plain};
ghost use Rattle.uq_codec.specs.Answer.{CodecAnswers};
ghost use Rattle.uq_codec.specs.Stored.{IsWhole};
ghost use Rattle.uq_codec.specs.Internal.Reading.{ReadsValue, ReadsItems, AddsItem, Passes, ReadsMember, ReadsMembers};

use crate::error::CodecFault;
use crate::kind;
use crate::varint::{read_length, read_name};
use std::alloc::Global;
use uq_value::{List, MOST_DEPTH, ObjectBuilder, Text, Value, ValueFault, is_value};

/// A list takes room for so many items at most before they are read, since what its length claims need not come.
const MOST_AT_ONCE: usize = 1_024;

/// The value whose stored form is next, and how many bytes that takes. It is `NotCanonical` exactly where the bytes do
/// not begin with a stored form.
pub fn decode(alloc: Global, bytes: &[u8]) -> Result<(Value, usize), CodecFault>
    ensures { CodecAnswers bytes.now result }
{
    let (value, rest) = value(alloc, MOST_DEPTH, bytes)?;
    is_value(&value);
    Ok((value, bytes.len() - rest.len()))
}

/// A value of at most this depth.
#[cycle(value)]
fn value(alloc: Global, room: u32, bytes: &[u8]) -> Result<(Value, &[u8]), CodecFault>
    requires { room ≤ most_depth }
    ensures { ReadsValue room bytes.now result }
{
    let [first, rest @ ..] = bytes else {
        return Err(CodecFault::NotCanonical);
    };
    match *first {
        kind::NULL => Ok((Value::Null, rest)),
        kind::FALSE => Ok((Value::Bool(false), rest)),
        kind::TRUE => Ok((Value::Bool(true), rest)),
        kind::WHOLE => whole(rest),
        kind::TEXT => text(alloc, rest),
        kind::LIST => list(alloc, room, rest),
        kind::OBJECT => object(alloc, room, rest),
        _ => Err(CodecFault::NotCanonical),
    }
}

/// A whole number: eight bytes, the highest first.
fn whole(bytes: &[u8]) -> Result<(Value, &[u8]), CodecFault>
    ensures { (room : ℕ) → ReadsValue room (3 ∷ bytes.now) result }
{
    let Some((field, rest)) = bytes.split_first_chunk() else {
        return Err(CodecFault::NotCanonical);
    };
    Ok((Value::Int(number(field)), rest))
}

fn number(field: &[u8; 8]) -> i64
    ensures { IsWhole field.now result }
{
    i64::from_be_bytes(*field)
}

/// A text: its length, and as many bytes.
fn text(alloc: Global, bytes: &[u8]) -> Result<(Value, &[u8]), CodecFault>
    ensures { (room : ℕ) → ReadsValue room (4 ∷ bytes.now) result }
{
    let Some((text, rest)) = read_name(bytes) else {
        return Err(CodecFault::NotCanonical);
    };
    match Text::new(alloc, text) {
        Ok(text) => Ok((Value::Text(text), rest)),
        Err(fault) => Err(refused(fault)),
    }
}

/// A list: how many items it has, and these.
#[cycle(value)]
fn list(alloc: Global, room: u32, bytes: &[u8]) -> Result<(Value, &[u8]), CodecFault>
    requires { room ≤ most_depth }
    ensures { ReadsValue room (5 ∷ bytes.now) result }
{
    let Some((count, rest)) = read_length(bytes) else {
        return Err(CodecFault::NotCanonical);
    };
    if room == 0 {
        return Err(CodecFault::NotCanonical);
    }
    let (items, rest) = items(alloc, room - 1, count, rest)?;
    Ok((Value::List(items), rest))
}

/// So many items of at most this depth.
#[cycle(value)]
fn items(alloc: Global, room: u32, count: usize, bytes: &[u8]) -> Result<(List, &[u8]), CodecFault>
    requires { suc room ≤ most_depth }
    ensures { ReadsItems (suc room) count bytes.now result }
{
    let room_for = count.min(bytes.len()).min(MOST_AT_ONCE);
    let Ok(mut found) = List::with_capacity(alloc, room_for) else {
        return Err(CodecFault::Memory);
    };
    let mut rest = bytes;
    for _ in 0..count {
        let (item, behind) = value(alloc, room, rest)?;
        add_item(&mut found, item)?;
        rest = behind;
    }
    Ok((found, rest))
}

/// Appends an item. It is `NotCanonical` where the list would be too large.
fn add_item(found: &mut List, item: Value) -> Result<(), CodecFault>
    requires shallow_list { data_depth (list_data found.old) ≤ most_depth }
    requires shallow_item { suc (data_depth (plain item)) ≤ most_depth }
    ensures { AddsItem found.old found.new (plain item) result }
{
    match found.push(item) {
        Ok(()) => Ok(()),
        Err(fault) => Err(refused(fault)),
    }
}

/// What is above a limit of values is no stored form.
fn refused(fault: ValueFault) -> CodecFault
    ensures { Passes fault result }
{
    match fault {
        ValueFault::Memory => CodecFault::Memory,
        _ => CodecFault::NotCanonical,
    }
}

/// An object: how many members it has, and these.
#[cycle(value)]
fn object(alloc: Global, room: u32, bytes: &[u8]) -> Result<(Value, &[u8]), CodecFault>
    requires { room ≤ most_depth }
    ensures { ReadsValue room (6 ∷ bytes.now) result }
{
    let Some((count, rest)) = read_length(bytes) else {
        return Err(CodecFault::NotCanonical);
    };
    if room == 0 {
        return Err(CodecFault::NotCanonical);
    }
    let (members, rest) = members(alloc, room - 1, count, rest)?;
    match members.finish(alloc) {
        Ok(object) => Ok((Value::Object(object), rest)),
        Err(fault) => Err(refused(fault)),
    }
}

/// So many members with values of at most this depth and distinct names.
#[cycle(value)]
fn members(
    alloc: Global,
    room: u32,
    count: usize,
    bytes: &[u8],
) -> Result<(ObjectBuilder, &[u8]), CodecFault>
    requires { suc room ≤ most_depth }
    ensures { ReadsMembers (suc room) count bytes.now result }
{
    let mut found = ObjectBuilder::new(alloc);
    let mut rest = bytes;
    for at in 0..count {
        let (name, value, behind) = member(alloc, room, rest)?;
        let place = found.set(name, value)?;
        if place < at {
            return Err(CodecFault::NotCanonical);
        }
        rest = behind;
    }
    Ok((found, rest))
}

/// A name and a value of at most this depth.
#[cycle(value)]
fn member(alloc: Global, room: u32, bytes: &[u8]) -> Result<(Vec<u8>, Value, &[u8]), CodecFault>
    requires { suc room ≤ most_depth }
    ensures { ReadsMember room bytes.now result }
{
    let Some((name, rest)) = read_name(bytes) else {
        return Err(CodecFault::NotCanonical);
    };
    let name = Vec::from_slice(alloc, name)?;
    let (value, rest) = value(alloc, room, rest)?;
    Ok((name, value, rest))
}

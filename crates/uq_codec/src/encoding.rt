//! Writing the stored form of a value.
ghost use Rattle.std.specs.Prelude.{◌≡◌, ◌<◌, [], ◌∷◌, length, OnOk, OnErr};
ghost use Rattle.uq_value.specs.Data.{text, int, list as list_data, object as object_data};
ghost use Rattle.uq_value.specs.Plain.{plain};
ghost use Rattle.uq_codec.specs.Answer.{Appends};
ghost use Rattle.uq_codec.specs.Stored.{IsName, Encodes};
ghost use Rattle.uq_codec.specs.Internal.Writing.{Writes, EncodesItemAt, EncodesMemberAt};

use crate::kind;
use crate::varint::push_length;
use byteorder::{BigEndian, ByteOrder};
use std::alloc::{AllocError, Global};
use uq_value::{List, NoMemory, Object, Value, is_value, size};

/// Appends the stored form of the value. All memory that it takes is the buffer's own, which keeps its allocator.
pub fn encode(_alloc: Global, v: &Value, out: &mut Vec<u8>) -> Result<(), NoMemory>
    ensures stored { OnOk result (Appends out.old.items out.new.items v.now) }
    ensures unchanged { OnErr result (out.new.items ≡ out.old.items) }
{
    is_value(v);
    // The buffer grows once at most.
    out.reserve(size(v) as usize)?;
    let before = out.len();
    match push_value(out, v) {
        Ok(()) => Ok(()),
        Err(_) => {
            out.truncate(before);
            Err(NoMemory)
        }
    }
}

#[cycle(encode)]
fn push_value(out: &mut Vec<u8>, v: &Value) -> Result<(), AllocError>
    ensures { Writes (λ word. Encodes word (plain v.now)) out.old.items out.new.items result }
{
    match v {
        Value::Null => push_kind(out, kind::NULL),
        Value::Bool(false) => push_kind(out, kind::FALSE),
        Value::Bool(true) => push_kind(out, kind::TRUE),
        Value::Int(z) => push_whole(out, *z),
        Value::Text(t) => push_text(out, t.bytes()),
        Value::List(l) => push_list(out, l),
        Value::Object(o) => push_object(out, o),
    }
}

#[cycle(encode)]
fn push_list(out: &mut Vec<u8>, list: &List) -> Result<(), AllocError>
    ensures { Writes (λ word. Encodes word (list_data list.now)) out.old.items out.new.items result }
{
    push_kind(out, kind::LIST)?;
    push_length(out, list.len())?;
    for at in 0..list.len() {
        push_item(out, list, at)?;
    }
    Ok(())
}

#[cycle(encode)]
fn push_item(out: &mut Vec<u8>, list: &List, at: usize) -> Result<(), AllocError>
    requires { at < length list.now }
    ensures { Writes (EncodesItemAt list.now at) out.old.items out.new.items result }
{
    match list.item(at) {
        Some(item) => push_value(out, item),
        None => unreachable!(),
    }
}

#[cycle(encode)]
fn push_object(out: &mut Vec<u8>, object: &Object) -> Result<(), AllocError>
    ensures { Writes (λ word. Encodes word (object_data object.now)) out.old.items out.new.items result }
{
    object.is_value();
    push_kind(out, kind::OBJECT)?;
    push_length(out, object.len())?;
    for at in 0..object.len() {
        push_member(out, object, at)?;
    }
    Ok(())
}

#[cycle(encode)]
fn push_member(out: &mut Vec<u8>, object: &Object, at: usize) -> Result<(), AllocError>
    requires { at < length object.now }
    ensures { Writes (EncodesMemberAt object.now at) out.old.items out.new.items result }
{
    match object.member(at) {
        Some((name, value)) => {
            push_name(out, name)?;
            push_value(out, value)
        }
        None => unreachable!(),
    }
}

fn push_whole(out: &mut Vec<u8>, z: i64) -> Result<(), AllocError>
    ensures { Writes (λ word. Encodes word (int z)) out.old.items out.new.items result }
{
    let mut word = [kind::WHOLE; 9];
    BigEndian::write_i64(&mut word[1..], z);
    out.extend_from_slice(&word)
}

fn push_text(out: &mut Vec<u8>, bytes: &[u8]) -> Result<(), AllocError>
    ensures { Writes (λ word. Encodes word (text bytes.now)) out.old.items out.new.items result }
{
    push_kind(out, kind::TEXT)?;
    push_name(out, bytes)
}

/// Appends a length and the bytes.
fn push_name(out: &mut Vec<u8>, bytes: &[u8]) -> Result<(), AllocError>
    ensures { Writes (λ word. IsName word bytes.now) out.old.items out.new.items result }
{
    push_length(out, bytes.len())?;
    out.extend_from_slice(bytes)
}

/// Appends the byte with which a kind begins.
fn push_kind(out: &mut Vec<u8>, kind: u8) -> Result<(), AllocError>
    ensures { Writes (λ word. word ≡ kind ∷ []) out.old.items out.new.items result }
{
    out.push(kind)?;
    Ok(())
}

//! The JSON text of a value, without blanks, and its text.
ghost use Rattle.std.specs.Prelude.{◌≡◌, ◌<◌, ◌++◌, length, Ok, IfOk, OnOk};
ghost use Rattle.uq_value.specs.Data.{list as list_data, object as object_data};
ghost use Rattle.uq_value.specs.Plain.{plain};
ghost use Rattle.uq_json.specs.Answer.{JsonAnswers};
ghost use Rattle.uq_json.specs.Internal.Printing.{comma_before, item_text, member_text};
ghost use Rattle.uq_json.specs.Text.{json, text_of as spec_text_of};

use crate::quoting::push_quoted;
use itoa::Buffer;
use std::alloc::{AllocError, Global};
use uq_value::{List, NoMemory, Object, Value, is_value};

/// The JSON text of a value, without blanks.
pub fn print_json(alloc: Global, v: &Value) -> Result<Vec<u8>, NoMemory>
    ensures text { IfOk result (λ text. text.items ≡ json (plain v.now)) }
    // So `read_json` gives the value back.
    ensures answer { IfOk result (λ text. JsonAnswers text.items (Ok v.now)) }
{
    is_value(v);
    let mut text = Vec::new(alloc);
    push_value(&mut text, v)?;
    Ok(text)
}

/// The text of a value: null is empty, a text is itself, a boolean or number its word or decimal digits, and a list
/// or object its JSON text.
pub fn text_of(alloc: Global, v: &Value) -> Result<Vec<u8>, NoMemory>
    ensures { IfOk result (λ text. text.items ≡ spec_text_of v.now) }
{
    match v {
        Value::Null => Ok(Vec::new(alloc)),
        Value::Text(t) => Ok(Vec::from_slice(alloc, t.bytes())?),
        _ => print_json(alloc, v),
    }
}

#[cycle(print)]
fn push_value(text: &mut Vec<u8>, v: &Value) -> Result<(), AllocError>
    ensures { OnOk result (text.new.items ≡ text.old.items ++ json (plain v.now)) }
{
    match v {
        Value::Null => text.extend_from_slice(b"null"),
        Value::Bool(true) => text.extend_from_slice(b"true"),
        Value::Bool(false) => text.extend_from_slice(b"false"),
        Value::Int(z) => text.extend_from_slice(Buffer::new().format(*z).as_bytes()),
        Value::Text(t) => push_quoted(text, t.bytes()),
        Value::List(l) => push_list(text, l),
        Value::Object(o) => push_object(text, o),
    }
}

#[cycle(print)]
fn push_list(text: &mut Vec<u8>, list: &List) -> Result<(), AllocError>
    ensures { OnOk result (text.new.items ≡ text.old.items ++ json (list_data list.now)) }
{
    text.push(b'[')?;
    for at in 0..list.len() {
        push_item(text, list, at)?;
    }
    text.push(b']')?;
    Ok(())
}

#[cycle(print)]
fn push_item(text: &mut Vec<u8>, list: &List, at: usize) -> Result<(), AllocError>
    requires { at < length list.now }
    ensures { OnOk result (text.new.items ≡ text.old.items ++ (comma_before at ++ item_text list.now at)) }
{
    push_comma(text, at)?;
    match list.item(at) {
        Some(item) => push_value(text, item),
        None => unreachable!(),
    }
}

#[cycle(print)]
fn push_object(text: &mut Vec<u8>, object: &Object) -> Result<(), AllocError>
    ensures { OnOk result (text.new.items ≡ text.old.items ++ json (object_data object.now)) }
{
    text.push(b'{')?;
    for at in 0..object.len() {
        push_member(text, object, at)?;
    }
    text.push(b'}')?;
    Ok(())
}

#[cycle(print)]
fn push_member(text: &mut Vec<u8>, object: &Object, at: usize) -> Result<(), AllocError>
    requires { at < length object.now }
    ensures { OnOk result (text.new.items ≡ text.old.items ++ (comma_before at ++ member_text object.now at)) }
{
    push_comma(text, at)?;
    match object.member(at) {
        Some((name, value)) => {
            push_quoted(text, name)?;
            text.push(b':')?;
            push_value(text, value)
        }
        None => unreachable!(),
    }
}

/// A comma, unless at the first place.
fn push_comma(text: &mut Vec<u8>, at: usize) -> Result<(), AllocError>
    ensures { OnOk result (text.new.items ≡ text.old.items ++ comma_before at) }
{
    if at > 0 {
        text.push(b',')?;
    }
    Ok(())
}

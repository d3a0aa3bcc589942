//! JSON texts, read from the left by functions from a text to what stands at its front and the text behind it.
//!
//! A value that is too large to be one is left out (None), since a repeated member may yet take its place.
ghost use Rattle.std.specs.Prelude.{◌≡◌, ◌≢◌, ◌<◌, ◌≤◌, ◌++◌, ◌∷◌, [], suc, length, Some, None, Result, Err, IfOk, IfErr, IfSome};
ghost use Rattle.uq_value.specs.Data.{Bytes, Data, Datas, Pairs, list as list_data, object as object_data};
ghost use Rattle.uq_value.specs.Depth.{data_depth, most_depth};
ghost use Rattle.uq_value.specs.Plain.{plain, depth as spec_depth};
ghost use Rattle.uq_json.specs.Answer.{JsonAnswers};
ghost use Rattle.uq_json.specs.Internal.Found.{Finds, FindsItems, FindsMembers, FindsMember, StandsFor, ListStandsFor};
ghost use Rattle.uq_json.specs.Internal.Reading.{Gives, literal as spec_literal, string_data_at, scalar_at, list_at, object_at, member_at, listed_within, value_within, element_at, separator_at};
ghost use Rattle.uq_json.specs.declared.error.JsonFault.TheVariants.{Memory};
ghost use Rattle.uq_value.specs.declared.value.Value.{Value};

use crate::error::{JsonFault, left_out};
use crate::members::Members;
use crate::numbers::number;
use crate::scanning::{next_is, skip_blanks};
use crate::unquoting::{inside, string};
use std::alloc::Global;
use uq_value::{List, MOST_DEPTH, Object, Text, Value, is_value};

/// The value that the text spells (RFC 8259; numbers are whole and have 64 bits, and strings may hold any bytes from
/// 0x20 on). Read from the left, it is `TooDeep` exactly where a `[` or `{` opens the 129th level and the text so far
/// begins a JSON text, `NotJson` exactly where that does not come and the text is not in the grammar, and `TooLarge`
/// exactly where it is in the grammar and the size of its value is above 16,777,152 bytes.
pub fn read_json(alloc: Global, text: &[u8]) -> Result<Value, JsonFault>
    ensures { JsonAnswers text.now result }
{
    let (found, rest) = element(alloc, MOST_DEPTH, text)?;
    if !rest.is_empty() {
        return Err(JsonFault::NotJson);
    }
    match found {
        Some(value) => {
            is_value(&value);
            Ok(value)
        }
        None => Err(JsonFault::TooLarge),
    }
}

/// A value with blanks around it, of at most `room` levels.
#[cycle(element)]
fn element(alloc: Global, room: u32, text: &[u8]) -> Result<(Option<Value>, &[u8]), JsonFault>
    requires { room ≤ most_depth }
    ensures { Finds result (element_at room text.now) }
{
    let (found, rest) = value(alloc, room, skip_blanks(text))?;
    Ok((found, skip_blanks(rest)))
}

/// A value of at most `room` levels.
#[cycle(element)]
fn value(alloc: Global, room: u32, text: &[u8]) -> Result<(Option<Value>, &[u8]), JsonFault>
    requires { room ≤ most_depth }
    ensures { Finds result (value_within room text.now) }
{
    let is_list = next_is(b'[', text);
    if !is_list && !next_is(b'{', text) {
        return scalar(alloc, text);
    }
    if room == 0 {
        return Err(JsonFault::TooDeep);
    }
    if is_list {
        list(alloc, room - 1, &text[1..])
    } else {
        object(alloc, room - 1, &text[1..])
    }
}

/// What stands behind `[`, with items of at most `room` levels.
#[cycle(element)]
fn list(alloc: Global, room: u32, text: &[u8]) -> Result<(Option<Value>, &[u8]), JsonFault>
    requires { room < most_depth }
    ensures { Finds result (list_at (element_at room) text.now) }
{
    let inner = skip_blanks(text);
    if next_is(b']', inner) {
        return Ok((Some(Value::List(List::new(alloc))), &inner[1..]));
    }
    let (items, rest) = items(alloc, room, text)?;
    Ok((whole_list(items), rest))
}

/// One item or more, and `]`.
#[cycle(element)]
fn items(alloc: Global, room: u32, text: &[u8]) -> Result<(Option<List>, &[u8]), JsonFault>
    requires { room < most_depth }
    ensures { FindsItems result (listed_within (element_at room) 0x5d (suc (length text.now)) text.now) }
{
    let mut found = Some(List::new(alloc));
    let mut rest = text;
    'items: loop {
        let (item, after) = element(alloc, room, rest)?;
        found = with_item(found, item)?;
        let (comma, behind) = separator(b']', after)?;
        if !comma {
            return Ok((found, behind));
        }
        rest = behind;
    }
}

fn whole_list(items: Option<List>) -> Option<Value>
    ensures { (ds : Datas) → ListStandsFor items ds → StandsFor result (list_data ds) }
{
    match items {
        Some(list) => Some(Value::List(list)),
        None => None,
    }
}

/// The list with one item more. It is left out where it or the item is too large.
fn with_item(items: Option<List>, item: Option<Value>) -> Result<Option<List>, JsonFault>
    requires { IfSome item (λ v. spec_depth v < most_depth) }
    ensures ok { IfOk result (λ now. (ds : Datas) (d : Data) →
        ListStandsFor items ds → StandsFor item d → ListStandsFor now (ds ++ d ∷ [])) }
    ensures err { IfErr result (λ e. e ≡ Memory) }
{
    let Some(mut list) = items else {
        return Ok(None);
    };
    let Some(item) = item else {
        return Ok(None);
    };
    match list.push(item) {
        Ok(()) => Ok(Some(list)),
        Err(fault) => left_out(fault),
    }
}

/// What stands behind `{`, with values of at most `room` levels.
#[cycle(element)]
fn object(alloc: Global, room: u32, text: &[u8]) -> Result<(Option<Value>, &[u8]), JsonFault>
    requires { room < most_depth }
    ensures { Finds result (object_at (element_at room) text.now) }
{
    let inner = skip_blanks(text);
    if next_is(b'}', inner) {
        return Ok((Some(Value::Object(Object::new(alloc))), &inner[1..]));
    }
    let (members, rest) = members(alloc, room, text)?;
    Ok((members.finish(alloc)?, rest))
}

/// One member or more, and `}`.
#[cycle(element)]
fn members(alloc: Global, room: u32, text: &[u8]) -> Result<(Members, &[u8]), JsonFault>
    requires { room < most_depth }
    ensures { FindsMembers result (listed_within (member_at (element_at room)) 0x7d (suc (length text.now)) text.now) }
{
    let mut found = Members::new(alloc);
    let mut rest = text;
    'members: loop {
        let (name, value, after) = member(alloc, room, rest)?;
        found.set(name, value)?;
        let (comma, behind) = separator(b'}', after)?;
        if !comma {
            return Ok((found, behind));
        }
        rest = behind;
    }
}

/// A name, `:` and a value.
#[cycle(element)]
fn member(
    alloc: Global,
    room: u32,
    text: &[u8],
) -> Result<(Vec<u8>, Option<Value>, &[u8]), JsonFault>
    requires { room < most_depth }
    ensures { FindsMember (λ name. name.items) result (member_at (element_at room) text.now) }
{
    let (name, rest) = string(alloc, skip_blanks(text))?;
    let rest = skip_blanks(rest);
    if !next_is(b':', rest) {
        return Err(JsonFault::NotJson);
    }
    let (value, rest) = element(alloc, room, &rest[1..])?;
    Ok((name, value, rest))
}

/// Whether a comma is next. Else it is the closing bracket.
fn separator(close: u8, text: &[u8]) -> Result<(bool, &[u8]), JsonFault>
    ensures { Gives (λ x. (x.0, x.1.now)) result (separator_at close text.now) }
{
    if next_is(b',', text) {
        Ok((true, &text[1..]))
    } else if next_is(close, text) {
        Ok((false, &text[1..]))
    } else {
        Err(JsonFault::NotJson)
    }
}

/// A value without parts.
fn scalar(alloc: Global, text: &[u8]) -> Result<(Option<Value>, &[u8]), JsonFault>
    ensures { Finds result (scalar_at text.now) }
{
    match text {
        [b'"', rest @ ..] => string_value(alloc, rest),
        [b'n', ..] => literal(b"null", Value::Null, text),
        [b't', ..] => literal(b"true", Value::Bool(true), text),
        [b'f', ..] => literal(b"false", Value::Bool(false), text),
        _ => {
            let (z, rest) = number(text)?;
            Ok((Some(Value::Int(z)), rest))
        }
    }
}

/// What stands behind the quote of a text.
fn string_value(alloc: Global, text: &[u8]) -> Result<(Option<Value>, &[u8]), JsonFault>
    ensures { Finds result (string_data_at text.now) }
{
    let (bytes, rest) = inside(alloc, text)?;
    match Text::from_vec(alloc, bytes) {
        Ok(text) => Ok((Some(Value::Text(text)), rest)),
        Err(fault) => Ok((left_out(fault)?, rest)),
    }
}

/// The value of a word that has to be there.
fn literal<'t>(
    word: &[u8],
    value: Value,
    text: &'t [u8],
) -> Result<(Option<Value>, &'t [u8]), JsonFault>
    ensures { Finds result (spec_literal word.now (plain value) text.now) }
{
    if text.starts_with(word) {
        Ok((Some(value), &text[word.len()..]))
    } else {
        Err(JsonFault::NotJson)
    }
}

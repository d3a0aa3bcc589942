//! Truth, the two equalities and the order of values.
ghost use Rattle.std.specs.Prelude.{◌≡◌, ◌↔◌, IsTrue};
ghost use Rattle.uq_value.specs.Truth.{truth as spec_truth};
ghost use Rattle.uq_value.specs.Same.{same as spec_same, loose_same as spec_loose_same, same_kind as spec_same_kind, same_number as spec_same_number, has_number as spec_has_number, is_null_or_boolean as spec_is_null_or_boolean};
ghost use Rattle.uq_value.specs.Number.{number as spec_number, text_number as spec_text_number};
ghost use Rattle.uq_value.specs.Order.{order as spec_order, number_order};

use crate::numbers::{number, text_number};
use crate::text::Text;
use crate::value::Value;
use std::cmp::Ordering;

/// Whether the value counts as true: null, false, 0, the empty text, `[]` and `{}` do not.
pub fn truth(v: &Value) -> bool
    ensures { result ≡ spec_truth v.now }
{
    match v {
        Value::Null => false,
        Value::Bool(b) => *b,
        Value::Int(z) => *z != 0,
        Value::Text(t) => !t.bytes().is_empty(),
        Value::List(l) => !l.is_empty(),
        Value::Object(o) => !o.is_empty(),
    }
}

/// `===`: whether the two have the same kind and content, with members in the same order.
pub fn same(a: &Value, b: &Value) -> bool
    ensures value { result ≡ spec_same a.now b.now }
    ensures equality { IsTrue result ↔ (a.now ≡ b.now) }
{
    alike(a, b)
}

#[cycle(alike)]
pub(crate) fn alike(a: &Value, b: &Value) -> bool
    ensures { result ≡ spec_same a.now b.now }
{
    match a {
        Value::Null => matches!(b, Value::Null),
        Value::Bool(x) => match b {
            Value::Bool(y) => *x == *y,
            _ => false,
        },
        Value::Int(x) => match b {
            Value::Int(y) => *x == *y,
            _ => false,
        },
        Value::Text(s) => match b {
            Value::Text(t) => s.bytes() == t.bytes(),
            _ => false,
        },
        Value::List(l) => match b {
            Value::List(m) => l.alike(m),
            _ => false,
        },
        Value::Object(o) => match b {
            Value::Object(p) => o.alike(p),
            _ => false,
        },
    }
}

/// `==`: values of one kind by `===`; where one is null or boolean, by their truths; a number and a text by their
/// numbers; all other pairs are not `==`.
pub fn loose_same(a: &Value, b: &Value) -> bool
    ensures { result ≡ spec_loose_same a.now b.now }
{
    if same_kind(a, b) {
        same(a, b)
    } else if is_null_or_boolean(a) || is_null_or_boolean(b) {
        truth(a) == truth(b)
    } else {
        same_number(a, b)
    }
}

fn same_kind(a: &Value, b: &Value) -> bool
    ensures { result ≡ spec_same_kind a.now b.now }
{
    match a {
        Value::Null => matches!(b, Value::Null),
        Value::Bool(_) => matches!(b, Value::Bool(_)),
        Value::Int(_) => matches!(b, Value::Int(_)),
        Value::Text(_) => matches!(b, Value::Text(_)),
        Value::List(_) => matches!(b, Value::List(_)),
        Value::Object(_) => matches!(b, Value::Object(_)),
    }
}

fn is_null_or_boolean(v: &Value) -> bool
    ensures { result ≡ spec_is_null_or_boolean v.now }
{
    matches!(v, Value::Null | Value::Bool(_))
}

/// Whether the two are a number and a text, and the text's number is that number.
fn same_number(a: &Value, b: &Value) -> bool
    ensures { result ≡ spec_same_number a.now b.now }
{
    match a {
        Value::Int(x) => match b {
            Value::Text(t) => has_number(t, *x),
            _ => false,
        },
        Value::Text(t) => match b {
            Value::Int(y) => has_number(t, *y),
            _ => false,
        },
        _ => false,
    }
}

fn has_number(t: &Text, z: i64) -> bool
    ensures { result ≡ spec_has_number (spec_text_number t.now) z }
{
    match text_number(t.bytes()) {
        None => false,
        Some(n) => n == z,
    }
}

/// Two texts by their bytes, all other pairs by their numbers; None exactly where the two are not both texts and one
/// of them has no number.
pub fn order(a: &Value, b: &Value) -> Option<Ordering>
    ensures { result ≡ spec_order a.now b.now }
{
    match a {
        Value::Text(s) => match b {
            Value::Text(t) => Some(s.bytes().cmp(t.bytes())),
            _ => by_number(a, b),
        },
        _ => by_number(a, b),
    }
}

fn by_number(a: &Value, b: &Value) -> Option<Ordering>
    ensures { result ≡ number_order (spec_number a.now) (spec_number b.now) }
{
    let x = number(a)?;
    let y = number(b)?;
    Some(x.cmp(&y))
}

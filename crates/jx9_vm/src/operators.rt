//! The operators of scripts on two values.

ghost use Rattle.std.specs.Prelude.{◌≡◌, ◌+ℤ◌, ◌-ℤ◌, ◌*ℤ◌, int_div, int_rem, pos, not, IfErr, IfOk, IfSome, Err, Ok};
ghost use Rattle.uq_value.specs.Number.{number as spec_number};
ghost use Rattle.uq_value.specs.Order.{order as spec_order};
ghost use Rattle.uq_value.specs.declared.value.Value.{Value};
ghost use Rattle.jx9_meaning.specs.Expression.{shown as spec_shown, stepped};
ghost use Rattle.jx9_meaning.specs.Operators.{arithmetic, checked, compared, divided, is_above, is_below, operate as spec_operate};
ghost use Rattle.jx9_vm.specs.Operating.{both_numbers, value_of, whole_or_overflow};

use jx9_meaning::FaultKind;
use jx9_syntax::{Binary, Step};
use std::cmp::Ordering;
use uq_value::{Value, loose_same, number, order, same};

/// A number or a truth value, which needs no memory.
#[derive(Drop)]
pub(crate) enum Plain {
    Number(i64),
    Truth(bool),
}

/// What an operator gives on two numbers, None where it faults, or is one of those that are left to `operate`.
#[tactic(auto, unfolding(jx9_meaning::specs::Operators::operate))]
#[inline(always)]
pub(crate) fn operate_numbers(operator: Binary, x: i64, y: i64) -> Option<Plain>
    ensures { IfSome result (λ plain. spec_operate operator (Value.Int x) (Value.Int y) ≡ Ok (value_of plain)) }
{
    match operator {
        Binary::Add => plain_sum(x, y),
        Binary::Subtract => plain_difference(x, y),
        Binary::Less => Some(Plain::Truth(matches!(x.cmp(&y), Ordering::Less))),
        Binary::LessOrEqual => Some(Plain::Truth(!matches!(x.cmp(&y), Ordering::Greater))),
        Binary::Greater => Some(Plain::Truth(matches!(x.cmp(&y), Ordering::Greater))),
        Binary::GreaterOrEqual => Some(Plain::Truth(!matches!(x.cmp(&y), Ordering::Less))),
        _ => None,
    }
}

#[inline(always)]
fn plain_sum(x: i64, y: i64) -> Option<Plain>
    ensures { IfSome result (λ plain. checked (x +ℤ y) ≡ Ok (value_of plain)) }
{
    match x.checked_add(y) {
        Some(z) => Some(Plain::Number(z)),
        None => None,
    }
}

#[inline(always)]
fn plain_difference(x: i64, y: i64) -> Option<Plain>
    ensures { IfSome result (λ plain. checked (x -ℤ y) ≡ Ok (value_of plain)) }
{
    match x.checked_sub(y) {
        Some(z) => Some(Plain::Number(z)),
        None => None,
    }
}

/// The operator on two values: its value, or its fault.
#[tactic(auto, unfolding(jx9_meaning::specs::Operators::operate))]
pub(crate) fn operate(operator: Binary, left: &Value, right: &Value) -> Result<Value, FaultKind>
    ensures { result ≡ spec_operate operator left.now right.now }
{
    match operator {
        Binary::Add => sum(left, right),
        Binary::Subtract => difference(left, right),
        Binary::Multiply => product(left, right),
        Binary::Divide => quotient(left, right),
        Binary::Remainder => remainder(left, right),
        Binary::Equal => Ok(Value::Bool(loose_same(left, right))),
        Binary::NotEqual => Ok(Value::Bool(!loose_same(left, right))),
        Binary::Same => Ok(Value::Bool(same(left, right))),
        Binary::NotSame => Ok(Value::Bool(!same(left, right))),
        Binary::Less => less(left, right),
        Binary::LessOrEqual => less_or_equal(left, right),
        Binary::Greater => greater(left, right),
        Binary::GreaterOrEqual => greater_or_equal(left, right),
    }
}

/// The numbers of both values.
fn numbers(left: &Value, right: &Value) -> Result<(i64, i64), FaultKind>
    ensures { result ≡ both_numbers (spec_number left.now) (spec_number right.now) }
{
    match number(left) {
        None => Err(FaultKind::NotNumber),
        Some(x) => match number(right) {
            None => Err(FaultKind::NotNumber),
            Some(y) => Ok((x, y)),
        },
    }
}

fn sum(left: &Value, right: &Value) -> Result<Value, FaultKind>
    ensures { result ≡ arithmetic (λ x y. checked (x +ℤ y)) (spec_number left.now) (spec_number right.now) }
{
    match numbers(left, right) {
        Ok((x, y)) => whole(x.checked_add(y)),
        Err(kind) => Err(kind),
    }
}

fn difference(left: &Value, right: &Value) -> Result<Value, FaultKind>
    ensures { result ≡ arithmetic (λ x y. checked (x -ℤ y)) (spec_number left.now) (spec_number right.now) }
{
    match numbers(left, right) {
        Ok((x, y)) => whole(x.checked_sub(y)),
        Err(kind) => Err(kind),
    }
}

fn product(left: &Value, right: &Value) -> Result<Value, FaultKind>
    ensures { result ≡ arithmetic (λ x y. checked (x *ℤ y)) (spec_number left.now) (spec_number right.now) }
{
    match numbers(left, right) {
        Ok((x, y)) => whole(x.checked_mul(y)),
        Err(kind) => Err(kind),
    }
}

fn quotient(left: &Value, right: &Value) -> Result<Value, FaultKind>
    ensures { result ≡ arithmetic (divided int_div) (spec_number left.now) (spec_number right.now) }
{
    match numbers(left, right) {
        Ok((x, y)) => truncated(x, y),
        Err(kind) => Err(kind),
    }
}

fn remainder(left: &Value, right: &Value) -> Result<Value, FaultKind>
    ensures { result ≡ arithmetic (divided int_rem) (spec_number left.now) (spec_number right.now) }
{
    match numbers(left, right) {
        Ok((x, y)) => rest(x, y),
        Err(kind) => Err(kind),
    }
}

/// A quotient, truncated towards zero.
fn truncated(x: i64, y: i64) -> Result<Value, FaultKind>
    ensures { result ≡ divided int_div x y }
{
    if y == 0 {
        return Err(FaultKind::ZeroDivisor);
    }
    whole(x.checked_div(y))
}

/// What a truncated quotient leaves. By -1 it is 0, also of the least number.
fn rest(x: i64, y: i64) -> Result<Value, FaultKind>
    ensures { result ≡ divided int_rem x y }
{
    if y == 0 {
        return Err(FaultKind::ZeroDivisor);
    }
    if y == -1 {
        return Ok(Value::Int(0));
    }
    Ok(Value::Int(x % y))
}

/// The value of a number that was in range.
fn whole(number: Option<i64>) -> Result<Value, FaultKind>
    ensures { result ≡ whole_or_overflow number }
{
    match number {
        Some(z) => Ok(Value::Int(z)),
        None => Err(FaultKind::Overflow),
    }
}

fn less(left: &Value, right: &Value) -> Result<Value, FaultKind>
    ensures { result ≡ compared is_below (spec_order left.now right.now) }
{
    match order(left, right) {
        None => Err(FaultKind::NotNumber),
        Some(order) => Ok(Value::Bool(matches!(order, Ordering::Less))),
    }
}

fn less_or_equal(left: &Value, right: &Value) -> Result<Value, FaultKind>
    ensures { result ≡ compared (λ o. not (is_above o)) (spec_order left.now right.now) }
{
    match order(left, right) {
        None => Err(FaultKind::NotNumber),
        Some(order) => Ok(Value::Bool(!matches!(order, Ordering::Greater))),
    }
}

fn greater(left: &Value, right: &Value) -> Result<Value, FaultKind>
    ensures { result ≡ compared is_above (spec_order left.now right.now) }
{
    match order(left, right) {
        None => Err(FaultKind::NotNumber),
        Some(order) => Ok(Value::Bool(matches!(order, Ordering::Greater))),
    }
}

fn greater_or_equal(left: &Value, right: &Value) -> Result<Value, FaultKind>
    ensures { result ≡ compared (λ o. not (is_below o)) (spec_order left.now right.now) }
{
    match order(left, right) {
        None => Err(FaultKind::NotNumber),
        Some(order) => Ok(Value::Bool(!matches!(order, Ordering::Less))),
    }
}

/// The number after `++` or `--`.
pub(crate) fn step_from(step: Step, old: i64) -> Result<i64, FaultKind>
    ensures ok { IfOk result (λ new. spec_operate (stepped step) (Value.Int old) (Value.Int (pos 1)) ≡ Ok (Value.Int new)) }
    ensures fault { IfErr result (λ kind. spec_operate (stepped step) (Value.Int old) (Value.Int (pos 1)) ≡ Err kind) }
{
    match step {
        Step::IncrementFirst | Step::IncrementAfter => in_range(old.checked_add(1)),
        Step::DecrementFirst | Step::DecrementAfter => in_range(old.checked_sub(1)),
    }
}

/// A number that was in range.
fn in_range(number: Option<i64>) -> Result<i64, FaultKind>
    ensures ok { IfOk result (λ z. whole_or_overflow number ≡ Ok (Value.Int z)) }
    ensures fault { IfErr result (λ kind. whole_or_overflow number ≡ Err kind) }
{
    match number {
        Some(z) => Ok(z),
        None => Err(FaultKind::Overflow),
    }
}

/// The number that `++` or `--` shows: the new one before its place, the old one behind it.
pub(crate) fn shown(step: Step, old: i64, new: i64) -> Value
    ensures { result ≡ spec_shown step (Value.Int old) (Value.Int new) }
{
    match step {
        Step::IncrementFirst | Step::DecrementFirst => Value::Int(new),
        Step::IncrementAfter | Step::DecrementAfter => Value::Int(old),
    }
}

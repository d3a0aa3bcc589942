//! Whether functions are code.

ghost use Rattle.std.specs.Prelude.{◌≡◌, ◌+◌, ◌^◌, ◌<◌, ◌||◌, length, All, IfErr, IfOk, MatchOption, OnOk, nat_eq, slice_get};
ghost use Rattle.jx9_compile.specs.declared.op.Op.{Op};
ghost use Rattle.jx9_compile.specs.Assembled.{AreGood, IsFirstBadAt, IsGood, IsRefused};
ghost use Rattle.jx9_compile.specs.Heights.{AreHeights, is_beyond, is_misplaced, names_nothing, seen_at};

use crate::error::CodeFault;
use crate::function::Function;
use crate::heights::{Seen, heights_of};
use crate::op::Op;
use std::alloc::Global;
use uq_value::NoMemory;

/// Whether a number names none of so many things.
fn is_beyond(count: usize, number: Option<u32>) -> bool
    ensures { result ≡ is_beyond count number }
{
    match number {
        Some(number) => count <= number as usize,
        None => false,
    }
}

/// Whether the op's jump, its slot or its function is not there.
fn names_nothing(functions: usize, function: &Function, op: &Op) -> bool
    ensures { result ≡ names_nothing functions function.now op.now }
{
    is_beyond(function.ops().len(), op.jump())
        || is_beyond(function.slots() as usize, op.slot())
        || is_beyond(functions, op.callee())
}

/// Whether the op at this place is bad, by the heights at the ops.
fn is_bad(functions: usize, function: &Function, table: &[Seen], at: usize) -> bool
    requires within { at < length function.now.ops }
    requires heights { AreHeights function.now.ops table.now }
    ensures { (op : Op) → slice_get function.now.ops at ≡ Some op
        → result ≡ (names_nothing functions function.now op || is_misplaced (seen_at table.now at) op (nat_eq (at + 1) (length function.now.ops))) }
{
    let op = &function.ops()[at];
    names_nothing(functions, function, op)
        || table[at].is_misplaced(op, at + 1 == function.ops().len())
}

/// The first bad place of a function, in a code of so many functions.
fn first_bad(alloc: Global, functions: usize, function: &Function) -> Result<Option<u32>, NoMemory>
    requires { length function.now.ops < 2 ^ 32 }
    ensures { IfOk result (λ bad. MatchOption bad (IsGood functions function.now) (IsFirstBadAt functions function.now)) }
{
    let ops = function.ops();
    if ops.is_empty() {
        return Ok(Some(0));
    }
    if function.slots() < function.params() {
        return Ok(Some(0));
    }
    let table = heights_of(alloc, ops)?;
    for at in 0..ops.len() {
        if is_bad(functions, function, table.as_slice(), at) {
            return Ok(Some(at as u32));
        }
    }
    Ok(None)
}

/// Whether the functions are code, or where the first bad op stands.
pub(crate) fn check(alloc: Global, functions: &[Function]) -> Result<(), CodeFault>
    requires few { length functions.now < 2 ^ 32 }
    requires short { All (λ f. length f.ops < 2 ^ 32) functions.now }
    ensures ok { OnOk result (AreGood functions.now) }
    ensures fault { IfErr result (IsRefused functions.now) }
{
    if functions.is_empty() {
        return Err(CodeFault::BadCode { function: 0, at: 0 });
    }
    for (number, function) in functions.iter().enumerate() {
        if let Some(at) = first_bad(alloc, functions.len(), function)? {
            return Err(CodeFault::BadCode {
                function: number as u32,
                at,
            });
        }
    }
    Ok(())
}

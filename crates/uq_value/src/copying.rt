//! Copies of values.
ghost use Rattle.std.specs.Prelude.{◌≡◌, IfOk};

use crate::error::NoMemory;
use crate::value::Value;
use std::alloc::Global;

/// The same value, in memory of its own: a later change of the one leaves the other.
#[cycle(copy)]
pub fn copy(alloc: Global, v: &Value) -> Result<Value, NoMemory>
    ensures { IfOk result (λ w. w ≡ v.now) }
{
    match v {
        Value::Null => Ok(Value::Null),
        Value::Bool(b) => Ok(Value::Bool(*b)),
        Value::Int(z) => Ok(Value::Int(*z)),
        Value::Text(t) => Ok(Value::Text(t.copy(alloc)?)),
        Value::List(l) => Ok(Value::List(l.copy(alloc)?)),
        Value::Object(o) => Ok(Value::Object(o.copy(alloc)?)),
    }
}

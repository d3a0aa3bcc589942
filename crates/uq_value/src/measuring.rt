//! The size and depth of values, which lists and objects keep.
ghost use Rattle.std.specs.Prelude.{◌≡◌, ◌≤◌, ◌<◌, ◌+◌, ◌^◌};
ghost use Rattle.uq_value.specs.Size.{leb_size as spec_leb_size, name_size as spec_name_size, most_size};
ghost use Rattle.uq_value.specs.Depth.{most_depth};
ghost use Rattle.uq_value.specs.IsValue.{IsValue};
ghost use Rattle.uq_value.specs.Plain.{plain, size as spec_size, depth as spec_depth};

use crate::value::Value;

/// The greatest size of a value, in bytes of its stored form: 2^24 - 64.
pub const MOST_SIZE: u64 = 16_777_152;

/// The greatest depth of a value.
pub const MOST_DEPTH: u32 = 128;

/// The length of the value's stored form.
pub fn size(v: &Value) -> u64
    ensures size { result ≡ spec_size v.now }
    ensures fits { spec_size v.now ≤ most_size }
{
    match v {
        Value::Null | Value::Bool(_) => 1,
        Value::Int(_) => 9,
        Value::Text(t) => 1 + name_size(t.bytes()),
        Value::List(l) => l.size(),
        Value::Object(o) => o.size(),
    }
}

/// How deep lists and objects nest in the value: 1 for those with none within, 0 for all other kinds.
pub fn depth(v: &Value) -> u32
    ensures depth { result ≡ spec_depth v.now }
    ensures fits { spec_depth v.now ≤ most_depth }
{
    match v {
        Value::Null | Value::Bool(_) | Value::Int(_) | Value::Text(_) => 0,
        Value::List(l) => l.depth(),
        Value::Object(o) => o.depth(),
    }
}

/// What every value is, by its plain data: a caller's proof learns it from this call, which does nothing.
pub fn is_value(v: &Value)
    ensures { IsValue (plain v.now) }
{
    match v {
        Value::Null | Value::Bool(_) => {}
        Value::Int(z) => {
            let _number = *z;
        }
        Value::Text(t) => {
            let _ = t.bytes();
        }
        Value::List(l) => l.is_value(),
        Value::Object(o) => o.is_value(),
    }
}

/// The bytes that a length and these bytes take.
pub(crate) fn name_size(bytes: &[u8]) -> u64
    ensures size { result ≡ spec_name_size bytes.now }
    ensures small { result < 2 ^ 63 + 10 }
{
    leb_size(bytes.len()) + bytes.len() as u64
}

/// The bytes of a length as unsigned LEB128: groups of seven bits.
pub(crate) fn leb_size(n: usize) -> u64
    ensures size { result ≡ spec_leb_size n }
    ensures small { result ≤ 10 }
{
    let mut rest = n;
    for groups in 1..10 {
        if rest < 128 {
            return groups;
        }
        rest /= 128;
    }
    10
}

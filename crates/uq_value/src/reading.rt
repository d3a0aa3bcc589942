//! What stands in a value, one step on.
ghost use Rattle.std.specs.Prelude.{◌≡◌, option_copied};
ghost use Rattle.uq_value.specs.Reading.{get_member as spec_get_member, get_index as spec_get_index};

use crate::key::Key;
use crate::value::Value;
use itoa::Buffer;

/// An object's member of this name.
pub fn get_member<'v>(v: &'v Value, name: &[u8]) -> Option<&'v Value>
    ensures { option_copied result ≡ spec_get_member v.now name.now }
{
    match v {
        Value::Object(o) => o.find(name),
        _ => None,
    }
}

/// A list's item by a whole number, or an object's member by a text or by a whole number's decimal text.
pub fn get_index<'v>(v: &'v Value, at: &Value) -> Option<&'v Value>
    ensures { option_copied result ≡ spec_get_index v.now at.now }
{
    let mut decimal = Buffer::new();
    let key = Key::of_index(v, at, &mut decimal).ok()?;
    key.there(v)
}

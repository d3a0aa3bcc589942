//! The texts of values, joined.

ghost use Rattle.std.specs.Prelude.{◌≡◌, ◌≤◌, ◌++◌, IfErr, IfOk, OnOk};
ghost use Rattle.uq_value.specs.Faults.{TextFault};
ghost use Rattle.uq_value.specs.Size.{most_size, text_size};
ghost use Rattle.uq_json.specs.Text.{text_of as spec_text_of};
ghost use Rattle.jx9_meaning.specs.Expression.{joined as spec_joined};

use std::alloc::Global;
use uq_json::text_of;
use uq_value::{NoMemory, Text, Value, ValueFault};

/// The texts of the values, from the first on.
pub(crate) fn joined(alloc: Global, values: &[Value]) -> Result<Vec<u8>, NoMemory>
    ensures { IfOk result (λ text. text.items ≡ spec_joined values.now) }
{
    let mut text = Vec::new(alloc);
    for value in values {
        append(alloc, &mut text, value)?;
    }
    Ok(text)
}

/// Appends the text of the value.
pub(crate) fn append(alloc: Global, text: &mut Vec<u8>, value: &Value) -> Result<(), NoMemory>
    ensures { OnOk result (text.new.items ≡ text.old.items ++ spec_text_of value.now) }
{
    match value {
        Value::Text(bytes) => text.extend_from_slice(bytes.bytes())?,
        _ => text.extend_from_slice(text_of(alloc, value)?.as_slice())?,
    }
    Ok(())
}

/// The text of a value with that of another behind it, in place where the first is a text. It is `TooLarge` exactly
/// where the text would be.
pub(crate) fn extended(alloc: Global, left: Value, right: &Value) -> Result<Text, ValueFault>
    ensures ok { IfOk result (λ t. t ≡ spec_text_of left ++ spec_text_of right.now) }
    ensures fits { OnOk result (text_size (spec_text_of left ++ spec_text_of right.now) ≤ most_size) }
    ensures fault { IfErr result (TextFault (spec_text_of left ++ spec_text_of right.now)) }
{
    match left {
        Value::Text(text) => {
            let mut text = text;
            extend(alloc, &mut text, right)?;
            Ok(text)
        }
        other => {
            let mut text = text_of(alloc, &other)?;
            append(alloc, &mut text, right)?;
            Text::from_vec(alloc, text)
        }
    }
}

/// Puts the text of a value behind a text.
fn extend(alloc: Global, text: &mut Text, value: &Value) -> Result<(), ValueFault>
    ensures ok { OnOk result (text.new ≡ text.old ++ spec_text_of value.now) }
    ensures fits { OnOk result (text_size (text.old ++ spec_text_of value.now) ≤ most_size) }
    ensures fault { IfErr result (TextFault (text.old ++ spec_text_of value.now)) }
{
    match value {
        Value::Text(more) => text.append(more.bytes()),
        _ => text.append(text_of(alloc, value)?.as_slice()),
    }
}

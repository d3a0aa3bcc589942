//! The first step that leads nowhere.

ghost use Rattle.std.specs.Prelude.{◌≡◌, Ok, Err, MatchResult, MatchOption, option_copied};
ghost use Rattle.uq_value.specs.Internal.Reaching.{Leads, Refused, reached};

use crate::error::ValueFault;
use crate::key::Key;
use crate::step::Step;
use crate::value::Value;
use itoa::Buffer;

/// The first fault of the steps.
pub(crate) fn first_fault(v: &Value, steps: &[Step]) -> Option<ValueFault>
    ensures { MatchOption result (Leads steps.now v.now) (λ e. Refused steps.now v.now e) }
{
    let null = Value::Null;
    let mut here = v;
    for step in steps {
        match reach(here, step) {
            Ok(next) => here = next.unwrap_or(&null),
            Err(e) => return Some(e),
        }
    }
    None
}

/// What stands a step on, or why there is no such step.
fn reach<'v>(v: &'v Value, step: &Step) -> Result<Option<&'v Value>, ValueFault>
    ensures { MatchResult result (λ o. reached step.now v.now ≡ Ok (option_copied o)) (λ e. reached step.now v.now ≡ Err e) }
{
    let mut decimal = Buffer::new();
    let key = Key::of_step(v, step, &mut decimal)?;
    Ok(key.there(v))
}

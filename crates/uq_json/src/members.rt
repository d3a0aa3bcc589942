//! The members of an object of a text. A value that is too large to be one is left out, since another of the same name
//! may yet take its place.
ghost use Rattle.std.specs.Prelude.{◌≡◌, ◌≤◌, ◌<◌, [], ◌⊎◌, length, false, IfOk, IfErr, OnOk};
ghost use Rattle.std.specs.List.{list_any};
ghost use Rattle.uq_value.specs.Data.{Data, Pairs, object};
ghost use Rattle.uq_value.specs.Depth.{data_depth, most_depth};
ghost use Rattle.uq_value.specs.Put.{with_member};
ghost use Rattle.uq_json.specs.Internal.LeftOut.{Stands, marked};
ghost use Rattle.uq_json.specs.Internal.Found.{StandsFor};
ghost use Rattle.uq_json.specs.declared.error.JsonFault.TheVariants.{Memory};

use crate::error::{JsonFault, left_out};
use std::alloc::{AllocError, Global};
use uq_value::{NoMemory, ObjectBuilder, Value};

/// Members on the way to an object. Null is kept for a value that is left out, and a mark at its place; behind the last
/// mark nothing is left out.
#[derive(Drop)]
pub(crate) struct Members {
    kept: ObjectBuilder,
    left_out: Vec<bool>,
}

impl Members {
    pub(crate) fn new(alloc: Global) -> Members
        ensures kept { result.kept ≡ [] }
        ensures left_out { result.left_out.items ≡ [] }
    {
        Members {
            kept: ObjectBuilder::new(alloc),
            left_out: Vec::new(alloc),
        }
    }

    /// Sets the member of this name. A value is None where it is too large to be one.
    pub(crate) fn set(&mut self, name: Vec<u8>, value: Option<Value>) -> Result<(), NoMemory>
        ensures { OnOk result ((ms : Pairs) (d : Data) →
            Stands self.old ms → StandsFor value d → data_depth d < most_depth → Stands self.new (with_member name.items d ms)) }
    {
        let is_left_out = value.is_none();
        let place = self.kept.set(name, value.unwrap_or(Value::Null))?;
        mark(&mut self.left_out, place, is_left_out)?;
        Ok(())
    }

    /// The object of these members. It is left out where it is too large.
    pub(crate) fn finish(self, alloc: Global) -> Result<Option<Value>, JsonFault>
        ensures ok { IfOk result (λ found. (ms : Pairs) →
            Stands self ms → data_depth (object ms) ≤ most_depth → StandsFor found (object ms)) }
        ensures err { IfErr result (λ e. e ≡ Memory) }
    {
        let Members {
            kept,
            left_out: marks,
        } = self;
        if is_any_left_out(marks.as_slice()) {
            return Ok(None);
        }
        match kept.finish(alloc) {
            Ok(object) => Ok(Some(Value::Object(object))),
            Err(fault) => left_out(fault),
        }
    }
}

fn is_any_left_out(marks: &[bool]) -> bool
    ensures { result ≡ list_any (λ mark. mark) marks.now }
{
    marks.iter().any(|mark| *mark)
}

/// Sets the mark at a place. Where none is there and nothing is left out, none is needed.
fn mark(marks: &mut Vec<bool>, place: usize, is_left_out: bool) -> Result<(), AllocError>
    ensures { OnOk result ((marks.new.items ≡ marked place is_left_out marks.old.items)
        ⊎ ((is_left_out ≡ false) × (length marks.old.items ≤ place) × (marks.new.items ≡ marks.old.items))) }
{
    if place < marks.len() {
        marks[place] = is_left_out;
    } else if is_left_out {
        marks.resize(place, false)?;
        marks.push(true)?;
    }
    Ok(())
}

//! Copies of texts.

ghost use Rattle.std.specs.Prelude.{◌≡◌, IfOk, IfErr};
ghost use Rattle.jx9_parse.specs.declared.stop.Stop.TheVariants.{Memory};

use crate::stop::Stop;
use jx9_syntax::{Part, Parts};
use std::alloc::Global;
use uq_value::Text;

/// A copy of the text.
pub(crate) fn copy_text(alloc: Global, text: &Text) -> Result<Text, Stop>
    ensures ok { IfOk result (λ copy. copy ≡ text.now) }
    ensures err { IfErr result (λ stop. stop ≡ Memory) }
{
    match Text::new(alloc, text.bytes()) {
        Ok(copy) => Ok(copy),
        Err(_) => Err(Stop::Memory),
    }
}

/// A copy of the part.
fn copy_part(alloc: Global, part: &Part) -> Result<Part, Stop>
    ensures ok { IfOk result (λ copy. copy ≡ part.now) }
    ensures err { IfErr result (λ stop. stop ≡ Memory) }
{
    match part {
        Part::Text(text) => Ok(Part::Text(copy_text(alloc, text)?)),
        Part::Var(name) => Ok(Part::Var(copy_text(alloc, name)?)),
    }
}

/// A copy of the parts.
pub(crate) fn copy_parts(alloc: Global, parts: &Parts) -> Result<Parts, Stop>
    ensures ok { IfOk result (λ copy. copy ≡ parts.now) }
    ensures err { IfErr result (λ stop. stop ≡ Memory) }
{
    let mut copies = Vec::new(alloc);
    for part in parts.as_slice() {
        let copy = copy_part(alloc, part)?;
        copies.push(copy)?;
    }
    Ok(Parts::from_vec(copies))
}

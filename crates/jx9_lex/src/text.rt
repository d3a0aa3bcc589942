//! Texts within the limit of a value.

ghost use Rattle.uq_value.specs.Data.{Bytes};
ghost use Rattle.uq_value.specs.Faults.{TextFault};
ghost use Rattle.jx9_lex.specs.Cuts.{GivesText, TextStop};

use crate::stop::Stop;
use std::alloc::Global;
use uq_value::{Text, ValueFault};

/// A text of these bytes.
pub(crate) fn new_text(alloc: Global, bytes: &[u8]) -> Result<Text, Stop>
    ensures { GivesText bytes.now result }
{
    match Text::new(alloc, bytes) {
        Ok(text) => Ok(text),
        Err(fault) => Err(stop_of(fault)),
    }
}

/// A text of bytes that are its own from now on.
pub(crate) fn own_text(alloc: Global, bytes: Vec<u8>) -> Result<Text, Stop>
    ensures { GivesText bytes.items result }
{
    match Text::from_vec(alloc, bytes) {
        Ok(text) => Ok(text),
        Err(fault) => Err(stop_of(fault)),
    }
}

/// A text that is too large begins no token.
fn stop_of(fault: ValueFault) -> Stop
    ensures { (bs : Bytes) → TextFault bs fault → TextStop bs result }
{
    match fault {
        ValueFault::TooLarge => Stop::Bad,
        _ => Stop::Memory,
    }
}

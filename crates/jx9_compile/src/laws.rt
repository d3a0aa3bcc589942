//! Laws of programs and of what code does, and worked codes, each the contract of a call that does nothing.

ghost use Rattle.jx9_syntax.specs.declared.program.Program.{Program};
ghost use Rattle.jx9_compile.specs.Laws.{EndsAlways, EndsOnce, HasOneOutcome};
ghost use Rattle.jx9_compile.specs.Rows.{CodeRows};

use crate::code::Code;

/// A code ends in one way.
pub fn code_ends_once(code: &Code)
    ensures { EndsOnce code.now }
{}

/// Every code ends, from every world, whether it is assembled or not: units are taken on each way round, and calls go at most
/// 256 deep.
pub fn every_code_ends(code: &Code)
    ensures { EndsAlways code.now }
{}

/// A program is clean, or it has one first problem, and not both.
pub fn one_outcome()
    ensures { (p : Program) → HasOneOutcome p }
{}

/// Codes by hand: what they put out, how they end, and the units that are left.
pub fn code_rows()
    ensures { CodeRows }
{}

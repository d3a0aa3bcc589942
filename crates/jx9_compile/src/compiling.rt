//! From programs to code.

ghost use Rattle.std.specs.Prelude.{IfErr, IfOk, OnOk};
ghost use Rattle.jx9_meaning.specs.Script.{source_of};
ghost use Rattle.jx9_compile.specs.Correct.{Behaves, IsStart, IsUncompiled, KeepsNumber, KeepsRules};
ghost use Rattle.jx9_compile.specs.Problems.{IsClean};

use crate::code::Code;
use crate::emitting::{Emitter, number_of};
use crate::error::CompileFault;
use crate::function::Function;
use crate::names::Names;
use crate::op::Op;
use crate::problems::first_problem;
use jx9_meaning::every_script_ends;
use jx9_syntax::{Program, Statement};
use sqlite_items::Items;
use std::alloc::Global;
use uq_value::NoMemory;

/// The code of a program: from every world it does what the program means, op by op, with the same events, ending, units left
/// and world. It never jumps back but to a `Unit`, and makes fewer than 2^64 - 1 events where it has fewer than 2^64 units.
///
/// `Bad` names the first problem in order of text: a node, a statement or a definition that is not built, or a `break` or
/// `continue` in no loop. Within what is not built no problem is looked for, since it comes later.
pub fn compile(alloc: Global, p: &Program) -> Result<Code, CompileFault>
    ensures behaves { IfOk result (Behaves (source_of p.now)) }
    ensures rules { IfOk result KeepsRules }
    ensures number { IfOk result KeepsNumber }
    ensures clean { OnOk result (IsClean p.now) }
    ensures fault { IfErr result (IsUncompiled p.now) }
{
    if let Some(problem) = first_problem(p) {
        return Err(CompileFault::Bad {
            kind: problem.kind,
            line: problem.line,
        });
    }
    // the law that the clause on the number of events stands on
    every_script_ends();
    let start = start_of(alloc, p.statements.as_slice())?;
    let mut functions = Vec::new(alloc);
    functions.push(start)?;
    Ok(Code::of(functions))
}

/// The function that runs a program's statements.
pub(crate) fn start_of(alloc: Global, statements: &[Statement]) -> Result<Function, NoMemory>
    ensures { IfOk result (IsStart statements.now) }
{
    let mut emitter = Emitter {
        ops: Items::new(alloc),
        names: Names::new(alloc),
    };
    emitter.statements(alloc, None, statements)?;
    emitter.put(Op::End)?;
    let slots = number_of(emitter.names.len())?;
    Ok(Function::of(0, slots, emitter.ops))
}

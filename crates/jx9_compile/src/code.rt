//! Code, and how functions of ops become code.

ghost use Rattle.std.specs.Prelude.{◌≡◌, ◌^◌, ◌<◌, length, All, IfErr, IfOk};
ghost use Rattle.jx9_compile.specs.Assembled.{IsAssembled, IsRefused};

use crate::checking::check;
use crate::error::CodeFault;
use crate::function::{Function, copy_functions};
use sqlite_items::Items;
use std::alloc::Global;

/// Functions whose ops the machine makes. Function 0 is the start.
#[derive(Drop)]
pub struct Code {
    functions: Items<Function>,
}

impl Code {
    /// Code of these functions, in memory of its own. `BadCode` names the first bad op: whose jump leaves its function, whose
    /// slot or function is not there, which finds fewer values on the stack than it takes, which is met at two heights of the
    /// stack, or behind which its function has no more ops. An op to which no way leads is judged by its jump, its slot and
    /// its function alone. The work is linear in the ops.
    pub fn assemble(alloc: Global, functions: &[Function]) -> Result<Code, CodeFault>
        requires few { length functions.now < 2 ^ 32 }
        requires short { All (λ f. length f.ops < 2 ^ 32) functions.now }
        ensures ok { IfOk result (IsAssembled functions.now) }
        ensures fault { IfErr result (IsRefused functions.now) }
    {
        check(alloc, functions)?;
        let functions = copy_functions(alloc, functions)?;
        Ok(Code {
            functions: Items::from_vec(functions),
        })
    }

    /// Code of functions that are known to be good.
    pub(crate) fn of(functions: Vec<Function>) -> Code
        ensures { result ≡ record { functions = functions.items } }
    {
        Code {
            functions: Items::from_vec(functions),
        }
    }

    /// The functions, in order.
    pub fn functions(&self) -> &[Function]
        ensures { result.now ≡ self.now.functions }
    {
        self.functions.as_slice()
    }
}

//! Ops.

ghost use Rattle.std.specs.Prelude.{◌≡◌, ◌-◌, ◌^◌, ◌<◌, IfOk};
ghost use Rattle.jx9_compile.specs.Shape.{callee_of, goes_on, jump_of, next_of, puts, slot_of, takes};

use jx9_syntax::{Binary, Change, Step};
use std::alloc::Global;
use uq_value::{NoMemory, Value, copy};

/// An op. It takes values from the stack of its function and puts values on it. A slot holds a variable of the function.
/// Slots, the places of a function's ops and the functions of a code are counted from 0.
#[derive(Drop)]
pub enum Op {
    /// Takes one unit, for the node or statement of this line. Where none is left the script is spent.
    Unit {
        line: u32,
    },
    /// Puts a value on the stack.
    Push(Value),
    /// Drops the top.
    Pop,
    /// Puts the top on the stack once more.
    Copy,
    /// Puts what a slot holds on the stack.
    Load(u32),
    /// Moves the top into a slot.
    Store(u32),
    /// Moves the top into a slot, with a fault in this line where it is beyond the limits of a value.
    Assign {
        slot: u32,
        line: u32,
    },
    /// `++` or `--` on what a slot holds, with a fault in this line. Puts the number that it shows on the stack.
    Count {
        slot: u32,
        step: Step,
        line: u32,
    },
    /// `op=` on what a slot holds, with the top as its right side, and with a fault in this line. The value that it writes
    /// takes the place of the top. `..=` takes units by the size of that value.
    Change {
        slot: u32,
        how: Change,
        line: u32,
    },
    /// The sum of the two upper values, with a fault in this line.
    Add {
        line: u32,
    },
    /// An operator on the two upper values, the left one below the right one, with a fault in this line.
    Operate {
        operator: Binary,
        line: u32,
    },
    /// The opposite of the top's truth.
    Not,
    /// The texts of so many upper values, joined from the lowest on. Takes units by the size of the result, with a fault in
    /// this line where it is beyond the limits of a value.
    Join {
        count: u32,
        line: u32,
    },
    /// Goes on at this place.
    Jump(u32),
    /// Drops the top, and goes on at this place where it is false.
    JumpUnless(u32),
    /// Drops the top, and goes on at this place where it is true.
    JumpIf(u32),
    /// Calls a function with so many upper values as its arguments, from the lowest on, with a fault in this line where as
    /// many functions as may be are active.
    Call {
        function: u32,
        count: u32,
        line: u32,
    },
    /// Drops the top and puts its text out.
    Print,
    /// Ends the function, with the top as its value where there is one, else null.
    End,
}

impl Op {
    /// So many values it takes from the stack.
    pub(crate) fn takes(&self) -> u32
        ensures { result ≡ takes self.now }
    {
        match self {
            Op::Pop | Op::Copy | Op::Store(_) | Op::Assign { .. } | Op::Change { .. } => 1,
            Op::Not | Op::JumpUnless(_) | Op::JumpIf(_) | Op::Print => 1,
            Op::Add { .. } | Op::Operate { .. } => 2,
            Op::Join { count, .. } | Op::Call { count, .. } => *count,
            _ => 0,
        }
    }

    /// So many values it puts on the stack.
    pub(crate) fn puts(&self) -> u32
        ensures { result ≡ puts self.now }
    {
        match self {
            Op::Copy => 2,
            Op::Push(_) | Op::Load(_) | Op::Count { .. } | Op::Change { .. } | Op::Not => 1,
            Op::Add { .. } | Op::Operate { .. } | Op::Join { .. } | Op::Call { .. } => 1,
            _ => 0,
        }
    }

    /// The next op, where it may go on there.
    pub(crate) fn next(&self, at: u32) -> Option<u32>
        requires { at < 2 ^ 32 - 1 }
        ensures { result ≡ next_of self.now at }
    {
        self.goes_on().then_some(at + 1)
    }

    /// Where it may go on but at the next op.
    pub(crate) fn jump(&self) -> Option<u32>
        ensures { result ≡ jump_of self.now }
    {
        match self {
            Op::Jump(to) | Op::JumpUnless(to) | Op::JumpIf(to) => Some(*to),
            _ => None,
        }
    }

    /// The slot that it reads or writes.
    pub(crate) fn slot(&self) -> Option<u32>
        ensures { result ≡ slot_of self.now }
    {
        match self {
            Op::Load(slot) | Op::Store(slot) => Some(*slot),
            Op::Assign { slot, .. } | Op::Count { slot, .. } => Some(*slot),
            Op::Change { slot, .. } => Some(*slot),
            _ => None,
        }
    }

    /// The function that it calls.
    pub(crate) fn callee(&self) -> Option<u32>
        ensures { result ≡ callee_of self.now }
    {
        match self {
            Op::Call { function, .. } => Some(*function),
            _ => None,
        }
    }

    /// Whether it may go on at the next op.
    pub(crate) fn goes_on(&self) -> bool
        ensures { result ≡ goes_on self.now }
    {
        match self {
            Op::Jump(_) | Op::End => false,
            _ => true,
        }
    }

    /// The same op, in memory of its own.
    pub(crate) fn copy(&self, alloc: Global) -> Result<Op, NoMemory>
        ensures { IfOk result (λ op. op ≡ self.now) }
    {
        let op = match self {
            Op::Unit { line } => Op::Unit { line: *line },
            Op::Push(value) => Op::Push(copy(alloc, value)?),
            Op::Pop => Op::Pop,
            Op::Copy => Op::Copy,
            Op::Load(slot) => Op::Load(*slot),
            Op::Store(slot) => Op::Store(*slot),
            Op::Assign { slot, line } => Op::Assign {
                slot: *slot,
                line: *line,
            },
            Op::Count { slot, step, line } => Op::Count {
                slot: *slot,
                step: *step,
                line: *line,
            },
            Op::Change { slot, how, line } => Op::Change {
                slot: *slot,
                how: *how,
                line: *line,
            },
            Op::Add { line } => Op::Add { line: *line },
            Op::Operate { operator, line } => Op::Operate {
                operator: *operator,
                line: *line,
            },
            Op::Not => Op::Not,
            Op::Join { count, line } => Op::Join {
                count: *count,
                line: *line,
            },
            Op::Jump(to) => Op::Jump(*to),
            Op::JumpUnless(to) => Op::JumpUnless(*to),
            Op::JumpIf(to) => Op::JumpIf(*to),
            Op::Call {
                function,
                count,
                line,
            } => {
                Op::Call {
                    function: *function,
                    count: *count,
                    line: *line,
                }
            }
            Op::Print => Op::Print,
            Op::End => Op::End,
        };
        Ok(op)
    }
}

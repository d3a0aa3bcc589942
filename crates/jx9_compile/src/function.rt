//! Functions of ops.

ghost use Rattle.std.specs.Prelude.{◌≡◌, IfOk};

use crate::op::Op;
use sqlite_items::Items;
use std::alloc::Global;
use uq_value::NoMemory;

/// A function: so many parameters, so many slots, which hold first the arguments and then null, and its ops.
#[derive(Drop)]
pub struct Function {
    params: u32,
    slots: u32,
    ops: Items<Op>,
}

impl Function {
    /// A function of these ops.
    pub fn new(params: u32, slots: u32, ops: Vec<Op>) -> Function
        ensures { result ≡ record { params = params; slots = slots; ops = ops.items } }
    {
        Function {
            params,
            slots,
            ops: Items::from_vec(ops),
        }
    }

    /// The same of a list of ops.
    pub(crate) fn of(params: u32, slots: u32, ops: Items<Op>) -> Function
        ensures { result ≡ record { params = params; slots = slots; ops = ops } }
    {
        Function { params, slots, ops }
    }

    /// So many parameters it has.
    pub fn params(&self) -> u32
        ensures { result ≡ self.now.params }
    {
        self.params
    }

    /// So many slots it has.
    pub fn slots(&self) -> u32
        ensures { result ≡ self.now.slots }
    {
        self.slots
    }

    /// Its ops, in order.
    pub fn ops(&self) -> &[Op]
        ensures { result.now ≡ self.now.ops }
    {
        self.ops.as_slice()
    }

    /// The same function, in memory of its own.
    pub(crate) fn copy(&self, alloc: Global) -> Result<Function, NoMemory>
        ensures { IfOk result (λ f. f ≡ self.now) }
    {
        let ops = copy_ops(alloc, self.ops())?;
        Ok(Function::new(self.params, self.slots, ops))
    }
}

/// The same ops, in memory of their own.
fn copy_ops(alloc: Global, ops: &[Op]) -> Result<Vec<Op>, NoMemory>
    ensures { IfOk result (λ v. v.items ≡ ops.now) }
{
    let mut copies = Vec::with_capacity(alloc, ops.len())?;
    for op in ops {
        copies.push(op.copy(alloc)?)?;
    }
    Ok(copies)
}

/// The same functions, in memory of their own.
pub(crate) fn copy_functions(
    alloc: Global,
    functions: &[Function],
) -> Result<Vec<Function>, NoMemory>
    ensures { IfOk result (λ v. v.items ≡ functions.now) }
{
    let mut copies = Vec::with_capacity(alloc, functions.len())?;
    for function in functions {
        copies.push(function.copy(alloc)?)?;
    }
    Ok(copies)
}

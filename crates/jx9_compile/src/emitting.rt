//! The ops of a function, put one behind another.

ghost use Rattle.std.specs.Prelude.{◌≡◌, ◌<◌, ◌↔◌, length, IfOk, IsTrue, OnOk};
ghost use Rattle.std.specs.Option.{option_copied};
ghost use Rattle.jx9_compile.specs.Emits.{Emits, IsElse, IsHeld, IsLanded, IsOp, IsSet, IsSlot, jump_when as spec_jump_when};
ghost use Rattle.jx9_compile.specs.Holes.{AreSet, IsFilled, hole};
ghost use Rattle.jx9_compile.specs.declared.op.Op.TheVariants.{Jump as SpecJump};

use crate::names::Names;
use crate::op::Op;
use sqlite_items::Items;
use std::alloc::Global;
use uq_value::{NoMemory, Text};

/// Stands in a jump for a place that is not known yet. No op stands there: a function with so many ops counts as want of
/// memory.
const HOLE: u32 = u32::MAX;

/// The ops of a function so far, and the variables of its slots.
#[derive(Drop)]
pub(crate) struct Emitter {
    pub(crate) ops: Items<Op>,
    pub(crate) names: Names,
}

impl Emitter {
    /// One more op.
    pub(crate) fn put(&mut self, op: Op) -> Result<(), NoMemory>
        ensures { OnOk result (Emits self.old self.new (IsOp op)) }
    {
        self.ops.push(op)?;
        Ok(())
    }

    /// The place of the next op.
    pub(crate) fn here(&self) -> Result<u32, NoMemory>
        ensures place { IfOk result (λ at. at ≡ length self.now.ops) }
        ensures known { IfOk result (λ at. at < hole) }
    {
        let at = number_of(self.ops.len())?;
        if at < HOLE { Ok(at) } else { Err(NoMemory) }
    }

    /// Keeps the next place for a jump whose target is not known yet, and gives that place.
    pub(crate) fn hold(&mut self) -> Result<u32, NoMemory>
        ensures { IfOk result (λ at. IsHeld self.old self.new at) }
    {
        let at = self.here()?;
        self.put(Op::Jump(HOLE))?;
        Ok(at)
    }

    /// Puts a jump at a place that was held: one where the top's truth is `when`, or one that always jumps. A place behind
    /// the ops is left alone.
    pub(crate) fn fill(&mut self, at: u32, when: Option<bool>, to: u32)
        ensures { IsSet at (spec_jump_when when to) self.old self.new }
    {
        let at = at as usize;
        if at < self.ops.len() {
            self.ops.set(at, jump_when(when, to));
        }
    }

    /// The same at each of these places.
    pub(crate) fn fill_all(&mut self, places: &[u32], when: Option<bool>, to: u32)
        ensures ops { AreSet places.now (spec_jump_when when to) self.old.ops self.new.ops }
        ensures names { self.new.names ≡ self.old.names }
    {
        for at in places {
            self.fill(*at, when, to);
        }
    }

    /// The same at one place, with a jump to what comes next.
    pub(crate) fn land(&mut self, at: u32, when: Option<bool>) -> Result<(), NoMemory>
        ensures { OnOk result (IsLanded at when self.old self.new) }
    {
        let to = self.here()?;
        self.fill(at, when, to);
        Ok(())
    }

    /// Ends what runs where a condition is true, which was held at `branch`: a place is held for the jump over what runs
    /// where it is false, and the condition leads behind that place then.
    pub(crate) fn otherwise(&mut self, branch: u32) -> Result<u32, NoMemory>
        ensures { IfOk result (λ over. IsElse branch over self.old self.new) }
    {
        let over = self.here()?;
        self.fill(branch, Some(false), over + 1);
        let over = self.hold()?;
        Ok(over)
    }

    /// The jumps from a place on that lead out of a loop lead here then.
    pub(crate) fn fill_holes(&mut self, from: usize, after: u32)
        ensures ops { IsFilled after from (length self.old.ops) self.old.ops self.new.ops }
        ensures names { self.new.names ≡ self.old.names }
    {
        for at in from..self.ops.len() {
            if is_hole(self.ops.get(at)) {
                self.ops.set(at, Op::Jump(after));
            }
        }
    }

    /// The slot of a variable, a new one where it has none.
    pub(crate) fn slot(&mut self, alloc: Global, name: &Text) -> Result<u32, NoMemory>
        ensures { IfOk result (λ slot. Emits self.old self.new (IsSlot name.now slot)) }
    {
        let name = name.bytes();
        match self.names.slot_of(name) {
            Some(slot) => Ok(slot),
            None => {
                let slot = self.names.add(alloc, name)?;
                Ok(slot)
            }
        }
    }
}

/// The jump where the top's truth is this, or the one that always jumps.
fn jump_when(when: Option<bool>, to: u32) -> Op
    ensures { result ≡ spec_jump_when when to }
{
    match when {
        Some(true) => Op::JumpIf(to),
        Some(false) => Op::JumpUnless(to),
        None => Op::Jump(to),
    }
}

fn is_hole(op: Option<&Op>) -> bool
    ensures { IsTrue result ↔ (option_copied op.entry ≡ Some (SpecJump hole)) }
{
    match op {
        Some(Op::Jump(to)) => *to == HOLE,
        _ => false,
    }
}

/// The same text. It fits as it did, so that only memory may be wanting.
pub(crate) fn copy_text(alloc: Global, text: &Text) -> Result<Text, NoMemory>
    ensures { IfOk result (λ t. t ≡ text.now) }
{
    Text::new(alloc, text.bytes()).map_err(|_| NoMemory)
}

/// A place, a slot or a count. One past 32 bits counts as want of memory.
pub(crate) fn number_of(n: usize) -> Result<u32, NoMemory>
    ensures { IfOk result (λ m. m ≡ n) }
{
    u32::try_from(n).map_err(|_| NoMemory)
}

//! Ops with a `Pop` behind them, made together with it: the value that they would show on the stack is never made. So a
//! text that a variable holds grows in place.

ghost use Rattle.std.specs.Prelude.{◌≡◌, ◌-◌, ◌^◌, ◌<◌, ◌≤◌, ◌++◌, slice_set, Ok, Err, IfErr, IfOk, OnOk};
ghost use Rattle.uq_value.specs.Faults.{TextFault};
ghost use Rattle.uq_value.specs.Number.{number as spec_number};
ghost use Rattle.uq_value.specs.Put.{limited};
ghost use Rattle.uq_value.specs.Size.{most_size, text_size};
ghost use Rattle.uq_value.specs.declared.value.Value.{Value};
ghost use Rattle.uq_json.specs.Text.{text_of as spec_text_of};
ghost use Rattle.jx9_meaning.specs.Operators.{operate as spec_operate};
ghost use Rattle.jx9_vm.specs.Moves.{after_step, Appends, Changes, ChangesBy, Counts, IsKept, IsTaken, Skips, Unmade, Unshown};
ghost use Rattle.jx9_vm.specs.Operating.{value_of};
ghost use Rattle.jx9_vm.specs.Work.{slot_of, stack_of, top_of};

use crate::ending::Ending;
use crate::joining::extended;
use crate::operators::{Plain, step_from};
use crate::stop::StopCause;
use crate::work::{Flow, Work};
use jx9_meaning::FaultKind;
use jx9_syntax::{Binary, Change, Step};
use std::alloc::Global;
use uq_value::{Text, Value, ValueFault, is_value, size};

impl Work {
    /// `++` or `--` on what a slot holds.
    #[inline(always)]
    pub(crate) fn count_unshown(&mut self, slot: u32, step: Step, line: u32) -> Flow
        requires { self.old.place < 2 ^ 64 - 2 }
        ensures { Unshown (Counts line slot step (spec_number (slot_of self.old slot))) result self.old self.new }
    {
        match self.stepped(slot, step) {
            Ok(new) => self.keep_plain(slot, new),
            Err(kind) => Flow::Ends(Ending::Fault { kind, line }),
        }
    }

    /// What `++` or `--` makes of what a slot holds.
    #[inline(always)]
    fn stepped(&self, slot: u32, step: Step) -> Result<Plain, FaultKind>
        ensures ok { IfOk result (λ new. Ok (value_of new) ≡ after_step step (spec_number (slot_of self.now slot))) }
        ensures fault { IfErr result (λ kind. Err kind ≡ after_step step (spec_number (slot_of self.now slot))) }
    {
        match self.slot_number(slot) {
            Some(old) => match step_from(step, old) {
                Ok(new) => Ok(Plain::Number(new)),
                Err(kind) => Err(kind),
            },
            None => Err(FaultKind::NotNumber),
        }
    }

    /// `op=` on what a slot holds, with the top as its right side.
    #[inline(never)]
    pub(crate) fn change_unshown(
        &mut self,
        alloc: Global,
        slot: u32,
        how: Change,
        line: u32,
    ) -> Result<Flow, StopCause>
        requires { self.old.place < 2 ^ 64 - 2 }
        ensures ok { IfOk result (λ flow. Unshown (Changes line slot how) flow self.old self.new) }
        ensures stopped { IfErr result (Unmade self.old self.new) }
    {
        match how {
            Change::By(operator) => Ok(self.change_by_unshown(slot, operator, line)),
            Change::Join => self.append_unshown(alloc, slot, line),
        }
    }

    /// Writes what an operator gives on what a slot holds and the top.
    fn change_by_unshown(&mut self, slot: u32, operator: Binary, line: u32) -> Flow
        requires { self.old.place < 2 ^ 64 - 2 }
        ensures { Unshown (ChangesBy line slot (spec_operate operator (slot_of self.old slot) (top_of self.old))) result self.old self.new }
    {
        let right = self.pop();
        match self.changed(slot, operator, &right) {
            Ok(value) => self.keep(slot, value),
            Err(kind) => Flow::Ends(Ending::Fault { kind, line }),
        }
    }

    /// Writes the text of what a slot holds with that of the top behind it.
    fn append_unshown(&mut self, alloc: Global, slot: u32, line: u32) -> Result<Flow, StopCause>
        requires { self.old.place < 2 ^ 64 - 2 }
        ensures ok { IfOk result (λ flow. Unshown (Appends line slot (Value.Text (spec_text_of (slot_of self.old slot) ++ spec_text_of (top_of self.old))))
            flow self.old self.new) }
        ensures stopped { IfErr result (Unmade self.old self.new) }
    {
        match self.take_joined(alloc, slot) {
            Ok(text) => Ok(self.keep_sized(slot, Value::Text(text))),
            Err(fault) => match fault {
                ValueFault::Memory => Err(StopCause::Memory),
                _ => Ok(Flow::Ends(Ending::Fault {
                    kind: FaultKind::TooLarge,
                    line,
                })),
            },
        }
    }

    /// Takes the top off the stack and a value out of its slot: the text of that value with the top's behind it.
    fn take_joined(&mut self, alloc: Global, slot: u32) -> Result<Text, ValueFault>
        ensures taken { IsTaken slot self.old self.new }
        ensures ok { IfOk result (λ t. t ≡ spec_text_of (slot_of self.old slot) ++ spec_text_of (top_of self.old)) }
        ensures fits { OnOk result (text_size (spec_text_of (slot_of self.old slot) ++ spec_text_of (top_of self.old)) ≤ most_size) }
        ensures fault { IfErr result (TextFault (spec_text_of (slot_of self.old slot) ++ spec_text_of (top_of self.old))) }
    {
        let right = self.pop();
        let left = self.slots.take(slot as usize);
        extended(alloc, left, &right)
    }

    /// Puts a value into a slot that takes a unit for each 256 bytes of its size, and goes on behind the next op.
    fn keep_sized(&mut self, slot: u32, value: Value) -> Flow
        requires { self.old.place < 2 ^ 64 - 2 }
        ensures { IsKept slot value result self.old self.new }
    {
        let taken = size(&value) / 256;
        if self.units < taken {
            return Flow::Ends(Ending::Spent);
        }
        self.units -= taken;
        self.keep(slot, value)
    }

    /// Puts a value into a slot, and goes on behind the next op. Every value is within the limits of a value.
    fn keep(&mut self, slot: u32, value: Value) -> Flow
        requires { self.old.place < 2 ^ 64 - 2 }
        ensures fits { limited value ≡ Ok value }
        ensures skips { Skips result self.old.units (stack_of self.old) (slice_set self.old.slots.here slot value) self.old self.new }
    {
        is_value(&value);
        self.slots.set(slot as usize, value);
        self.place += 2;
        Flow::Next
    }

    /// Puts a number or a truth value into a slot, and goes on behind the next op.
    #[inline(always)]
    fn keep_plain(&mut self, slot: u32, plain: Plain) -> Flow
        requires { self.old.place < 2 ^ 64 - 2 }
        ensures { Skips result self.old.units (stack_of self.old) (slice_set self.old.slots.here slot (value_of plain)) self.old self.new }
    {
        self.slots.set_plain(slot as usize, plain);
        self.place += 2;
        Flow::Next
    }
}

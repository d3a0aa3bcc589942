//! The machine's own state, and the ops that look at nothing else.

ghost use Rattle.std.specs.Prelude.{◌≡◌, ◌+◌, ◌-◌, ◌^◌, ◌<◌, ◌≤◌, ◌∷◌, ◌++◌, drop, length, not, slice_get, slice_set, Ok, Some, IfErr, IfOk, IfSome, OnErr, OnOk};
ghost use Rattle.std.specs.Option.{option_copied};
ghost use Rattle.uq_value.specs.Number.{number as spec_number};
ghost use Rattle.uq_value.specs.Put.{limited};
ghost use Rattle.uq_value.specs.Truth.{truth as spec_truth};
ghost use Rattle.uq_value.specs.declared.value.Value.{Value};
ghost use Rattle.uq_value.specs.Same.{alike};
ghost use Rattle.uq_json.specs.Text.{text_of as spec_text_of};
ghost use Rattle.jx9_meaning.specs.Operators.{operate as spec_operate};
ghost use Rattle.jx9_compile.specs.Machine.{below, top};
ghost use Rattle.jx9_compile.specs.Run.{arguments, is_unit as spec_is_unit};
ghost use Rattle.jx9_compile.specs.declared.code.Code.{Code};
ghost use Rattle.jx9_compile.specs.declared.op.Op.{Op};
ghost use Rattle.jx9_vm.specs.Events.{last_in};
ghost use Rattle.jx9_vm.specs.Moves.{Appends, Branches, Calls, Changes, ChangesBy, Counts, IsEntered, IsPaidFor, IsPopped, IsSized, IsUncounted, Jumps, Passes, Pays, Results, Returns, TakesUnit, Unmade};
ghost use Rattle.jx9_vm.specs.Operating.{value_of};
ghost use Rattle.jx9_vm.specs.Work.{joined_top, slot_of, stack_of, second_of, top_of};

use crate::ending::Ending;
use crate::joining::{append, joined};
use crate::layers::Layers;
use crate::operators::{Plain, operate, operate_numbers, shown, step_from};
use crate::stop::StopCause;
use jx9_compile::{Code, Function, Op};
use jx9_meaning::FaultKind;
use jx9_syntax::{Binary, Change, Step};
use sqlite_items::at;
use std::alloc::Global;
use uq_json::text_of;
use uq_value::{NoMemory, Text, Value, ValueFault, copy, is_value, number, size, truth};

/// No more calls are active at a time.
const MOST_ACTIVE: usize = 256;

/// What comes after an op.
#[derive(Drop)]
pub(crate) enum Flow {
    /// The op at the place to which the work has come.
    Next,
    /// Nothing: the script ends.
    Ends(Ending),
}

/// A call that waits: its function, its next op, and where its values begin on the stack and in the slots.
#[derive(Drop)]
pub(crate) struct Call {
    pub function: usize,
    pub place: usize,
    pub stack_floor: usize,
    pub slots_floor: usize,
}

/// The function at work with its next op, the values of all calls, and what is counted.
#[derive(Drop)]
pub(crate) struct Work {
    pub function: usize,
    pub place: usize,
    /// The values that ops put and take.
    pub stack: Layers,
    /// The variables.
    pub slots: Layers,
    /// The calls that wait, the first one first.
    pub calls: Vec<Call>,
    /// The units that are left.
    pub units: u64,
    /// The events so far.
    pub events: u64,
    /// The last byte that was put out.
    pub last: Option<u8>,
}

impl Work {
    /// Takes the top off the stack.
    pub(crate) fn pop(&mut self) -> Value
        ensures value { result ≡ top_of self.old }
        ensures popped { IsPopped self.old self.new }
    {
        self.stack.pop()
    }

    /// Puts a value on the stack, and goes on.
    #[inline(always)]
    fn push_value(&mut self, value: Value) -> Result<Flow, StopCause>
        requires { self.old.place < 2 ^ 64 - 1 }
        ensures ok { IfOk result (λ flow. Passes flow self.old.units (value ∷ stack_of self.old) self.old.slots.here self.old self.new) }
        ensures stopped { IfErr result (Unmade self.old self.new) }
    {
        self.stack.push(value)?;
        self.place += 1;
        Ok(Flow::Next)
    }

    /// Takes a unit, where one is left.
    #[inline(always)]
    pub(crate) fn unit(&mut self) -> Flow
        requires { self.old.place < 2 ^ 64 - 1 }
        ensures { TakesUnit result self.old self.new }
    {
        if self.units < 1 {
            return Flow::Ends(Ending::Spent);
        }
        self.units -= 1;
        self.place += 1;
        Flow::Next
    }

    /// Puts a copy of a value on the stack.
    #[inline(always)]
    pub(crate) fn push(&mut self, alloc: Global, value: &Value) -> Result<Flow, StopCause>
        requires { self.old.place < 2 ^ 64 - 1 }
        ensures ok { IfOk result (λ flow. Passes flow self.old.units (value.now ∷ stack_of self.old) self.old.slots.here self.old self.new) }
        ensures stopped { IfErr result (Unmade self.old self.new) }
    {
        match value {
            // a number needs no memory, and no detour through a result
            Value::Int(z) => self.push_value(Value::Int(*z)),
            _ => {
                let value = copy(alloc, value)?;
                self.push_value(value)
            }
        }
    }

    /// Drops the top.
    #[inline(always)]
    pub(crate) fn drop_top(&mut self) -> Flow
        requires { self.old.place < 2 ^ 64 - 1 }
        ensures { Passes result self.old.units (below (stack_of self.old)) self.old.slots.here self.old self.new }
    {
        self.drop_value();
        self.place += 1;
        Flow::Next
    }

    #[inline(always)]
    fn drop_value(&mut self)
        ensures { IsPopped self.old self.new }
    {
        self.stack.drop_top();
    }

    /// Puts a copy of the top on the stack.
    #[inline(never)]
    pub(crate) fn copy_top(&mut self, alloc: Global) -> Result<Flow, StopCause>
        requires { self.old.place < 2 ^ 64 - 1 }
        ensures ok { IfOk result (λ flow. Passes flow self.old.units (top_of self.old ∷ stack_of self.old) self.old.slots.here self.old self.new) }
        ensures stopped { IfErr result (Unmade self.old self.new) }
    {
        let value = self.top_copy(alloc)?;
        self.push_value(value)
    }

    fn top_copy(&self, alloc: Global) -> Result<Value, NoMemory>
        ensures { IfOk result (λ v. v ≡ top_of self.now) }
    {
        match self.stack.here().last() {
            Some(value) => copy(alloc, value),
            None => Ok(Value::Null),
        }
    }

    /// Puts a copy of what a slot holds on the stack.
    #[inline(always)]
    pub(crate) fn load(&mut self, alloc: Global, slot: u32) -> Result<Flow, StopCause>
        requires { self.old.place < 2 ^ 64 - 1 }
        ensures ok { IfOk result (λ flow. Passes flow self.old.units (slot_of self.old slot ∷ stack_of self.old)
            self.old.slots.here self.old self.new) }
        ensures stopped { IfErr result (Unmade self.old self.new) }
    {
        if let Some(z) = self.slot_int(slot) {
            return self.push_value(Value::Int(z));
        }
        let value = self.slot_copy(alloc, slot)?;
        self.push_value(value)
    }

    /// What a slot holds, where that is a number.
    #[inline(always)]
    fn slot_int(&self, slot: u32) -> Option<i64>
        ensures { IfSome result (λ z. slot_of self.now slot ≡ Value.Int z) }
    {
        match at(self.slots.here(), slot as usize) {
            Some(Value::Int(z)) => Some(*z),
            _ => None,
        }
    }

    fn slot_copy(&self, alloc: Global, slot: u32) -> Result<Value, NoMemory>
        ensures { IfOk result (λ v. v ≡ slot_of self.now slot) }
    {
        match at(self.slots.here(), slot as usize) {
            Some(value) => copy(alloc, value),
            None => Ok(Value::Null),
        }
    }

    /// Moves the top into a slot.
    pub(crate) fn store(&mut self, slot: u32) -> Flow
        requires { self.old.place < 2 ^ 64 - 1 }
        ensures { Passes result self.old.units (below (stack_of self.old)) (slice_set self.old.slots.here slot (top_of self.old)) self.old self.new }
    {
        let value = self.pop();
        self.slots.set(slot as usize, value);
        self.place += 1;
        Flow::Next
    }

    /// Moves the top into a slot. Every value is within the limits of a value.
    #[inline(always)]
    pub(crate) fn assign(&mut self, slot: u32) -> Flow
        requires { self.old.place < 2 ^ 64 - 1 }
        ensures fits { limited (top_of self.old) ≡ Ok (top_of self.old) }
        ensures passes { Passes result self.old.units (below (stack_of self.old))
            (slice_set self.old.slots.here slot (top_of self.old)) self.old self.new }
    {
        match self.top_plain() {
            Some(plain) => {
                self.drop_value();
                self.slots.set_plain(slot as usize, plain);
                self.place += 1;
                Flow::Next
            }
            None => self.assign_value(slot),
        }
    }

    /// The top, where that is a number or a truth value.
    #[inline(always)]
    fn top_plain(&self) -> Option<Plain>
        ensures value { IfSome result (λ plain. top_of self.now ≡ value_of plain) }
        ensures fits { IfSome result (λ plain. limited (value_of plain) ≡ Ok (value_of plain)) }
    {
        let value = self.stack.here().last()?;
        is_value(value);
        match value {
            Value::Int(z) => Some(Plain::Number(*z)),
            Value::Bool(b) => Some(Plain::Truth(*b)),
            _ => None,
        }
    }

    /// Moves the top into a slot, whatever it is.
    #[inline(never)]
    fn assign_value(&mut self, slot: u32) -> Flow
        requires { self.old.place < 2 ^ 64 - 1 }
        ensures fits { limited (top_of self.old) ≡ Ok (top_of self.old) }
        ensures passes { Passes result self.old.units (below (stack_of self.old))
            (slice_set self.old.slots.here slot (top_of self.old)) self.old self.new }
    {
        let value = self.pop();
        is_value(&value);
        self.slots.set(slot as usize, value);
        self.place += 1;
        Flow::Next
    }

    /// `++` or `--` on what a slot holds.
    pub(crate) fn count(&mut self, slot: u32, step: Step, line: u32) -> Result<Flow, StopCause>
        requires { self.old.place < 2 ^ 64 - 1 }
        ensures ok { IfOk result (λ flow. Counts line slot step (spec_number (slot_of self.old slot)) flow self.old self.new) }
        ensures stopped { IfErr result (Unmade self.old self.new) }
    {
        let Some(old) = self.slot_number(slot) else {
            return Ok(Flow::Ends(Ending::Fault {
                kind: FaultKind::NotNumber,
                line,
            }));
        };
        match step_from(step, old) {
            Ok(new) => {
                self.slots.set(slot as usize, Value::Int(new));
                self.push_value(shown(step, old, new))
            }
            Err(kind) => Ok(Flow::Ends(Ending::Fault { kind, line })),
        }
    }

    pub(crate) fn slot_number(&self, slot: u32) -> Option<i64>
        ensures { result ≡ spec_number (slot_of self.now slot) }
    {
        match at(self.slots.here(), slot as usize) {
            Some(value) => number(value),
            None => Some(0),
        }
    }

    /// An operator on the two upper values, the left one below the right one.
    #[inline(always)]
    pub(crate) fn operate(&mut self, operator: Binary, line: u32) -> Result<Flow, StopCause>
        requires { self.old.place < 2 ^ 64 - 1 }
        ensures ok { IfOk result (λ flow. Results line (below (below (stack_of self.old)))
            (spec_operate operator (second_of self.old) (top_of self.old)) flow self.old self.new) }
        ensures stopped { IfErr result (Unmade self.old self.new) }
    {
        match self.plain(operator) {
            Some(plain) => {
                self.stack.replace_two(plain);
                self.place += 1;
                Ok(Flow::Next)
            }
            None => self.operate_values(operator, line),
        }
    }

    /// What an operator gives on the two upper values where both are numbers, None where that is left to `operate_values`.
    #[inline(always)]
    fn plain(&self, operator: Binary) -> Option<Plain>
        ensures two { IfSome result (λ _. 2 ≤ length self.now.stack.here) }
        ensures value { IfSome result (λ plain. spec_operate operator (second_of self.now) (top_of self.now) ≡ Ok (value_of plain)) }
    {
        let (right, under) = self.stack.here().split_last()?;
        let (left, _) = under.split_last()?;
        match left {
            Value::Int(x) => match right {
                Value::Int(y) => operate_numbers(operator, *x, *y),
                _ => None,
            },
            _ => None,
        }
    }

    /// An operator on the two upper values, whatever they are.
    #[inline(never)]
    fn operate_values(&mut self, operator: Binary, line: u32) -> Result<Flow, StopCause>
        requires { self.old.place < 2 ^ 64 - 1 }
        ensures ok { IfOk result (λ flow. Results line (below (below (stack_of self.old)))
            (spec_operate operator (second_of self.old) (top_of self.old)) flow self.old self.new) }
        ensures stopped { IfErr result (Unmade self.old self.new) }
    {
        let right = self.pop();
        let left = self.pop();
        match operate(operator, &left, &right) {
            Ok(value) => self.push_value(value),
            Err(kind) => Ok(Flow::Ends(Ending::Fault { kind, line })),
        }
    }

    /// `op=` on what a slot holds, with the top as its right side. What it writes takes the place of the top.
    #[inline(never)]
    pub(crate) fn change(
        &mut self,
        alloc: Global,
        slot: u32,
        how: Change,
        line: u32,
    ) -> Result<Flow, StopCause>
        requires { self.old.place < 2 ^ 64 - 1 }
        ensures ok { IfOk result (λ flow. Changes line slot how flow self.old self.new) }
        ensures stopped { IfErr result (Unmade self.old self.new) }
    {
        match how {
            Change::By(operator) => self.change_by(alloc, slot, operator, line),
            Change::Join => self.append(alloc, slot, line),
        }
    }

    /// Writes what an operator gives on what a slot holds and the top.
    fn change_by(
        &mut self,
        alloc: Global,
        slot: u32,
        operator: Binary,
        line: u32,
    ) -> Result<Flow, StopCause>
        requires { self.old.place < 2 ^ 64 - 1 }
        ensures ok { IfOk result (λ flow. ChangesBy line slot (spec_operate operator (slot_of self.old slot) (top_of self.old)) flow self.old self.new) }
        ensures stopped { IfErr result (Unmade self.old self.new) }
    {
        let right = self.pop();
        match self.changed(slot, operator, &right) {
            Ok(value) => self.write(alloc, slot, value),
            Err(kind) => Ok(Flow::Ends(Ending::Fault { kind, line })),
        }
    }

    pub(crate) fn changed(
        &self,
        slot: u32,
        operator: Binary,
        right: &Value,
    ) -> Result<Value, FaultKind>
        ensures { result ≡ spec_operate operator (slot_of self.now slot) right.now }
    {
        match at(self.slots.here(), slot as usize) {
            Some(left) => operate(operator, left, right),
            None => operate(operator, &Value::Null, right),
        }
    }

    /// Writes the text of what a slot holds with that of the top behind it.
    fn append(&mut self, alloc: Global, slot: u32, line: u32) -> Result<Flow, StopCause>
        requires { self.old.place < 2 ^ 64 - 1 }
        ensures ok { IfOk result (λ flow. Appends line slot (Value.Text (spec_text_of (slot_of self.old slot) ++ spec_text_of (top_of self.old)))
            flow self.old self.new) }
        ensures stopped { IfErr result (Unmade self.old self.new) }
    {
        let text = self.take_text(alloc, slot)?;
        match Text::from_vec(alloc, text) {
            Ok(text) => self.write_sized(alloc, slot, Value::Text(text)),
            Err(fault) => match fault {
                ValueFault::Memory => Err(StopCause::Memory),
                _ => Ok(Flow::Ends(Ending::Fault {
                    kind: FaultKind::TooLarge,
                    line,
                })),
            },
        }
    }

    /// Takes the top off the stack: the text of what a slot holds, with that of the top behind it.
    fn take_text(&mut self, alloc: Global, slot: u32) -> Result<Vec<u8>, NoMemory>
        ensures popped { IsPopped self.old self.new }
        ensures text { IfOk result (λ text. text.items ≡ spec_text_of (slot_of self.old slot) ++ spec_text_of (top_of self.old)) }
    {
        let right = self.pop();
        self.appended(alloc, slot, &right)
    }

    fn appended(&self, alloc: Global, slot: u32, right: &Value) -> Result<Vec<u8>, NoMemory>
        ensures { IfOk result (λ text. text.items ≡ spec_text_of (slot_of self.now slot) ++ spec_text_of right.now) }
    {
        let mut text = self.slot_text(alloc, slot)?;
        append(alloc, &mut text, right)?;
        Ok(text)
    }

    fn slot_text(&self, alloc: Global, slot: u32) -> Result<Vec<u8>, NoMemory>
        ensures { IfOk result (λ text. text.items ≡ spec_text_of (slot_of self.now slot)) }
    {
        match at(self.slots.here(), slot as usize) {
            Some(value) => text_of(alloc, value),
            None => Ok(Vec::new(alloc)),
        }
    }

    /// Writes a value that takes a unit for each 256 bytes of its size.
    fn write_sized(&mut self, alloc: Global, slot: u32, value: Value) -> Result<Flow, StopCause>
        requires { self.old.place < 2 ^ 64 - 1 }
        ensures ok { IfOk result (λ flow. IsPaidFor slot value flow self.old self.new) }
        ensures stopped { IfErr result (Unmade self.old self.new) }
    {
        let taken = size(&value) / 256;
        if self.units < taken {
            return Ok(Flow::Ends(Ending::Spent));
        }
        self.units -= taken;
        self.write(alloc, slot, value)
    }

    /// Puts a value into a slot and a copy of it on the stack, and goes on. Every value is within the limits of a value.
    fn write(&mut self, alloc: Global, slot: u32, value: Value) -> Result<Flow, StopCause>
        requires { self.old.place < 2 ^ 64 - 1 }
        ensures fits { limited value ≡ Ok value }
        ensures ok { IfOk result (λ flow. Passes flow self.old.units (value ∷ stack_of self.old) (slice_set self.old.slots.here slot value)
            self.old self.new) }
        ensures stopped { IfErr result (Unmade self.old self.new) }
    {
        is_value(&value);
        let shown = copy(alloc, &value)?;
        self.slots.set(slot as usize, value);
        self.push_value(shown)
    }

    /// The opposite of the top's truth.
    #[inline(never)]
    pub(crate) fn not(&mut self) -> Result<Flow, StopCause>
        requires { self.old.place < 2 ^ 64 - 1 }
        ensures ok { IfOk result (λ flow. Passes flow self.old.units
            (Value.Bool (not (spec_truth (top_of self.old))) ∷ below (stack_of self.old)) self.old.slots.here self.old self.new) }
        ensures stopped { IfErr result (Unmade self.old self.new) }
    {
        let value = self.pop();
        self.push_value(Value::Bool(!truth(&value)))
    }

    /// Joins the texts of so many upper values, from the lowest on.
    #[inline(never)]
    pub(crate) fn join(&mut self, alloc: Global, count: u32, line: u32) -> Result<Flow, StopCause>
        requires { self.old.place < 2 ^ 64 - 1 }
        ensures ok { IfOk result (λ flow. IsSized line (drop count (stack_of self.old))
            (Value.Text (joined_top count self.old)) flow self.old self.new) }
        ensures stopped { IfErr result (Unmade self.old self.new) }
    {
        let text = joined(alloc, self.stack.upper(count as usize))?;
        self.stack.drop_upper(count as usize);
        match Text::from_vec(alloc, text) {
            Ok(text) => self.push_sized(Value::Text(text)),
            Err(fault) => match fault {
                ValueFault::Memory => Err(StopCause::Memory),
                _ => Ok(Flow::Ends(Ending::Fault {
                    kind: FaultKind::TooLarge,
                    line,
                })),
            },
        }
    }

    /// Puts a value on the stack that takes a unit for each 256 bytes of its size.
    fn push_sized(&mut self, value: Value) -> Result<Flow, StopCause>
        requires { self.old.place < 2 ^ 64 - 1 }
        ensures ok { IfOk result (λ flow. Pays (stack_of self.old) value flow self.old self.new) }
        ensures stopped { IfErr result (Unmade self.old self.new) }
    {
        let taken = size(&value) / 256;
        if self.units < taken {
            return Ok(Flow::Ends(Ending::Spent));
        }
        self.units -= taken;
        self.push_value(value)
    }

    /// Goes on at a place ahead, or at a `Unit`, whose unit is taken at once. So no jump goes round without taking units.
    #[inline(always)]
    pub(crate) fn jump(&mut self, ops: &[Op], to: u32) -> Flow
        ensures { Jumps ops.now to result self.old self.new }
    {
        let to = to as usize;
        if self.place < to {
            self.place = to;
            return Flow::Next;
        }
        if !is_unit(at(ops, to)) {
            return Flow::Ends(Ending::Spent);
        }
        if self.units == 0 {
            return Flow::Ends(Ending::Spent);
        }
        self.units -= 1;
        self.place = to + 1;
        Flow::Next
    }

    /// Drops the top, and jumps where its truth is this.
    #[inline(always)]
    pub(crate) fn jump_where(&mut self, ops: &[Op], to: u32, wanted: bool) -> Flow
        requires { self.old.place < 2 ^ 64 - 1 }
        ensures { Branches ops.now to (alike wanted (spec_truth (top_of self.old))) result self.old self.new }
    {
        let is_true = self.top_truth();
        self.drop_value();
        if is_true == wanted {
            return self.jump(ops, to);
        }
        self.place += 1;
        Flow::Next
    }

    #[inline(always)]
    fn top_truth(&self) -> bool
        ensures { result ≡ spec_truth (top_of self.now) }
    {
        match self.stack.here().last() {
            Some(value) => truth(value),
            None => false,
        }
    }

    /// Calls a function with so many upper values as its arguments, and takes its first unit at once. So no calls go on
    /// without taking units.
    pub(crate) fn call(
        &mut self,
        code: &Code,
        number: u32,
        count: u32,
        line: u32,
    ) -> Result<Flow, StopCause>
        requires { self.old.place < 2 ^ 64 - 1 }
        ensures ok { IfOk result (λ flow. Calls code.now number count line flow self.old self.new) }
        ensures stopped { IfErr result (Unmade self.old self.new) }
    {
        if self.calls.len() >= MOST_ACTIVE {
            return Ok(Flow::Ends(Ending::Fault {
                kind: FaultKind::CallDepth,
                line,
            }));
        }
        match at(code.functions(), number as usize) {
            Some(function) if is_unit(at(function.ops(), 0)) => {
                self.enter(number, function, count)?;
                Ok(self.unit())
            }
            _ => Ok(Flow::Ends(Ending::Spent)),
        }
    }

    /// Goes to the first op of a function. Its arguments move from the stack to its slots.
    fn enter(&mut self, number: u32, function: &Function, count: u32) -> Result<(), NoMemory>
        requires { self.old.place < 2 ^ 64 - 1 }
        ensures ok { OnOk result ((code : Code) → slice_get code.functions number ≡ Some function.now
            → IsEntered code number count self.old self.new) }
        ensures uncounted { OnErr result (IsUncounted self.old self.new) }
    {
        self.calls.push(Call {
            function: self.function,
            place: self.place + 1,
            stack_floor: self.stack.floor(),
            slots_floor: self.slots.floor(),
        })?;
        let kept = function.params().min(function.slots());
        self.slots.cover();
        self.stack
            .move_upper(count as usize, kept as usize, &mut self.slots)?;
        self.stack.cover();
        self.slots.fill(function.slots() as usize)?;
        self.function = number as usize;
        self.place = 0;
        Ok(())
    }

    /// Ends the function: its value is put on its caller's stack. Where no call waits, the script ends.
    pub(crate) fn end(&mut self) -> Result<Flow, StopCause>
        ensures ok { IfOk result (λ flow. Returns flow self.old self.new) }
        ensures stopped { IfErr result (Unmade self.old self.new) }
    {
        let Some(call) = self.calls.pop() else {
            return Ok(Flow::Ends(Ending::Done));
        };
        let value = self.stack.pop();
        self.stack.uncover(call.stack_floor);
        self.stack.push(value)?;
        self.slots.uncover(call.slots_floor);
        self.function = call.function;
        self.place = call.place;
        Ok(Flow::Next)
    }

    /// Counts a text that was put out, and goes on.
    pub(crate) fn count_print(&mut self, bytes: &[u8])
        requires room { self.old.events < 2 ^ 64 - 1 }
        requires place { self.old.place < 2 ^ 64 - 1 }
        ensures { self.new ≡ record self.old { place = self.old.place + 1; events = self.old.events + 1; last = last_in self.old.last bytes.now } }
    {
        self.place += 1;
        self.events += 1;
        self.last = last_of(self.last, bytes);
    }
}

/// The last of these bytes, or what was the last before.
fn last_of(before: Option<u8>, bytes: &[u8]) -> Option<u8>
    ensures { result ≡ last_in before bytes.now }
{
    bytes.last().copied().or(before)
}

fn is_unit(op: Option<&Op>) -> bool
    ensures { result ≡ spec_is_unit (option_copied op.entry) }
{
    matches!(op, Some(Op::Unit { .. }))
}

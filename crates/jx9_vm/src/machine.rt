//! The ops, one by one, and the loop over them.

ghost use Rattle.std.specs.Prelude.{◌≡◌, ◌-◌, ◌^◌, ◌<◌, ◌+◌, length, slice_get, IfErr, IfOk, None, Some};
ghost use Rattle.std.specs.Bool.{OnTrue};
ghost use Rattle.uq_json.specs.Text.{text_of as spec_text_of};
ghost use Rattle.uq_outside.specs.Streams.{Grows};
ghost use Rattle.jx9_compile.specs.Machine.{ops_of};
ghost use Rattle.jx9_compile.specs.declared.op.Op.{Op as SpecOp};
ghost use Rattle.jx9_vm.specs.Step.{Acts, At, DoesSome, Fails, Halted, IsPut, Misses, Prints, Reaches};
ghost use Rattle.jx9_vm.specs.Work.{top_of};
ghost use Rattle.jx9_vm.specs.declared.work.Flow.{Flow};

use crate::ending::Ending;
use crate::stop::StopCause;
use crate::work::{Flow, Work};
use itoa::Buffer;
use jx9_compile::{Code, Op};
use jx9_syntax::Binary;
use sqlite_items::at;
use std::alloc::Global;
use uq_json::text_of;
use uq_outside::Sink;
use uq_value::Value;

/// Makes ops until the script ends.
pub(crate) fn drive<O: Sink>(
    code: &Code,
    work: &mut Work,
    alloc: Global,
    out: &mut O,
) -> Result<Ending, StopCause>
    requires events { work.old.events ≡ 0 }
    requires last { work.old.last ≡ None }
    ensures ended { IfOk result (λ ending. At code.now (Flow.Ends ending) work.old work.new (O.written out.old) (O.written out.new)) }
    ensures quiet { IfOk result (λ _. O.faults out.new ≡ O.faults out.old) }
    ensures stopped { IfErr result (λ cause. Halted code.now work.old work.new
        (O.written out.old) (O.written out.new) (O.faults out.old) (O.faults out.new) cause) }
{
    'ops: loop {
        match step(code, work, alloc, out) {
            Ok(flow) => match flow {
                Flow::Next => {}
                Flow::Ends(ending) => return Ok(ending),
            },
            Err(cause) => return Err(cause),
        }
    }
}

/// The ops of a function, none where there is no such function.
#[inline(always)]
fn ops_at(code: &Code, function: usize) -> &[Op]
    ensures { result.now ≡ ops_of code.now function }
{
    match at(code.functions(), function) {
        Some(function) => function.ops(),
        None => &[],
    }
}

/// Makes the next op. A script that has run off its ops is spent: code ends each of its functions.
#[inline(always)]
fn step<O: Sink>(
    code: &Code,
    work: &mut Work,
    alloc: Global,
    out: &mut O,
) -> Result<Flow, StopCause>
    ensures did { IfOk result (λ flow. DoesSome code.now (Reaches code.now) flow work.old work.new (O.written out.old) (O.written out.new)) }
    ensures quiet { IfOk result (λ _. O.faults out.new ≡ O.faults out.old) }
    ensures halts { IfErr result (λ cause. Fails (Reaches code.now) work.old work.new
        (O.written out.old) (O.written out.new) (O.faults out.old) (O.faults out.new) cause) }
{
    let ops = ops_at(code, work.function);
    match at(ops, work.place) {
        Some(op) => perform(op, code, ops, work, alloc, out),
        None => Ok(Flow::Ends(Ending::Spent)),
    }
}

/// Makes an op.
#[inline(always)]
fn perform<O: Sink>(
    op: &Op,
    code: &Code,
    ops: &[Op],
    work: &mut Work,
    alloc: Global,
    out: &mut O,
) -> Result<Flow, StopCause>
    requires ops { ops.now ≡ ops_of code.now work.old.function }
    requires within { work.old.place < length ops.now }
    ensures did { IfOk result (λ flow. DoesSome code.now (Acts code.now op.now) flow work.old work.new (O.written out.old) (O.written out.new)) }
    ensures quiet { IfOk result (λ _. O.faults out.new ≡ O.faults out.old) }
    ensures fails { IfErr result (λ cause. Fails (Acts code.now op.now) work.old work.new
        (O.written out.old) (O.written out.new) (O.faults out.old) (O.faults out.new) cause) }
{
    match op {
        Op::Unit { line: _line } => Ok(work.unit()),
        Op::Push(value) => work.push(alloc, value),
        Op::Pop => Ok(work.drop_top()),
        Op::Copy => work.copy_top(alloc),
        Op::Load(slot) => work.load(alloc, *slot),
        Op::Store(slot) => Ok(work.store(*slot)),
        Op::Assign { slot, line: _ } => Ok(work.assign(*slot)),
        Op::Count { slot, step, line } => {
            if is_dropped(ops, work.place) {
                return Ok(work.count_unshown(*slot, *step, *line));
            }
            work.count(*slot, *step, *line)
        }
        Op::Change { slot, how, line } => {
            if is_dropped(ops, work.place) {
                return work.change_unshown(alloc, *slot, *how, *line);
            }
            work.change(alloc, *slot, *how, *line)
        }
        Op::Add { line } => work.operate(Binary::Add, *line),
        Op::Operate { operator, line } => work.operate(*operator, *line),
        Op::Not => work.not(),
        Op::Join { count, line } => work.join(alloc, *count, *line),
        Op::Jump(to) => Ok(work.jump(ops, *to)),
        Op::JumpUnless(to) => Ok(work.jump_where(ops, *to, false)),
        Op::JumpIf(to) => Ok(work.jump_where(ops, *to, true)),
        Op::Call {
            function,
            count,
            line,
        } => work.call(code, *function, *count, *line),
        Op::Print => print(work, alloc, out),
        Op::End => work.end(),
    }
}

/// Whether the op behind a place drops the top.
#[inline(always)]
fn is_dropped(ops: &[Op], place: usize) -> bool
    requires { place < length ops.now }
    ensures within { OnTrue result (place + 1 < length ops.now) }
    ensures pops { OnTrue result (slice_get ops.now (place + 1) ≡ Some SpecOp.Pop) }
{
    place + 1 < ops.len() && matches!(ops[place + 1], Op::Pop)
}

/// Puts out the text of the top: one event. An event that would have the number 2^64 - 1 is not made, and ends the script.
#[inline(never)]
fn print<O: Sink>(work: &mut Work, alloc: Global, out: &mut O) -> Result<Flow, StopCause>
    requires { work.old.place < 2 ^ 64 - 1 }
    ensures prints { IfOk result (λ flow. Prints flow work.old work.new (O.written out.old) (O.written out.new)) }
    ensures quiet { IfOk result (λ _. O.faults out.new ≡ O.faults out.old) }
    ensures misses { IfErr result (Misses (spec_text_of (top_of work.old)) work.old work.new
        (O.written out.old) (O.written out.new) (O.faults out.old) (O.faults out.new)) }
{
    if work.events == u64::MAX {
        return Ok(Flow::Ends(Ending::Spent));
    }
    let value = work.pop();
    match &value {
        Value::Text(text) => put_out(work, text.bytes(), out),
        Value::Int(z) => put_out(work, Buffer::new().format(*z).as_bytes(), out),
        _ => match text_of(alloc, &value) {
            Ok(text) => put_out(work, text.as_slice(), out),
            Err(_) => Err(StopCause::Memory),
        },
    }
}

/// Puts out these bytes, counts the event, and goes on.
fn put_out<O: Sink>(work: &mut Work, bytes: &[u8], out: &mut O) -> Result<Flow, StopCause>
    requires room { work.old.events < 2 ^ 64 - 1 }
    requires place { work.old.place < 2 ^ 64 - 1 }
    ensures puts { IfOk result (λ flow. IsPut bytes.now flow work.old work.new) }
    ensures bytes { IfOk result (λ _. Grows bytes.now (O.written out.old) (O.written out.new)) }
    ensures quiet { IfOk result (λ _. O.faults out.new ≡ O.faults out.old) }
    ensures misses { IfErr result (Misses bytes.now work.old work.new (O.written out.old) (O.written out.new) (O.faults out.old) (O.faults out.new)) }
{
    match out.put(bytes) {
        Ok(()) => {
            work.count_print(bytes);
            Ok(Flow::Next)
        }
        Err(_) => Err(StopCause::Sink),
    }
}

//! Hand-written code, run over a base and a sink in memory.

mod failing_base;

use crate::*;
use failing_base::FailingBase;
use jx9_compile::{Code, Function, Op};
use jx9_meaning::FaultKind;
use jx9_syntax::{Binary, Change, Step};
use std::alloc::Global;
use std::fs;
use std::process::Abort;
use std::rt::Files;
use uq_model::{Base, BaseStop, Cause, Done, Limits, MOST_BYTES, MOST_ENTRIES, MapBase};
use uq_outside::MemSink;
use uq_value::{Text, Value};

/// A function of these ops.
fn function<const N: usize>(
    rt: &impl Abort,
    alloc: Global,
    params: u32,
    slots: u32,
    ops: [Op; N],
) -> Function {
    Function::new(params, slots, Vec::from_array(alloc, ops).expect(rt, "ops"))
}

fn code_of_one(rt: &impl Abort, alloc: Global, function: Function) -> Code {
    assert!(rt; function.ops().len() < 1000);
    Code::assemble(alloc, &[function]).expect(rt, "code")
}

fn code_of_two(rt: &impl Abort, alloc: Global, first: Function, second: Function) -> Code {
    assert!(rt; first.ops().len() < 1000);
    assert!(rt; second.ops().len() < 1000);
    Code::assemble(alloc, &[first, second]).expect(rt, "code")
}

/// A base in which nothing is.
fn base(alloc: Global) -> MapBase {
    let limits = Limits {
        entries: MOST_ENTRIES,
        bytes: MOST_BYTES,
    };
    MapBase::new(alloc, limits)
}

/// Runs the code over a new base, and checks the ending, the units that it took and what it put out.
fn check(
    rt: &impl Abort,
    alloc: Global,
    code: &Code,
    budget: u64,
    want: &Ending,
    units: u128,
    text: &[u8],
) {
    let mut out = MemSink::new(alloc, &[]).expect(rt, "a sink");
    let mut meter = Meter::new();
    let ran = exec(alloc, code, &mut base(alloc), &mut out, budget, &mut meter).expect(
        rt,
        "an ending",
    );
    assert!(rt; is_same(&ran.ending, want));
    assert_eq!(rt; meter.units(), units);
    assert_eq!(rt; out.written(), text);
    assert_eq!(rt; ran.last, text.last().copied());
}

fn is_same(a: &Ending, b: &Ending) -> bool {
    match a {
        Ending::Done => matches!(b, Ending::Done),
        Ending::Spent => matches!(b, Ending::Spent),
        Ending::Fault { kind, line } => match b {
            Ending::Fault {
                kind: other,
                line: place,
            } => *kind == *other && *line == *place,
            _ => false,
        },
    }
}

fn unit() -> Op {
    Op::Unit { line: 1 }
}

fn int(z: i64) -> Op {
    Op::Push(Value::Int(z))
}

fn text(rt: &impl Abort, alloc: Global, bytes: &[u8]) -> Op {
    Op::Push(Value::Text(Text::new(alloc, bytes).expect(rt, "a text")))
}

fn fault(kind: FaultKind, line: u32) -> Ending {
    Ending::Fault { kind, line }
}

#[test]
fn each_unit_op_takes_a_unit(rt: HostRuntime) {
    let alloc = rt.alloc();
    let ops = [unit(), unit(), int(1), Op::Print, Op::End];
    let code = code_of_one(&rt, alloc, function(&rt, alloc, 0, 0, ops));
    check(&rt, alloc, &code, 2, &Ending::Done, 2, b"1");
    check(&rt, alloc, &code, 5, &Ending::Done, 2, b"1");
    check(&rt, alloc, &code, 1, &Ending::Spent, 1, b"");
    check(&rt, alloc, &code, 0, &Ending::Spent, 0, b"");
}

#[test]
fn a_spent_script_takes_its_whole_budget(rt: HostRuntime) {
    let alloc = rt.alloc();
    // to its own place, which is no `Unit`
    let code = code_of_one(&rt, alloc, function(&rt, alloc, 0, 0, [Op::Jump(0)]));
    check(&rt, alloc, &code, 7, &Ending::Spent, 7, b"");
    // back to a `Unit`
    let code = code_of_one(
        &rt,
        alloc,
        function(&rt, alloc, 0, 0, [unit(), Op::Jump(0)]),
    );
    check(&rt, alloc, &code, 7, &Ending::Spent, 7, b"");
}

#[test]
fn a_loop_counts_down(rt: HostRuntime) {
    let alloc = rt.alloc();
    // $i = 3; while ($i) { print $i; $i = $i - 1; }
    let ops = [
        int(3),
        Op::Store(0),
        unit(),
        Op::Load(0),
        Op::JumpUnless(12),
        Op::Load(0),
        Op::Print,
        Op::Load(0),
        int(1),
        Op::Operate {
            operator: Binary::Subtract,
            line: 2,
        },
        Op::Assign { slot: 0, line: 2 },
        Op::Jump(2),
        Op::End,
    ];
    let code = code_of_one(&rt, alloc, function(&rt, alloc, 0, 1, ops));
    check(&rt, alloc, &code, 4, &Ending::Done, 4, b"321");
    check(&rt, alloc, &code, 3, &Ending::Spent, 3, b"321");
    check(&rt, alloc, &code, 2, &Ending::Spent, 2, b"32");
}

/// An operator on two numbers puts out this text, or has this fault in line 5.
fn check_operator(
    rt: &impl Abort,
    alloc: Global,
    left: i64,
    operator: Binary,
    right: i64,
    want: &Ending,
    text: &[u8],
) {
    let ops = [
        int(left),
        int(right),
        Op::Operate { operator, line: 5 },
        Op::Print,
        Op::End,
    ];
    let code = code_of_one(rt, alloc, function(rt, alloc, 0, 0, ops));
    check(rt, alloc, &code, 0, want, 0, text);
}

#[test]
fn operators_on_numbers(rt: HostRuntime) {
    let alloc = rt.alloc();
    let values: [(i64, Binary, i64, &[u8]); 17] = [
        (7, Binary::Add, -9, b"-2"),
        (7, Binary::Subtract, 9, b"-2"),
        (-7, Binary::Multiply, 9, b"-63"),
        (-7, Binary::Divide, 2, b"-3"),
        (-7, Binary::Remainder, 2, b"-1"),
        (7, Binary::Remainder, -2, b"1"),
        (i64::MIN, Binary::Remainder, -1, b"0"),
        (1, Binary::Equal, 1, b"true"),
        (1, Binary::NotEqual, 1, b"false"),
        (1, Binary::Same, 2, b"false"),
        (1, Binary::NotSame, 2, b"true"),
        (1, Binary::Less, 2, b"true"),
        (2, Binary::Less, 2, b"false"),
        (2, Binary::LessOrEqual, 2, b"true"),
        (2, Binary::Greater, 2, b"false"),
        (3, Binary::Greater, 2, b"true"),
        (2, Binary::GreaterOrEqual, 2, b"true"),
    ];
    for (left, operator, right, text) in values {
        check_operator(&rt, alloc, left, operator, right, &Ending::Done, text);
    }
    let faults = [
        (i64::MAX, Binary::Add, 1, FaultKind::Overflow),
        (i64::MIN, Binary::Subtract, 1, FaultKind::Overflow),
        (i64::MIN, Binary::Multiply, -1, FaultKind::Overflow),
        (i64::MIN, Binary::Divide, -1, FaultKind::Overflow),
        (1, Binary::Divide, 0, FaultKind::ZeroDivisor),
        (1, Binary::Remainder, 0, FaultKind::ZeroDivisor),
    ];
    for (left, operator, right, kind) in faults {
        check_operator(&rt, alloc, left, operator, right, &fault(kind, 5), b"");
    }
}

#[test]
fn a_text_without_a_number_has_none(rt: HostRuntime) {
    let alloc = rt.alloc();
    let operators = [Binary::Add, Binary::Less];
    for operator in operators {
        let ops = [
            int(1),
            text(&rt, alloc, b"a"),
            Op::Operate { operator, line: 3 },
            Op::Print,
            Op::End,
        ];
        let code = code_of_one(&rt, alloc, function(&rt, alloc, 0, 0, ops));
        check(
            &rt,
            alloc,
            &code,
            0,
            &fault(FaultKind::NotNumber, 3),
            0,
            b"",
        );
    }
    let ops = [
        text(&rt, alloc, b"a"),
        Op::Store(0),
        Op::Count {
            slot: 0,
            step: Step::IncrementFirst,
            line: 4,
        },
        Op::Print,
        Op::End,
    ];
    let code = code_of_one(&rt, alloc, function(&rt, alloc, 0, 1, ops));
    check(
        &rt,
        alloc,
        &code,
        0,
        &fault(FaultKind::NotNumber, 4),
        0,
        b"",
    );
}

#[test]
fn steps_show_the_new_number_or_the_old_one(rt: HostRuntime) {
    let alloc = rt.alloc();
    let steps = [
        (Step::IncrementFirst, b"11".as_slice()),
        (Step::DecrementFirst, b"-1-1".as_slice()),
        (Step::IncrementAfter, b"01".as_slice()),
        (Step::DecrementAfter, b"0-1".as_slice()),
    ];
    for (step, text) in steps {
        let ops = [
            Op::Count {
                slot: 0,
                step,
                line: 1,
            },
            Op::Print,
            Op::Load(0),
            Op::Print,
            Op::End,
        ];
        let code = code_of_one(&rt, alloc, function(&rt, alloc, 0, 1, ops));
        check(&rt, alloc, &code, 0, &Ending::Done, 0, text);
    }
    let ops = [
        int(i64::MAX),
        Op::Store(0),
        Op::Count {
            slot: 0,
            step: Step::IncrementAfter,
            line: 6,
        },
        Op::End,
    ];
    let code = code_of_one(&rt, alloc, function(&rt, alloc, 0, 1, ops));
    check(&rt, alloc, &code, 0, &fault(FaultKind::Overflow, 6), 0, b"");
}

#[test]
fn operators_change_variables(rt: HostRuntime) {
    let alloc = rt.alloc();
    // $a = 7; print $a -= 9; print $a ..= "x"; print $a;
    let ops = [
        int(7),
        Op::Store(0),
        int(9),
        Op::Change {
            slot: 0,
            how: Change::By(Binary::Subtract),
            line: 1,
        },
        Op::Print,
        text(&rt, alloc, b"x"),
        Op::Change {
            slot: 0,
            how: Change::Join,
            line: 2,
        },
        Op::Print,
        Op::Load(0),
        Op::Print,
        Op::End,
    ];
    let code = code_of_one(&rt, alloc, function(&rt, alloc, 0, 1, ops));
    check(&rt, alloc, &code, 0, &Ending::Done, 0, b"-2-2x-2x");
    // null has no text before it; 253 bytes, and 3 for the kind and the length
    let long = [b'x'; 253];
    let ops = [
        text(&rt, alloc, &long),
        Op::Change {
            slot: 0,
            how: Change::Join,
            line: 3,
        },
        Op::Print,
        Op::End,
    ];
    let code = code_of_one(&rt, alloc, function(&rt, alloc, 0, 1, ops));
    check(&rt, alloc, &code, 1, &Ending::Done, 1, &long);
    check(&rt, alloc, &code, 0, &Ending::Spent, 0, b"");
    let ops = [
        text(&rt, alloc, b"a"),
        Op::Change {
            slot: 0,
            how: Change::By(Binary::Add),
            line: 4,
        },
        Op::End,
    ];
    let code = code_of_one(&rt, alloc, function(&rt, alloc, 0, 1, ops));
    check(
        &rt,
        alloc,
        &code,
        0,
        &fault(FaultKind::NotNumber, 4),
        0,
        b"",
    );
}

/// `++` behind its variable.
fn count(slot: u32, line: u32) -> Op {
    Op::Count {
        slot,
        step: Step::IncrementAfter,
        line,
    }
}

fn change(slot: u32, how: Change, line: u32) -> Op {
    Op::Change { slot, how, line }
}

#[test]
fn a_value_that_is_dropped_at_once_stays_in_its_variable(rt: HostRuntime) {
    let alloc = rt.alloc();
    // $a = 7; $a -= 9; $a ..= "x"; $a ..= 3; $b++; $b++; print $a; print $b;
    let ops = [
        int(7),
        Op::Store(0),
        int(9),
        change(0, Change::By(Binary::Subtract), 1),
        Op::Pop,
        text(&rt, alloc, b"x"),
        change(0, Change::Join, 1),
        Op::Pop,
        int(3),
        change(0, Change::Join, 1),
        Op::Pop,
        count(1, 1),
        Op::Pop,
        count(1, 1),
        Op::Pop,
        Op::Load(0),
        Op::Print,
        Op::Load(1),
        Op::Print,
        Op::End,
    ];
    let code = code_of_one(&rt, alloc, function(&rt, alloc, 0, 2, ops));
    check(&rt, alloc, &code, 0, &Ending::Done, 0, b"-2x32");
}

#[test]
fn an_op_whose_value_is_dropped_has_its_fault_and_its_units(rt: HostRuntime) {
    let alloc = rt.alloc();
    let ops = [
        text(&rt, alloc, b"a"),
        Op::Store(0),
        count(0, 4),
        Op::Pop,
        Op::End,
    ];
    let code = code_of_one(&rt, alloc, function(&rt, alloc, 0, 1, ops));
    let not_number = fault(FaultKind::NotNumber, 4);
    check(&rt, alloc, &code, 0, &not_number, 0, b"");
    let ops = [int(i64::MAX), Op::Store(0), count(0, 5), Op::Pop, Op::End];
    let code = code_of_one(&rt, alloc, function(&rt, alloc, 0, 1, ops));
    check(&rt, alloc, &code, 0, &fault(FaultKind::Overflow, 5), 0, b"");
    let ops = [
        int(0),
        change(0, Change::By(Binary::Divide), 6),
        Op::Pop,
        Op::End,
    ];
    let code = code_of_one(&rt, alloc, function(&rt, alloc, 0, 1, ops));
    let no_divisor = fault(FaultKind::ZeroDivisor, 6);
    check(&rt, alloc, &code, 0, &no_divisor, 0, b"");
    // 253 bytes, and 3 for the kind and the length
    let ops = [
        text(&rt, alloc, &[b'x'; 253]),
        change(0, Change::Join, 7),
        Op::Pop,
        Op::End,
    ];
    let code = code_of_one(&rt, alloc, function(&rt, alloc, 0, 1, ops));
    check(&rt, alloc, &code, 0, &Ending::Spent, 0, b"");
    check(&rt, alloc, &code, 1, &Ending::Done, 1, b"");
}

#[test]
fn joined_texts_take_units_by_their_size(rt: HostRuntime) {
    let alloc = rt.alloc();
    let ops = [
        int(8),
        text(&rt, alloc, b"a"),
        Op::Push(Value::Bool(true)),
        Op::Join { count: 2, line: 1 },
        Op::Print,
        Op::Print,
        Op::End,
    ];
    let code = code_of_one(&rt, alloc, function(&rt, alloc, 0, 0, ops));
    check(&rt, alloc, &code, 0, &Ending::Done, 0, b"atrue8");
    // 253 bytes, and 3 for the kind and the length
    let long = [b'x'; 253];
    let ops = [
        text(&rt, alloc, &long),
        Op::Join { count: 1, line: 1 },
        Op::Print,
        Op::End,
    ];
    let code = code_of_one(&rt, alloc, function(&rt, alloc, 0, 0, ops));
    check(&rt, alloc, &code, 1, &Ending::Done, 1, &long);
    check(&rt, alloc, &code, 0, &Ending::Spent, 0, b"");
}

#[test]
fn truth_decides_where_to_go(rt: HostRuntime) {
    let alloc = rt.alloc();
    let ops = [
        Op::Push(Value::Bool(true)),
        Op::Copy,
        Op::JumpIf(5),
        Op::Print,
        Op::End,
        Op::Not,
        Op::JumpUnless(9),
        Op::Push(Value::Null),
        Op::End,
        int(8),
        Op::Push(Value::Null),
        Op::Pop,
        Op::Print,
        Op::End,
    ];
    let code = code_of_one(&rt, alloc, function(&rt, alloc, 0, 0, ops));
    check(&rt, alloc, &code, 0, &Ending::Done, 0, b"8");
}

#[test]
fn calls_take_arguments_and_give_a_value(rt: HostRuntime) {
    let alloc = rt.alloc();
    let call = |count: u32| Op::Call {
        function: 1,
        count,
        line: 1,
    };
    // a value lies below the arguments; a further argument is dropped, and a missing one is null
    let ops = [
        int(4),
        int(5),
        int(3),
        int(9),
        call(3),
        Op::Print,
        Op::Print,
        call(0),
        Op::Print,
        Op::End,
    ];
    let first = function(&rt, alloc, 0, 0, ops);
    let ops = [
        unit(),
        Op::Load(0),
        Op::Load(1),
        Op::Operate {
            operator: Binary::Subtract,
            line: 2,
        },
        Op::Load(2),
        Op::Join { count: 2, line: 2 },
        Op::End,
    ];
    let second = function(&rt, alloc, 2, 3, ops);
    let code = code_of_two(&rt, alloc, first, second);
    check(&rt, alloc, &code, 5, &Ending::Done, 2, b"240");
    check(&rt, alloc, &code, 1, &Ending::Spent, 1, b"24");
}

#[test]
fn calls_go_256_deep(rt: HostRuntime) {
    let alloc = rt.alloc();
    let call = |line: u32| Op::Call {
        function: 1,
        count: 0,
        line,
    };
    let first = function(&rt, alloc, 0, 0, [call(1), Op::End]);
    let second = function(&rt, alloc, 0, 0, [unit(), call(2), Op::End]);
    let code = code_of_two(&rt, alloc, first, second);
    check(
        &rt,
        alloc,
        &code,
        1000,
        &fault(FaultKind::CallDepth, 2),
        256,
        b"",
    );
    // a function that begins with no `Unit`
    let first = function(&rt, alloc, 0, 0, [call(1), Op::End]);
    let second = function(&rt, alloc, 0, 0, [Op::Push(Value::Null), Op::End]);
    let code = code_of_two(&rt, alloc, first, second);
    check(&rt, alloc, &code, 5, &Ending::Spent, 5, b"");
}

#[test]
fn a_sink_that_fails_stops_the_script(rt: HostRuntime) {
    let alloc = rt.alloc();
    let ops = [
        unit(),
        text(&rt, alloc, b"ab"),
        Op::Print,
        unit(),
        text(&rt, alloc, b""),
        Op::Print,
        unit(),
        text(&rt, alloc, b"cd"),
        Op::Print,
        Op::End,
    ];
    let code = code_of_one(&rt, alloc, function(&rt, alloc, 0, 0, ops));
    let whole = [b"a".as_slice(), b"ab".as_slice(), b"abc".as_slice()];
    let last = [None, Some(b'b'), Some(b'b')];
    for number in 0..3usize {
        let mut out = MemSink::new(alloc, &[(number as u64 + 1, 1)]).expect(&rt, "a sink");
        let mut meter = Meter::new();
        let stop = exec(alloc, &code, &mut base(alloc), &mut out, 9, &mut meter)
            .err()
            .expect(&rt, "a stop");
        assert_eq!(rt; stop.events, number as u64);
        assert_eq!(rt; stop.last, last[number]);
        assert_eq!(rt; stop.cause, StopCause::Sink);
        assert_eq!(rt; out.written(), whole[number]);
        assert_eq!(rt; meter.units(), number as u128 + 1);
    }
}

#[test]
fn an_aborted_script_rolls_back(rt: HostRuntime) {
    let alloc = rt.alloc();
    let endings = [
        ([int(1), Op::Print, Op::End], true),
        ([int(1), Op::Print, Op::Jump(2)], false),
    ];
    for (ops, stays) in endings {
        let code = code_of_one(&rt, alloc, function(&rt, alloc, 0, 0, ops));
        let mut base = base(alloc);
        assert_eq!(rt; base.create(b"u"), Ok(Done::Yes));
        let mut out = MemSink::new(alloc, &[]).expect(&rt, "a sink");
        let ran = exec(alloc, &code, &mut base, &mut out, 9, &mut Meter::new()).expect(
            &rt,
            "an ending",
        );
        assert_eq!(rt; ran.events, 1);
        assert_eq!(rt;
            base.collection(b"u").map(|found| found.is_some()),
            Ok(stays)
        );
    }
}

#[test]
fn a_base_that_fails_stops_the_script(rt: HostRuntime) {
    let alloc = rt.alloc();
    let done = code_of_one(
        &rt,
        alloc,
        function(&rt, alloc, 0, 0, [unit(), int(1), Op::Print, Op::End]),
    );
    let spent = code_of_one(
        &rt,
        alloc,
        function(&rt, alloc, 0, 0, [unit(), int(1), Op::Print, Op::Jump(3)]),
    );
    for answers in 0..3u64 {
        let mut base = FailingBase::new(answers);
        for call in 0..4u64 {
            let mut out = MemSink::new(alloc, &[]).expect(&rt, "a sink");
            let mut meter = Meter::new();
            // a script that is done makes no call
            let ran = exec(alloc, &done, &mut base, &mut out, 9, &mut meter).expect(
                &rt,
                "an ending",
            );
            assert!(rt; matches!(ran.ending, Ending::Done));
            assert_eq!(rt; meter.units(), 1);
            let answer = exec(alloc, &spent, &mut base, &mut out, 9, &mut meter);
            assert_eq!(rt; out.written(), b"11".as_slice());
            if call < answers {
                assert!(rt; matches!(answer.expect(&rt, "an ending").ending, Ending::Spent));
                assert_eq!(rt; meter.units(), 10);
            } else {
                let first = if call == answers {
                    BaseStop::Disk
                } else {
                    BaseStop::Closed { first: Cause::Disk }
                };
                let stop = answer.err().expect(&rt, "a stop");
                assert_eq!(rt; stop.cause, StopCause::Base(first));
                assert_eq!(rt; stop.events, 1);
                assert_eq!(rt; stop.last, Some(b'1'));
                assert!(rt; meter.units() <= 10);
            }
        }
    }
}

/// How much memory the process holds, in pages of 4096 bytes.
fn pages_held(rt: &(impl Files + AllocGlobal + Abort)) -> u64 {
    let text = fs::read_to_string(rt, "/proc/self/statm").expect(rt, "the process's sizes");
    let (all, _) = text.as_str().split_once(' ').expect(rt, "the first size");
    all.parse::<u64>().expect(rt, "a number")
}

#[test]
fn values_are_released_when_the_call_returns(rt: HostRuntime) {
    let alloc = rt.alloc();
    // a variable, an argument and the callee's stack hold 64 KiB each
    let long = vec![in alloc; b'x'; 1 << 16].expect(&rt, "a long text");
    let main = [
        text(&rt, alloc, long.as_slice()),
        Op::Store(0),
        text(&rt, alloc, long.as_slice()),
        Op::Call {
            function: 1,
            count: 1,
            line: 1,
        },
        Op::End,
    ];
    let called = [unit(), Op::Load(0), Op::Load(0), unit(), Op::End];
    let code = code_of_two(
        &rt,
        alloc,
        function(&rt, alloc, 0, 1, main),
        function(&rt, alloc, 1, 1, called),
    );
    let endings = [Ending::Spent, Ending::Spent, Ending::Done];
    let before = pages_held(&rt);
    for turn in 0..300usize {
        let budget = turn % 3;
        let mut out = MemSink::new(alloc, &[]).expect(&rt, "a sink");
        let mut meter = Meter::new();
        let ran = exec(
            alloc,
            &code,
            &mut base(alloc),
            &mut out,
            budget as u64,
            &mut meter,
        )
        .expect(&rt, "an ending");
        assert!(rt; is_same(&ran.ending, &endings[budget]));
    }
    // 8 MiB, where each of 300 calls that kept one of these texts would hold 18
    assert!(rt; pages_held(&rt).saturating_sub(before) < 2048);
}

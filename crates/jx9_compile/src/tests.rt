//! Code by hand: which functions are taken, and which place of the others is blamed.

use crate::*;
use jx9_syntax::{Binary, Change};
use std::alloc::Global;
use std::process::Abort;
use uq_value::Value;

/// The ops as a list.
fn list<const N: usize>(rt: &impl Abort, alloc: Global, ops: [Op; N]) -> Vec<Op> {
    Vec::from_array(alloc, ops).expect(rt, "ops")
}

/// The bad place of a code of one function, without parameters.
fn bad_place<const N: usize>(
    rt: &impl Abort,
    alloc: Global,
    slots: u32,
    ops: [Op; N],
) -> Option<u32> {
    bad_op(rt, alloc, Function::new(0, slots, list(rt, alloc, ops)))
}

/// The bad place of a code of this function alone.
fn bad_op(rt: &impl Abort, alloc: Global, function: Function) -> Option<u32> {
    assert!(rt; function.ops().len() < 1000);
    match Code::assemble(alloc, &[function]) {
        Ok(code) => {
            assert_eq!(rt; code.functions().len(), 1);
            None
        }
        Err(CodeFault::BadCode { function, at }) => {
            assert_eq!(rt; function, 0);
            Some(at)
        }
        Err(CodeFault::Memory) => {
            assert!(rt; false, "there is memory");
            None
        }
    }
}

fn null() -> Op {
    Op::Push(Value::Null)
}

fn unit() -> Op {
    Op::Unit { line: 1 }
}

/// `*=` on a slot.
fn doubled(slot: u32) -> Op {
    Op::Change {
        slot,
        how: Change::By(Binary::Multiply),
        line: 1,
    }
}

#[test]
fn good_code_is_taken(rt: HostRuntime) {
    let alloc = rt.alloc();
    let two_units = [unit(), unit(), Op::Push(Value::Int(1)), Op::Print, Op::End];
    assert_eq!(rt; bad_place(&rt, alloc, 0, two_units), None);
    assert_eq!(rt; bad_place(&rt, alloc, 0, [Op::End]), None);
    // a value that is left, and a loop
    assert_eq!(rt; bad_place(&rt, alloc, 0, [null(), Op::End]), None);
    assert_eq!(rt; bad_place(&rt, alloc, 0, [unit(), Op::Jump(0)]), None);
    assert_eq!(rt; bad_place(&rt, alloc, 0, [Op::Jump(0)]), None);
    // two ways with the same height
    let branch = [
        Op::Load(0),
        Op::JumpUnless(4),
        null(),
        Op::Jump(5),
        null(),
        Op::Print,
        Op::End,
    ];
    assert_eq!(rt; bad_place(&rt, alloc, 1, branch), None);
    let call = [
        null(),
        null(),
        Op::Call {
            function: 0,
            count: 2,
            line: 1,
        },
        Op::End,
    ];
    assert_eq!(rt; bad_place(&rt, alloc, 0, call), None);
}

#[test]
fn functions_without_ops_are_bad_at_0(rt: HostRuntime) {
    let alloc = rt.alloc();
    assert_eq!(rt; bad_place(&rt, alloc, 0, []), Some(0));
    let too_few_slots = Function::new(2, 1, list(&rt, alloc, [Op::End, Op::End]));
    assert_eq!(rt; bad_op(&rt, alloc, too_few_slots), Some(0));
    let enough_slots = Function::new(2, 2, list(&rt, alloc, [Op::End]));
    assert_eq!(rt; bad_op(&rt, alloc, enough_slots), None);
    let nothing: [Function; 0] = [];
    let fault = Code::assemble(alloc, &nothing).err();
    assert_eq!(rt; fault, Some(CodeFault::BadCode { function: 0, at: 0 }));
}

#[test]
fn what_is_named_is_there(rt: HostRuntime) {
    let alloc = rt.alloc();
    assert_eq!(rt; bad_place(&rt, alloc, 0, [Op::Jump(9)]), Some(0));
    // behind the last op there is none
    assert_eq!(rt; bad_place(&rt, alloc, 0, [unit(), Op::Jump(2)]), Some(1));
    assert_eq!(rt;
        bad_place(&rt, alloc, 0, [null(), Op::JumpUnless(3), Op::End]),
        Some(1)
    );
    assert_eq!(rt;
        bad_place(&rt, alloc, 0, [null(), Op::JumpIf(3), Op::End]),
        Some(1)
    );
    assert_eq!(rt; bad_place(&rt, alloc, 1, [Op::Load(1), Op::End]), Some(0));
    assert_eq!(rt; bad_place(&rt, alloc, 2, [Op::Load(1), Op::End]), None);
    assert_eq!(rt;
        bad_place(&rt, alloc, 1, [null(), Op::Store(1), Op::End]),
        Some(1)
    );
    let assign = [null(), Op::Assign { slot: 1, line: 1 }, Op::End];
    assert_eq!(rt; bad_place(&rt, alloc, 1, assign), Some(1));
    assert_eq!(rt;
        bad_place(&rt, alloc, 1, [null(), doubled(1), Op::End]),
        Some(1)
    );
    let step = jx9_syntax::Step::IncrementAfter;
    assert_eq!(rt;
        bad_place(
            &rt,
            alloc,
            1,
            [
                Op::Count {
                    slot: 1,
                    step,
                    line: 1
                },
                Op::End
            ]
        ),
        Some(0)
    );
    assert_eq!(rt;
        bad_place(
            &rt,
            alloc,
            0,
            [
                Op::Call {
                    function: 1,
                    count: 0,
                    line: 1
                },
                Op::End
            ]
        ),
        Some(0)
    );
}

#[test]
fn values_are_there(rt: HostRuntime) {
    let alloc = rt.alloc();
    assert_eq!(rt; bad_place(&rt, alloc, 0, [Op::Pop, Op::End]), Some(0));
    assert_eq!(rt; bad_place(&rt, alloc, 0, [Op::Copy, Op::End]), Some(0));
    assert_eq!(rt; bad_place(&rt, alloc, 0, [Op::Not, Op::End]), Some(0));
    assert_eq!(rt; bad_place(&rt, alloc, 0, [Op::Print, Op::End]), Some(0));
    assert_eq!(rt; bad_place(&rt, alloc, 1, [Op::Store(0), Op::End]), Some(0));
    assert_eq!(rt;
        bad_place(&rt, alloc, 1, [Op::Assign { slot: 0, line: 1 }, Op::End]),
        Some(0)
    );
    assert_eq!(rt; bad_place(&rt, alloc, 1, [doubled(0), Op::End]), Some(0));
    assert_eq!(rt;
        bad_place(&rt, alloc, 0, [Op::JumpUnless(1), Op::End]),
        Some(0)
    );
    assert_eq!(rt; bad_place(&rt, alloc, 0, [Op::JumpIf(1), Op::End]), Some(0));
    assert_eq!(rt;
        bad_place(&rt, alloc, 0, [null(), Op::Add { line: 1 }, Op::End]),
        Some(1)
    );
    let operator = Binary::Less;
    assert_eq!(rt;
        bad_place(
            &rt,
            alloc,
            0,
            [null(), Op::Operate { operator, line: 1 }, Op::End]
        ),
        Some(1)
    );
    assert_eq!(rt;
        bad_place(
            &rt,
            alloc,
            0,
            [null(), Op::Join { count: 2, line: 1 }, Op::End]
        ),
        Some(1)
    );
    assert_eq!(rt;
        bad_place(
            &rt,
            alloc,
            0,
            [
                null(),
                Op::Call {
                    function: 0,
                    count: 2,
                    line: 1
                },
                Op::End
            ]
        ),
        Some(1)
    );
    // `End` takes nothing, but the stack can't be below 0 there; op 2 comes first on the way, op 1 in the function
    assert_eq!(rt;
        bad_place(&rt, alloc, 0, [Op::Jump(2), Op::End, Op::Pop, Op::Jump(1)]),
        Some(1)
    );
    // below 0 the heights go on: there are enough at op 1
    assert_eq!(rt;
        bad_place(
            &rt,
            alloc,
            0,
            [Op::Jump(2), Op::End, Op::Pop, null(), Op::Jump(1)]
        ),
        Some(2)
    );
}

#[test]
fn each_op_has_one_height(rt: HostRuntime) {
    let alloc = rt.alloc();
    assert_eq!(rt;
        bad_place(&rt, alloc, 0, [null(), Op::JumpUnless(3), null(), Op::End]),
        Some(3)
    );
    // a loop that leaves a value in each turn
    assert_eq!(rt;
        bad_place(&rt, alloc, 0, [unit(), null(), Op::Jump(0)]),
        Some(0)
    );
    // what is behind two heights has two
    let behind = [
        null(),
        Op::JumpUnless(5),
        null(),
        Op::Jump(5),
        Op::End,
        Op::Jump(4),
    ];
    assert_eq!(rt; bad_place(&rt, alloc, 0, behind), Some(4));
}

#[test]
fn the_last_op_ends(rt: HostRuntime) {
    let alloc = rt.alloc();
    assert_eq!(rt; bad_place(&rt, alloc, 0, [unit()]), Some(0));
    assert_eq!(rt; bad_place(&rt, alloc, 0, [unit(), null()]), Some(1));
    // it jumps or runs off
    assert_eq!(rt;
        bad_place(&rt, alloc, 0, [null(), Op::JumpUnless(0)]),
        Some(1)
    );
}

#[test]
fn where_no_way_leads_only_names_count(rt: HostRuntime) {
    let alloc = rt.alloc();
    assert_eq!(rt; bad_place(&rt, alloc, 0, [Op::End, Op::Pop]), None);
    assert_eq!(rt; bad_place(&rt, alloc, 0, [Op::End, null()]), None);
    assert_eq!(rt; bad_place(&rt, alloc, 0, [Op::End, Op::Jump(9)]), Some(1));
    assert_eq!(rt; bad_place(&rt, alloc, 0, [Op::End, Op::Load(0)]), Some(1));
    assert_eq!(rt;
        bad_place(
            &rt,
            alloc,
            0,
            [
                Op::End,
                Op::Call {
                    function: 1,
                    count: 0,
                    line: 1
                }
            ]
        ),
        Some(1)
    );
    // of two bad ops the first counts, whichever a way leads to
    assert_eq!(rt;
        bad_place(&rt, alloc, 0, [Op::Jump(2), Op::Load(0), Op::Pop]),
        Some(1)
    );
}

#[test]
fn the_first_bad_function_counts(rt: HostRuntime) {
    let alloc = rt.alloc();
    let call = Op::Call {
        function: 1,
        count: 0,
        line: 1,
    };
    let functions = [
        Function::new(0, 0, list(&rt, alloc, [call, Op::End])),
        Function::new(0, 0, list(&rt, alloc, [unit(), Op::Pop])),
    ];
    assert!(rt; functions[0].ops().len() < 1000);
    assert!(rt; functions[1].ops().len() < 1000);
    let fault = Code::assemble(alloc, &functions).err();
    assert_eq!(rt; fault, Some(CodeFault::BadCode { function: 1, at: 1 }));
}

//! Trees by hand, and the ops that they become.

ghost use Rattle.std.specs.Prelude.{[]};
ghost use Rattle.jx9_syntax.specs.Nesting.{StatementsFit, most_nesting};

use crate::compiling::start_of;
use crate::problems::{Problem, first_in};
use crate::*;
use jx9_syntax::{
    Access, Binary, Branch, Change, Expr, Function as Definition, Kind, Link, Literal, Named, Node,
    Part, Parts, Place, Program, Statement, Step,
};
use sqlite_items::{Boxed, Items};
use std::alloc::Global;
use std::process::Abort;
use uq_value::{Text, Value};

// ---- trees

fn items<T, const N: usize>(rt: &impl Abort, alloc: Global, list: [T; N]) -> Items<T> {
    Items::from_vec(Vec::from_array(alloc, list).expect(rt, "a list"))
}

fn text(rt: &impl Abort, alloc: Global, name: &str) -> Text {
    Text::new(alloc, name.as_bytes()).expect(rt, "a text")
}

fn expr(node: Node) -> Expr {
    Expr {
        line: 1,
        token: 0,
        node,
    }
}

fn boxed(rt: &impl Abort, alloc: Global, e: Expr) -> Boxed<Expr> {
    Boxed::new(alloc, e).expect(rt, "a box")
}

fn int(n: i64) -> Expr {
    expr(Node::Literal(Literal::Int(n)))
}

fn var(rt: &impl Abort, alloc: Global, name: &str) -> Expr {
    expr(Node::Var(text(rt, alloc, name), Items::new(alloc)))
}

fn place(rt: &impl Abort, alloc: Global, name: &str) -> Place {
    Place {
        name: text(rt, alloc, name),
        steps: Items::new(alloc),
    }
}

fn chain<const N: usize>(rt: &impl Abort, alloc: Global, first: Expr, links: [Link; N]) -> Expr {
    expr(Node::Chain(boxed(rt, alloc, first), items(rt, alloc, links)))
}

fn link(op: Binary, operand: Expr) -> Link {
    Link { op, operand }
}

fn assign(rt: &impl Abort, alloc: Global, name: &str, right: Expr) -> Expr {
    expr(Node::Assign(place(rt, alloc, name), boxed(rt, alloc, right)))
}

fn change(rt: &impl Abort, alloc: Global, name: &str, how: Change, right: Expr) -> Node {
    Node::Change(place(rt, alloc, name), how, boxed(rt, alloc, right))
}

fn statement(kind: Kind) -> Statement {
    Statement {
        line: 2,
        token: 0,
        kind,
    }
}

fn body(rt: &impl Abort, alloc: Global, kind: Kind) -> Boxed<Statement> {
    Boxed::new(alloc, statement(kind)).expect(rt, "a box")
}

fn print(rt: &impl Abort, alloc: Global, e: Expr) -> Kind {
    Kind::Print(items(rt, alloc, [e]))
}

// ---- ops

fn push(rt: &impl Abort, alloc: Global, value: &Value) -> String {
    let shown = match value {
        Value::Null => format!(in alloc; "push null"),
        Value::Bool(b) => format!(in alloc; "push {b}"),
        Value::Int(n) => format!(in alloc; "push {n}"),
        Value::Text(t) => format!(in alloc; "push {:?}", t.bytes()),
        _ => format!(in alloc; "push another"),
    };
    shown.expect(rt, "a text")
}

fn shown(rt: &impl Abort, alloc: Global, op: &Op) -> String {
    let shown = match op {
        Op::Unit { line } => format!(in alloc; "unit {line}"),
        Op::Push(value) => Ok(push(rt, alloc, value)),
        Op::Pop => format!(in alloc; "pop"),
        Op::Copy => format!(in alloc; "copy"),
        Op::Load(slot) => format!(in alloc; "load {slot}"),
        Op::Store(slot) => format!(in alloc; "store {slot}"),
        Op::Assign { slot, line } => format!(in alloc; "assign {slot} {line}"),
        Op::Count { slot, step, line } => format!(in alloc; "count {slot} {step:?} {line}"),
        Op::Change { slot, how, line } => format!(in alloc; "change {slot} {how:?} {line}"),
        Op::Add { line } => format!(in alloc; "add {line}"),
        Op::Operate { operator, line } => format!(in alloc; "{operator:?} {line}"),
        Op::Not => format!(in alloc; "not"),
        Op::Join { count, line } => format!(in alloc; "join {count} {line}"),
        Op::Jump(to) => format!(in alloc; "jump {to}"),
        Op::JumpUnless(to) => format!(in alloc; "unless {to}"),
        Op::JumpIf(to) => format!(in alloc; "if {to}"),
        Op::Call { .. } => format!(in alloc; "call"),
        Op::Print => format!(in alloc; "print"),
        Op::End => format!(in alloc; "end"),
    };
    shown.expect(rt, "a text")
}

/// A function has these ops, one a line.
fn has_ops(rt: &impl Abort, alloc: Global, function: &Function, ops: &str) {
    let mut all = String::new(alloc);
    for op in function.ops() {
        all.push_str(shown(rt, alloc, op).as_str())
            .expect(rt, "memory");
        all.push_str("\n").expect(rt, "memory");
    }
    assert_eq!(rt; all.as_str(), ops);
}

/// The function of these statements has these ops, one a line.
fn is_code<const N: usize>(rt: &impl Abort, alloc: Global, statements: [Statement; N], ops: &str) {
    let statements = Vec::from_array(alloc, statements).expect(rt, "statements");
    let function = start_of(alloc, statements.as_slice()).expect(rt, "memory");
    has_ops(rt, alloc, &function, ops);
}

/// The statement that prints this expression has these ops.
fn is_value(rt: &impl Abort, alloc: Global, e: Expr, ops: &str) {
    is_code(rt, alloc, [statement(print(rt, alloc, e))], ops);
}

#[test]
fn values_are_pushed_from_the_left(rt: HostRuntime) {
    let alloc = rt.alloc();
    let literals = [
        (Literal::Int(7), "unit 2\nunit 1\npush 7\nprint\nend\n"),
        (Literal::Int(-1), "unit 2\nunit 1\npush -1\nprint\nend\n"),
        (Literal::Null, "unit 2\nunit 1\npush null\nprint\nend\n"),
        (
            Literal::Bool(true),
            "unit 2\nunit 1\npush true\nprint\nend\n",
        ),
        (
            Literal::Bool(false),
            "unit 2\nunit 1\npush false\nprint\nend\n",
        ),
        (
            Literal::Text(text(&rt, alloc, "AB")),
            "unit 2\nunit 1\npush [65, 66]\nprint\nend\n",
        ),
    ];
    for (literal, ops) in literals {
        is_value(&rt, alloc, expr(Node::Literal(literal)), ops);
    }
    is_value(
        &rt,
        alloc,
        expr(Node::Group(boxed(&rt, alloc, var(&rt, alloc, "x")))),
        "unit 2\nunit 1\nunit 1\nload 0\nprint\nend\n",
    );
    is_value(
        &rt,
        alloc,
        expr(Node::Negate(boxed(&rt, alloc, int(3)))),
        "unit 2\nunit 1\npush 0\nunit 1\npush 3\nSubtract 1\nprint\nend\n",
    );
    is_value(
        &rt,
        alloc,
        expr(Node::Not(boxed(&rt, alloc, int(3)))),
        "unit 2\nunit 1\nunit 1\npush 3\nnot\nprint\nend\n",
    );
    let links = [link(Binary::Add, int(2)), link(Binary::Subtract, int(3))];
    is_value(
        &rt,
        alloc,
        chain(&rt, alloc, int(1), links),
        "unit 2\nunit 1\nunit 1\npush 1\nunit 1\npush 2\nadd 1\nunit 1\npush 3\nSubtract 1\nprint\nend\n",
    );
    let operands = [int(1), var(&rt, alloc, "x")];
    is_value(
        &rt,
        alloc,
        expr(Node::Join(items(&rt, alloc, operands))),
        "unit 2\nunit 1\nunit 1\npush 1\nunit 1\nload 0\njoin 2 1\nprint\nend\n",
    );
    let parts = [
        Part::Text(text(&rt, alloc, "A")),
        Part::Var(text(&rt, alloc, "x")),
    ];
    let parts = Parts::from_vec(Vec::from_array(alloc, parts).expect(&rt, "parts"));
    is_value(
        &rt,
        alloc,
        expr(Node::Mixed(parts)),
        "unit 2\nunit 1\npush [65]\nload 0\njoin 2 1\nprint\nend\n",
    );
    is_value(
        &rt,
        alloc,
        expr(Node::Step(Step::DecrementAfter, place(&rt, alloc, "x"))),
        "unit 2\nunit 1\ncount 0 DecrementAfter 1\nprint\nend\n",
    );
}

#[test]
fn an_assignment_is_a_value_or_moves_it(rt: HostRuntime) {
    let alloc = rt.alloc();
    is_value(
        &rt,
        alloc,
        assign(&rt, alloc, "x", int(1)),
        "unit 2\nunit 1\nunit 1\npush 1\ncopy\nassign 0 1\nprint\nend\n",
    );
    // a statement keeps no value, and each variable has one slot
    let first = statement(Kind::Expr(assign(&rt, alloc, "x", int(1))));
    let second = statement(Kind::Expr(assign(&rt, alloc, "y", var(&rt, alloc, "x"))));
    let third = statement(Kind::Expr(var(&rt, alloc, "y")));
    is_code(
        &rt,
        alloc,
        [first, second, third],
        "unit 2\nunit 1\nunit 1\npush 1\nassign 0 1\nunit 2\nunit 1\nunit 1\nload 0\nassign 1 1\nunit 2\nunit 1\nload 1\npop\nend\n",
    );
}

#[test]
fn a_variable_is_changed_by_what_stands_on_the_right(rt: HostRuntime) {
    let alloc = rt.alloc();
    let sum = change(
        &rt,
        alloc,
        "y",
        Change::By(Binary::Add),
        var(&rt, alloc, "x"),
    );
    is_value(
        &rt,
        alloc,
        expr(sum),
        "unit 2\nunit 1\nunit 1\nload 0\nchange 1 By(Add) 1\nprint\nend\n",
    );
    let text = change(&rt, alloc, "x", Change::Join, int(1));
    is_code(
        &rt,
        alloc,
        [statement(Kind::Expr(expr(text)))],
        "unit 2\nunit 1\nunit 1\npush 1\nchange 0 Join 1\npop\nend\n",
    );
}

#[test]
fn operands_that_decide_jump_to_one_end(rt: HostRuntime) {
    let alloc = rt.alloc();
    let more = items(&rt, alloc, [int(2), int(3)]);
    is_value(
        &rt,
        alloc,
        expr(Node::Or(boxed(&rt, alloc, int(1)), more)),
        "unit 2\nunit 1\nunit 1\npush 1\nif 13\nunit 1\npush 2\nif 13\nunit 1\npush 3\nif 13\npush false\njump 14\npush true\nprint\nend\n",
    );
    let more = items(&rt, alloc, [int(2)]);
    is_value(
        &rt,
        alloc,
        expr(Node::And(boxed(&rt, alloc, int(1)), more)),
        "unit 2\nunit 1\nunit 1\npush 1\nunless 10\nunit 1\npush 2\nunless 10\npush true\njump 11\npush false\nprint\nend\n",
    );
    let choice = Node::Cond(
        boxed(&rt, alloc, int(1)),
        boxed(&rt, alloc, int(2)),
        boxed(&rt, alloc, int(3)),
    );
    is_value(
        &rt,
        alloc,
        expr(choice),
        "unit 2\nunit 1\nunit 1\npush 1\nunless 8\nunit 1\npush 2\njump 10\nunit 1\npush 3\nprint\nend\n",
    );
}

fn branch(rt: &impl Abort, alloc: Global, test: i64, printed: i64) -> Branch {
    Branch {
        test: int(test),
        body: statement(print(rt, alloc, int(printed))),
    }
}

#[test]
fn branches_jump_to_the_end_of_all(rt: HostRuntime) {
    let alloc = rt.alloc();
    let one = items(&rt, alloc, [branch(&rt, alloc, 1, 2)]);
    is_code(
        &rt,
        alloc,
        [statement(Kind::If(one, None))],
        "unit 2\nunit 1\npush 1\nunless 9\nunit 2\nunit 1\npush 2\nprint\njump 9\nend\n",
    );
    let two = items(
        &rt,
        alloc,
        [branch(&rt, alloc, 1, 2), branch(&rt, alloc, 3, 4)],
    );
    let other = body(&rt, alloc, print(&rt, alloc, int(5)));
    is_code(
        &rt,
        alloc,
        [statement(Kind::If(two, Some(other)))],
        "unit 2\nunit 1\npush 1\nunless 9\nunit 2\nunit 1\npush 2\nprint\njump 21\nunit 1\npush 3\nunless 17\nunit 2\nunit 1\npush 4\nprint\njump 21\nunit 2\nunit 1\npush 5\nprint\nend\n",
    );
}

#[test]
fn loops_jump_back_to_units(rt: HostRuntime) {
    let alloc = rt.alloc();
    // a block with both ways out of a turn
    let both = [statement(Kind::Break), statement(Kind::Continue)];
    let turn = body(&rt, alloc, Kind::Block(items(&rt, alloc, both)));
    is_code(
        &rt,
        alloc,
        [statement(Kind::While(int(1), turn))],
        "unit 2\nunit 1\npush 1\nunless 10\nunit 2\nunit 2\njump 10\nunit 2\njump 1\njump 1\nend\n",
    );
    // an inner loop has its own end
    let inner = Kind::While(int(2), body(&rt, alloc, Kind::Break));
    let outer = Kind::While(int(1), body(&rt, alloc, inner));
    is_code(
        &rt,
        alloc,
        [statement(outer)],
        "unit 2\nunit 1\npush 1\nunless 12\nunit 2\nunit 1\npush 2\nunless 11\nunit 2\njump 11\njump 5\njump 1\nend\n",
    );
    let first = items(&rt, alloc, [assign(&rt, alloc, "i", int(0))]);
    let last = items(
        &rt,
        alloc,
        [expr(Node::Step(Step::IncrementAfter, place(&rt, alloc, "i")))],
    );
    let test = Some(boxed(&rt, alloc, var(&rt, alloc, "i")));
    let counting = Kind::For(first, test, last, body(&rt, alloc, Kind::Continue));
    is_code(
        &rt,
        alloc,
        [statement(counting)],
        "unit 2\nunit 1\nunit 1\npush 0\nassign 0 1\njump 9\nunit 1\ncount 0 IncrementAfter 1\npop\nunit 1\nload 0\nunless 15\nunit 2\njump 6\njump 6\nend\n",
    );
    // without a test, the next turn begins with the body
    let endless = Kind::For(
        Items::new(alloc),
        None,
        Items::new(alloc),
        body(&rt, alloc, Kind::Break),
    );
    is_code(
        &rt,
        alloc,
        [statement(endless)],
        "unit 2\njump 2\nunit 2\njump 5\njump 2\nend\n",
    );
}

#[test]
fn a_return_ends_the_function(rt: HostRuntime) {
    let alloc = rt.alloc();
    let with_value = Kind::Return(Some(boxed(&rt, alloc, int(4))));
    is_code(
        &rt,
        alloc,
        [statement(Kind::Return(None)), statement(with_value)],
        "unit 2\npush null\nend\nunit 2\nunit 1\npush 4\nend\nend\n",
    );
    is_code(&rt, alloc, [], "end\n");
}

#[test]
fn nesting_of_200_is_compiled(rt: HostRuntime) {
    let alloc = rt.alloc();
    let mut e = int(1);
    for _ in 0..199 {
        e = expr(Node::Group(boxed(&rt, alloc, e)));
    }
    let statements = [statement(Kind::Expr(e))];
    let function = start_of(alloc, &statements).expect(&rt, "memory");
    // the statement's unit and those of 200 nodes, the value, its drop and the end
    assert_eq!(rt; function.ops().len(), 204);
}

// ---- what keeps a program from being compiled

/// The first problem of these statements.
fn problem<const N: usize>(
    rt: &impl Abort,
    alloc: Global,
    statements: [Statement; N],
) -> Option<Problem> {
    let statements = Vec::from_array(alloc, statements).expect(rt, "statements");
    first_in(&[], statements.as_slice())
}

fn found(token: u32, kind: CompileKind) -> Option<Problem> {
    Some(Problem {
        token,
        kind,
        line: token.saturating_add(1),
    })
}

fn expr_at(token: u32, node: Node) -> Expr {
    Expr {
        line: token.saturating_add(1),
        token,
        node,
    }
}

fn statement_at(token: u32, kind: Kind) -> Statement {
    Statement {
        line: token.saturating_add(1),
        token,
        kind,
    }
}

fn variable(rt: &impl Abort, alloc: Global, number: u32) -> String {
    format!(in alloc; "v{number}").expect(rt, "a name")
}

/// The slots that a program's ops read or write, in order.
fn slots_used(rt: &impl Abort, alloc: Global, ops: &[Op]) -> Vec<u32> {
    let mut slots = Vec::new(alloc);
    for op in ops {
        if let Op::Assign { slot, .. } | Op::Load(slot) = op {
            slots.push(*slot).expect(rt, "memory");
        }
    }
    slots
}

/// The variables are written in one order and read in the other.
#[test]
fn each_of_many_variables_keeps_a_slot_of_its_own(rt: HostRuntime) {
    let alloc = rt.alloc();
    let count = 20_000;
    let mut statements = Vec::new(alloc);
    let mut expected = Vec::new(alloc);
    for number in 0..count {
        let name = variable(&rt, alloc, number);
        let written = assign(&rt, alloc, name.as_str(), int(7));
        statements
            .push(statement(Kind::Expr(written)))
            .expect(&rt, "memory");
        expected.push(number).expect(&rt, "memory");
    }
    for number in (0..count).rev() {
        let name = variable(&rt, alloc, number);
        let read = print(&rt, alloc, var(&rt, alloc, name.as_str()));
        statements.push(statement(read)).expect(&rt, "memory");
        expected.push(number).expect(&rt, "memory");
    }
    let function = start_of(alloc, statements.as_slice()).expect(&rt, "memory");
    assert_eq!(rt; function.slots(), count);
    let used = slots_used(&rt, alloc, function.ops());
    assert!(rt; used.as_slice() == expected.as_slice());
}

#[test]
fn what_is_not_built_is_found(rt: HostRuntime) {
    let alloc = rt.alloc();
    let not_built = CompileKind::NotBuilt;
    assert_eq!(rt; problem(&rt, alloc, [statement(Kind::Expr(int(1)))]), None);
    assert_eq!(rt;
        problem(&rt, alloc, [statement_at(3, Kind::Empty)]),
        found(3, not_built)
    );
    let list = expr_at(5, Node::List(Items::new(alloc)));
    assert_eq!(rt;
        problem(&rt, alloc, [statement_at(4, Kind::Expr(list))]),
        found(5, not_built)
    );
    let lambda = expr_at(7, Node::Lambda(1));
    let within = expr_at(6, Node::Not(boxed(&rt, alloc, lambda)));
    assert_eq!(rt;
        problem(&rt, alloc, [statement_at(4, Kind::Expr(within))]),
        found(7, not_built)
    );
    let steps = items(&rt, alloc, [Access::Index(int(0))]);
    let path = expr_at(2, Node::Var(text(&rt, alloc, "a"), steps));
    assert_eq!(rt;
        problem(&rt, alloc, [statement_at(1, print(&rt, alloc, path))]),
        found(2, not_built)
    );
    // on the right of `+=`, and `+=` on an item
    let lambda = expr_at(4, Node::Lambda(1));
    let sum = expr_at(2, change(&rt, alloc, "x", Change::By(Binary::Add), lambda));
    assert_eq!(rt;
        problem(&rt, alloc, [statement_at(2, Kind::Expr(sum))]),
        found(4, not_built)
    );
    let item = Place {
        name: text(&rt, alloc, "a"),
        steps: items(&rt, alloc, [Access::Index(int(0))]),
    };
    let sum = Node::Change(item, Change::Join, boxed(&rt, alloc, int(1)));
    assert_eq!(rt;
        problem(&rt, alloc, [statement_at(6, Kind::Expr(expr_at(6, sum)))]),
        found(6, not_built)
    );
}

#[test]
fn a_break_in_no_loop_is_found(rt: HostRuntime) {
    let alloc = rt.alloc();
    let outside = CompileKind::BreakOutside;
    assert_eq!(rt;
        problem(&rt, alloc, [statement_at(0, Kind::Break)]),
        found(0, outside)
    );
    let block = Kind::Block(items(&rt, alloc, [statement_at(9, Kind::Continue)]));
    assert_eq!(rt;
        problem(&rt, alloc, [statement_at(8, block)]),
        found(9, outside)
    );
    let looped = Kind::While(int(1), body(&rt, alloc, Kind::Break));
    assert_eq!(rt; problem(&rt, alloc, [statement_at(8, looped)]), None);
}

/// A definition of a function without statements.
fn definition(rt: &impl Abort, alloc: Global, token: u32) -> Named {
    Named {
        line: token.saturating_add(1),
        token,
        name: text(rt, alloc, "f"),
        function: Definition {
            params: Items::new(alloc),
            body: statement(Kind::Block(Items::new(alloc))),
        },
    }
}

#[test]
fn a_definition_is_not_built(rt: HostRuntime) {
    let alloc = rt.alloc();
    let definitions = [definition(&rt, alloc, 6), definition(&rt, alloc, 9)];
    let not_built = CompileKind::NotBuilt;
    assert_eq!(rt; first_in(&definitions, &[]), found(6, not_built));
    // before a `break` in no loop, and behind it
    let behind = [statement_at(20, Kind::Break)];
    assert_eq!(rt; first_in(&definitions, &behind), found(6, not_built));
    let before = [statement_at(0, Kind::Break)];
    assert_eq!(rt;
        first_in(&definitions, &before),
        found(0, CompileKind::BreakOutside)
    );
}

#[test]
fn the_first_problem_in_order_of_text_counts(rt: HostRuntime) {
    let alloc = rt.alloc();
    let outside = CompileKind::BreakOutside;
    let not_built = CompileKind::NotBuilt;
    let list = Kind::Expr(expr_at(5, Node::List(Items::new(alloc))));
    assert_eq!(rt;
        problem(
            &rt,
            alloc,
            [statement_at(2, Kind::Break), statement_at(4, list)]
        ),
        found(2, outside)
    );
    let list = Kind::Expr(expr_at(1, Node::List(Items::new(alloc))));
    assert_eq!(rt;
        problem(
            &rt,
            alloc,
            [statement_at(0, list), statement_at(4, Kind::Break)]
        ),
        found(1, not_built)
    );
    // in a condition, before the break that its branch is
    let test = expr_at(3, Node::List(Items::new(alloc)));
    let guarded = Branch {
        test,
        body: statement_at(6, Kind::Break),
    };
    let choice = Kind::If(items(&rt, alloc, [guarded]), None);
    assert_eq!(rt;
        problem(&rt, alloc, [statement_at(1, choice)]),
        found(3, not_built)
    );
}

// ---- whole programs

/// A program of these statements, which are nested no deeper than a program may be.
fn program(alloc: Global, statements: Vec<Statement>) -> Program
    requires { StatementsFit [] most_nesting statements.items }
{
    Program {
        functions: Items::new(alloc),
        lambdas: Items::new(alloc),
        statements: Items::from_vec(statements),
    }
}

fn refused(kind: CompileKind, line: u32) -> Option<CompileFault> {
    Some(CompileFault::Bad { kind, line })
}

#[test]
fn a_program_becomes_one_function(rt: HostRuntime) {
    let alloc = rt.alloc();
    // 1;
    let literal = Expr {
        line: 1,
        token: 0,
        node: Node::Literal(Literal::Int(1)),
    };
    let only = Statement {
        line: 1,
        token: 0,
        kind: Kind::Expr(literal),
    };
    let statements = Vec::from_array(alloc, [only]).expect(&rt, "statements");
    let code = compile(alloc, &program(alloc, statements)).expect(&rt, "code");
    assert_eq!(rt; code.functions().len(), 1);
    for function in code.functions() {
        has_ops(&rt, alloc, function, "unit 1\nunit 1\npush 1\npop\nend\n");
    }
}

#[test]
fn the_first_problem_of_a_program_is_named(rt: HostRuntime) {
    let alloc = rt.alloc();
    // break;
    let leaving = Statement {
        line: 1,
        token: 0,
        kind: Kind::Break,
    };
    let statements = Vec::from_array(alloc, [leaving]).expect(&rt, "statements");
    assert_eq!(rt;
        compile(alloc, &program(alloc, statements)).err(),
        refused(CompileKind::BreakOutside, 1)
    );
    // print $a[0];
    let index = Expr {
        line: 1,
        token: 3,
        node: Node::Literal(Literal::Int(0)),
    };
    let steps = Vec::from_array(alloc, [Access::Index(index)]).expect(&rt, "steps");
    let item = Expr {
        line: 1,
        token: 1,
        node: Node::Var(text(&rt, alloc, "a"), Items::from_vec(steps)),
    };
    let values = Vec::from_array(alloc, [item]).expect(&rt, "values");
    let printing = Statement {
        line: 1,
        token: 0,
        kind: Kind::Print(Items::from_vec(values)),
    };
    let statements = Vec::from_array(alloc, [printing]).expect(&rt, "statements");
    assert_eq!(rt;
        compile(alloc, &program(alloc, statements)).err(),
        refused(CompileKind::NotBuilt, 1)
    );
    // an empty statement, and on the next line a `break`
    let empty = Statement {
        line: 1,
        token: 0,
        kind: Kind::Empty,
    };
    let leaving = Statement {
        line: 2,
        token: 1,
        kind: Kind::Break,
    };
    let statements = Vec::from_array(alloc, [empty, leaving]).expect(&rt, "statements");
    assert_eq!(rt;
        compile(alloc, &program(alloc, statements)).err(),
        refused(CompileKind::NotBuilt, 1)
    );
    // the other way round
    let leaving = Statement {
        line: 1,
        token: 0,
        kind: Kind::Break,
    };
    let empty = Statement {
        line: 2,
        token: 2,
        kind: Kind::Empty,
    };
    let statements = Vec::from_array(alloc, [leaving, empty]).expect(&rt, "statements");
    assert_eq!(rt;
        compile(alloc, &program(alloc, statements)).err(),
        refused(CompileKind::BreakOutside, 1)
    );
}

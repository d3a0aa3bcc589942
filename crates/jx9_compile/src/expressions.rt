//! From expressions to ops.

ghost use Rattle.std.specs.Prelude.{◌≡◌, OnOk, IfOk};
ghost use Rattle.jx9_meaning.specs.Expression.{literal_value};
ghost use Rattle.jx9_compile.specs.Emits.{AreEffects, AreHeld, AreLinks, AreParts, ArePrints, AreValues, Emits, IsBehind, IsChange, IsDecided, IsEffect, IsExpr, IsMove, IsOp};
ghost use Rattle.jx9_compile.specs.Emitted.{operator_op as spec_operator_op};
ghost use Rattle.jx9_compile.specs.declared.op.Op.TheVariants.{Join as spec_join};
ghost use Rattle.jx9_syntax.specs.declared.expression.Node as node;

use crate::emitting::{Emitter, copy_text, number_of};
use crate::op::Op;
use jx9_syntax::{Access, Binary, Change, Expr, Link, Literal, Node, Part, Place, Step};
use std::alloc::Global;
use uq_value::{NoMemory, Text, Value};

impl Emitter {
    /// The value of an expression, put on the stack. Of a node that is not built nothing is emitted: no program with one
    /// comes here.
    #[cycle(expr)]
    pub(crate) fn expr(&mut self, alloc: Global, e: &Expr) -> Result<(), NoMemory>
        ensures { OnOk result (Emits self.old self.new (IsExpr e.now)) }
    {
        self.put(Op::Unit { line: e.line })?;
        match &e.node {
            Node::Literal(literal) => {
                self.literal(alloc, e.line, literal)?;
                Ok(())
            }
            Node::Mixed(parts) => {
                self.mixed(alloc, e.line, parts.as_slice())?;
                Ok(())
            }
            Node::Var(name, steps) => {
                self.variable(alloc, e.line, name, steps.as_slice())?;
                Ok(())
            }
            Node::Group(inner) => {
                self.expr(alloc, inner.get())?;
                Ok(())
            }
            Node::Negate(inner) => {
                self.put(Op::Push(Value::Int(0)))?;
                self.expr(alloc, inner.get())?;
                self.put(Op::Operate {
                    operator: Binary::Subtract,
                    line: e.line,
                })?;
                Ok(())
            }
            Node::Not(inner) => {
                self.expr(alloc, inner.get())?;
                self.put(Op::Not)?;
                Ok(())
            }
            Node::Step(step, place) => {
                self.step(alloc, e.line, *step, place)?;
                Ok(())
            }
            Node::Or(first, more) => {
                self.expr(alloc, first.get())?;
                let head = self.hold()?;
                let held = self.operands(alloc, more.as_slice())?;
                self.decide(true, head, held.as_slice())?;
                Ok(())
            }
            Node::And(first, more) => {
                self.expr(alloc, first.get())?;
                let head = self.hold()?;
                let held = self.operands(alloc, more.as_slice())?;
                self.decide(false, head, held.as_slice())?;
                Ok(())
            }
            Node::Join(operands) => {
                self.values(alloc, operands.as_slice())?;
                self.join(operands.as_slice().len(), e.line)?;
                Ok(())
            }
            Node::Chain(first, links) => {
                self.expr(alloc, first.get())?;
                self.links(alloc, e.line, links.as_slice())?;
                Ok(())
            }
            Node::Cond(test, first, second) => {
                self.expr(alloc, test.get())?;
                let branch = self.hold()?;
                self.expr(alloc, first.get())?;
                let over = self.otherwise(branch)?;
                self.expr(alloc, second.get())?;
                self.land(over, None)?;
                Ok(())
            }
            Node::Assign(place, right) => {
                self.expr(alloc, right.get())?;
                self.put(Op::Copy)?;
                self.assign(alloc, e.line, place)?;
                Ok(())
            }
            Node::Change(place, how, right) => {
                self.expr(alloc, right.get())?;
                self.change(alloc, e.line, *how, place)?;
                Ok(())
            }
            _ => Ok(()),
        }
    }

    /// The value of each, put on the stack.
    #[cycle(expr)]
    fn values(&mut self, alloc: Global, values: &[Expr]) -> Result<(), NoMemory>
        ensures { OnOk result (Emits self.old self.new (AreValues values.now)) }
    {
        for value in values {
            self.expr(alloc, value)?;
        }
        Ok(())
    }

    /// The operators of a chain, each behind its right operand.
    #[cycle(expr)]
    fn links(&mut self, alloc: Global, line: u32, links: &[Link]) -> Result<(), NoMemory>
        ensures { OnOk result (Emits self.old self.new (AreLinks line links.now)) }
    {
        for link in links {
            self.expr(alloc, &link.operand)?;
            self.put(operator_op(link.op, line))?;
        }
        Ok(())
    }

    /// The operands of a chain of `||` or `&&`, each with a place held behind it. Gives these places.
    #[cycle(expr)]
    fn operands(&mut self, alloc: Global, operands: &[Expr]) -> Result<Vec<u32>, NoMemory>
        ensures { IfOk result (λ held. Emits self.old self.new (AreHeld IsExpr operands.now held.items)) }
    {
        let mut held = Vec::new(alloc);
        for operand in operands {
            self.expr(alloc, operand)?;
            held.push(self.hold()?)?;
        }
        Ok(held)
    }

    /// What the held places lead to where an operand decides, and what comes behind the last operand where none does.
    fn decide(&mut self, decides: bool, head: u32, held: &[u32]) -> Result<(), NoMemory>
        ensures { OnOk result (IsDecided decides head held.now self.old self.new) }
    {
        self.put(Op::Push(Value::Bool(!decides)))?;
        let over = self.hold()?;
        let end = self.here()?;
        self.put(Op::Push(Value::Bool(decides)))?;
        self.fill(head, Some(decides), end);
        self.fill_all(held, Some(decides), end);
        self.land(over, None)?;
        Ok(())
    }

    fn literal(&mut self, alloc: Global, line: u32, literal: &Literal) -> Result<(), NoMemory>
        ensures { OnOk result (Emits self.old self.new (IsBehind line (node.Literal literal.now))) }
    {
        let value = value_of(alloc, literal)?;
        self.put(Op::Push(value))?;
        Ok(())
    }

    /// A text that names variables.
    fn mixed(&mut self, alloc: Global, line: u32, parts: &[Part]) -> Result<(), NoMemory>
        ensures { OnOk result (Emits self.old self.new (IsBehind line (node.Mixed parts.now))) }
    {
        self.parts(alloc, parts)?;
        self.join(parts.len(), line)?;
        Ok(())
    }

    /// The parts of a text, each put on the stack.
    fn parts(&mut self, alloc: Global, parts: &[Part]) -> Result<(), NoMemory>
        ensures { OnOk result (Emits self.old self.new (AreParts parts.now)) }
    {
        for part in parts {
            match part {
                Part::Text(text) => {
                    let text = copy_text(alloc, text)?;
                    self.put(Op::Push(Value::Text(text)))?;
                }
                Part::Var(name) => {
                    let slot = self.slot(alloc, name)?;
                    self.put(Op::Load(slot))?;
                }
            }
        }
        Ok(())
    }

    /// A variable without steps.
    fn variable(
        &mut self,
        alloc: Global,
        line: u32,
        name: &Text,
        steps: &[Access],
    ) -> Result<(), NoMemory>
        ensures { OnOk result (Emits self.old self.new (IsBehind line (node.Var name.now steps.now))) }
    {
        if !steps.is_empty() {
            return Ok(());
        }
        let slot = self.slot(alloc, name)?;
        self.put(Op::Load(slot))?;
        Ok(())
    }

    /// `++` or `--` on a variable.
    fn step(&mut self, alloc: Global, line: u32, step: Step, place: &Place) -> Result<(), NoMemory>
        ensures { OnOk result (Emits self.old self.new (IsBehind line (node.Step step place.now))) }
    {
        let slot = self.slot(alloc, &place.name)?;
        self.put(Op::Count { slot, step, line })?;
        Ok(())
    }

    /// So many upper values, joined.
    fn join(&mut self, count: usize, line: u32) -> Result<(), NoMemory>
        ensures { OnOk result (Emits self.old self.new (IsOp (spec_join count line))) }
    {
        let count = number_of(count)?;
        self.put(Op::Join { count, line })?;
        Ok(())
    }

    /// The top, moved into a variable.
    fn assign(&mut self, alloc: Global, line: u32, place: &Place) -> Result<(), NoMemory>
        ensures { OnOk result (Emits self.old self.new (IsMove line place.now.name)) }
    {
        let slot = self.slot(alloc, &place.name)?;
        self.put(Op::Assign { slot, line })?;
        Ok(())
    }

    /// `op=` on a variable, whose right side is the top.
    fn change(
        &mut self,
        alloc: Global,
        line: u32,
        how: Change,
        place: &Place,
    ) -> Result<(), NoMemory>
        ensures { OnOk result (Emits self.old self.new (IsChange how line place.now.name)) }
    {
        let slot = self.slot(alloc, &place.name)?;
        self.put(Op::Change { slot, how, line })?;
        Ok(())
    }

    /// What an expression does, with no value left: an assignment to a variable moves its value.
    pub(crate) fn effect(&mut self, alloc: Global, e: &Expr) -> Result<(), NoMemory>
        ensures { OnOk result (Emits self.old self.new (IsEffect e.now)) }
    {
        match &e.node {
            Node::Assign(place, right) => {
                self.put(Op::Unit { line: e.line })?;
                self.expr(alloc, right.get())?;
                self.assign(alloc, e.line, place)?;
                Ok(())
            }
            _ => {
                self.expr(alloc, e)?;
                self.put(Op::Pop)?;
                Ok(())
            }
        }
    }

    /// The same of each.
    pub(crate) fn effects(&mut self, alloc: Global, expressions: &[Expr]) -> Result<(), NoMemory>
        ensures { OnOk result (Emits self.old self.new (AreEffects expressions.now)) }
    {
        for e in expressions {
            self.effect(alloc, e)?;
        }
        Ok(())
    }

    /// The value of each, put out.
    pub(crate) fn prints(&mut self, alloc: Global, values: &[Expr]) -> Result<(), NoMemory>
        ensures { OnOk result (Emits self.old self.new (ArePrints values.now)) }
    {
        for value in values {
            self.expr(alloc, value)?;
            self.put(Op::Print)?;
        }
        Ok(())
    }
}

/// The op of an operator: a sum has one of its own.
fn operator_op(operator: Binary, line: u32) -> Op
    ensures { result ≡ spec_operator_op operator line }
{
    match operator {
        Binary::Add => Op::Add { line },
        _ => Op::Operate { operator, line },
    }
}

fn value_of(alloc: Global, literal: &Literal) -> Result<Value, NoMemory>
    ensures { IfOk result (λ v. v ≡ literal_value literal.now) }
{
    match literal {
        Literal::Null => Ok(Value::Null),
        Literal::Bool(b) => Ok(Value::Bool(*b)),
        Literal::Int(n) => Ok(Value::Int(*n)),
        Literal::Text(text) => Ok(Value::Text(copy_text(alloc, text)?)),
    }
}

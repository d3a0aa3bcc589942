//! From statements to ops.

ghost use Rattle.std.specs.Prelude.{◌<◌, IfOk, OnOk};
ghost use Rattle.jx9_compile.specs.Emits.{AreAllLanded, AreHeld, Emits, IsBranch, IsGoingOn, IsLeaving, IsOpening, IsSequence, IsStatement, IsTurn};
ghost use Rattle.jx9_compile.specs.Holes.{hole};

use crate::emitting::Emitter;
use crate::op::Op;
use jx9_syntax::{Branch, Expr, Kind, Statement};
use std::alloc::Global;
use uq_value::{NoMemory, Value};

impl Emitter {
    /// What a statement does. `around` is the place where the next turn of the loop around it begins, None where it stands
    /// in no loop. Of a statement that is not built nothing is emitted, nor of a `break` or `continue` in no loop: no
    /// program with one comes here.
    #[cycle(statement)]
    pub(crate) fn statement(
        &mut self,
        alloc: Global,
        around: Option<u32>,
        t: &Statement,
    ) -> Result<(), NoMemory>
        ensures { OnOk result (Emits self.old self.new (IsStatement around t.now)) }
    {
        self.put(Op::Unit { line: t.line })?;
        match &t.kind {
            Kind::Block(statements) => {
                self.statements(alloc, around, statements.as_slice())?;
                Ok(())
            }
            Kind::Print(values) => {
                self.prints(alloc, values.as_slice())?;
                Ok(())
            }
            Kind::Expr(e) => {
                self.effect(alloc, e)?;
                Ok(())
            }
            Kind::If(branches, other) => {
                let overs = self.branches(alloc, around, branches.as_slice())?;
                match other {
                    None => {
                        self.land_all(overs.as_slice())?;
                        Ok(())
                    }
                    Some(other) => {
                        self.statement(alloc, around, other.get())?;
                        self.land_all(overs.as_slice())?;
                        Ok(())
                    }
                }
            }
            Kind::While(test, body) => {
                let again = self.here()?;
                self.expr(alloc, test)?;
                let branch = self.hold()?;
                self.turn(alloc, again, body.get())?;
                self.land(branch, Some(false))?;
                Ok(())
            }
            Kind::For(first, test, last, body) => {
                let again = self.opening(alloc, first.as_slice(), last.as_slice())?;
                match test {
                    None => {
                        self.turn(alloc, again, body.get())?;
                        Ok(())
                    }
                    Some(test) => {
                        self.expr(alloc, test.get())?;
                        let branch = self.hold()?;
                        self.turn(alloc, again, body.get())?;
                        self.land(branch, Some(false))?;
                        Ok(())
                    }
                }
            }
            Kind::Return(value) => match value {
                None => {
                    self.put(Op::Push(Value::Null))?;
                    self.put(Op::End)?;
                    Ok(())
                }
                Some(value) => {
                    self.expr(alloc, value.get())?;
                    self.put(Op::End)?;
                    Ok(())
                }
            },
            Kind::Break => {
                self.leave(around)?;
                Ok(())
            }
            Kind::Continue => {
                self.go_on(around)?;
                Ok(())
            }
            _ => Ok(()),
        }
    }

    /// What the statements do, in order.
    #[cycle(statement)]
    pub(crate) fn statements(
        &mut self,
        alloc: Global,
        around: Option<u32>,
        statements: &[Statement],
    ) -> Result<(), NoMemory>
        ensures { OnOk result (Emits self.old self.new (IsSequence around statements.now)) }
    {
        for statement in statements {
            self.statement(alloc, around, statement)?;
        }
        Ok(())
    }

    /// The branches of an `if`, each with a place held behind it. Gives these places.
    #[cycle(statement)]
    fn branches(
        &mut self,
        alloc: Global,
        around: Option<u32>,
        branches: &[Branch],
    ) -> Result<Vec<u32>, NoMemory>
        ensures { IfOk result (λ overs. Emits self.old self.new (AreHeld (IsBranch around) branches.now overs.items)) }
    {
        let mut overs = Vec::new(alloc);
        for branch in branches {
            self.expr(alloc, &branch.test)?;
            let skip = self.hold()?;
            self.statement(alloc, around, &branch.body)?;
            overs.push(self.otherwise(skip)?)?;
        }
        Ok(overs)
    }

    /// The body of a loop and the jump back. The next turn begins at `again`, and what leaves the loop comes here then.
    #[cycle(statement)]
    fn turn(&mut self, alloc: Global, again: u32, body: &Statement) -> Result<(), NoMemory>
        requires { again < hole }
        ensures { OnOk result (Emits self.old self.new (IsTurn again body.now)) }
    {
        let start = self.ops.len();
        self.statement(alloc, Some(again), body)?;
        self.put(Op::Jump(again))?;
        let after = self.here()?;
        self.fill_holes(start, after);
        Ok(())
    }

    /// The first part of a `for`, and the last part behind it, over which the first turn jumps. Gives the place of the last
    /// part, where each further turn begins.
    fn opening(&mut self, alloc: Global, first: &[Expr], last: &[Expr]) -> Result<u32, NoMemory>
        ensures added { IfOk result (λ again. Emits self.old self.new (IsOpening first.now last.now again)) }
        ensures known { IfOk result (λ again. again < hole) }
    {
        self.effects(alloc, first)?;
        let skip = self.hold()?;
        let again = self.here()?;
        self.effects(alloc, last)?;
        self.land(skip, None)?;
        Ok(again)
    }

    /// `break`: a jump out of the loop, whose target is filled in behind the loop.
    fn leave(&mut self, around: Option<u32>) -> Result<(), NoMemory>
        ensures { OnOk result (Emits self.old self.new (IsLeaving around)) }
    {
        if around.is_some() {
            self.hold()?;
        }
        Ok(())
    }

    /// `continue`: a jump to the loop's next turn.
    fn go_on(&mut self, around: Option<u32>) -> Result<(), NoMemory>
        ensures { OnOk result (Emits self.old self.new (IsGoingOn around)) }
    {
        if let Some(again) = around {
            self.put(Op::Jump(again))?;
        }
        Ok(())
    }

    /// Jumps at these places to what comes next.
    fn land_all(&mut self, places: &[u32]) -> Result<(), NoMemory>
        ensures { OnOk result (AreAllLanded places.now self.old self.new) }
    {
        let to = self.here()?;
        self.fill_all(places, None, to);
        Ok(())
    }
}

//! Unary expressions.

ghost use Rattle.jx9_parse.specs.Answers.{Gives, state, it};
ghost use Rattle.jx9_parse.specs.Deeper.{IsDeeper};
ghost use Rattle.jx9_parse.specs.Spots.{with_spot};
ghost use Rattle.jx9_parse.specs.Levels as levels;

use crate::construct::{Construct, Tree};
use crate::parser::Parser;
use crate::spot::Spot;
use crate::stop::Stop;
use crate::tree::{PlaceAt, expr_at, variable_of, with_steps};
use crate::within::has_room;
use jx9_syntax::{Expr, Node, Place, Sign, Step};
use sqlite_items::Boxed;
use uq_value::Text;

impl<'a> Parser<'a> {
    /// `++`, `--` or nothing behind a place.
    pub(crate) fn may_step(&mut self, place: PlaceAt) -> Result<Expr, Stop>
        ensures { Gives it result self.new (levels.may_step 0 (with_spot place) (state self.old)) }
    {
        if self.next_is_step_sign() {
            let (step, _) = self.step_sign(Step::IncrementAfter, Step::DecrementAfter)?;
            let (place, spot) = place;
            return Ok(expr_at(spot, Node::Step(step, place)));
        }
        Ok(variable_of(place))
    }

    /// Behind a variable: the arguments of a call of the function that it names, then steps.
    pub(crate) fn called<D: Fn(&mut Parser, Construct) -> Result<Tree, Stop>>(
        &mut self,
        within: u32,
        deeper: &D,
        name: Text,
        spot: Spot,
    ) -> Result<Expr, Stop>
        requires { IsDeeper (D.pre deeper.now) (D.post deeper.now) within }
        ensures { Gives it result self.new (levels.called within (with_spot (name, spot)) (state self.old)) }
    {
        let found = self.arguments(within, deeper)?;
        let steps = self.steps(within, deeper)?;
        let call = expr_at(spot, Node::VarCall(name, found));
        with_steps(self.alloc, call, steps)
    }

    /// A unary expression that begins with a variable.
    fn at_variable<D: Fn(&mut Parser, Construct) -> Result<Tree, Stop>>(
        &mut self,
        within: u32,
        deeper: &D,
    ) -> Result<Expr, Stop>
        requires { IsDeeper (D.pre deeper.now) (D.post deeper.now) within }
        ensures { Gives it result self.new (levels.at_variable within (state self.old)) }
    {
        let (name, spot) = self.variable()?;
        if self.next_is_sign(Sign::OpenParen) {
            return self.called(within, deeper, name, spot);
        }
        let steps = self.steps(within, deeper)?;
        self.may_step((Place { name, steps }, spot))
    }

    /// `-e`
    fn negated<D: Fn(&mut Parser, Construct) -> Result<Tree, Stop>>(
        &mut self,
        within: u32,
        deeper: &D,
    ) -> Result<Expr, Stop>
        requires { IsDeeper (D.pre deeper.now) (D.post deeper.now) within }
        ensures { Gives it result self.new (levels.negated within (state self.old)) }
    {
        if !has_room(within) {
            return Err(Stop::Dead);
        }
        let spot = self.sign(Sign::Minus)?;
        let inner = self.unary_within(within, deeper)?;
        let inner = Boxed::new(self.alloc, inner)?;
        Ok(expr_at(spot, Node::Negate(inner)))
    }

    /// `!e`
    fn not_of<D: Fn(&mut Parser, Construct) -> Result<Tree, Stop>>(
        &mut self,
        within: u32,
        deeper: &D,
    ) -> Result<Expr, Stop>
        requires { IsDeeper (D.pre deeper.now) (D.post deeper.now) within }
        ensures { Gives it result self.new (levels.not_of within (state self.old)) }
    {
        if !has_room(within) {
            return Err(Stop::Dead);
        }
        let spot = self.sign(Sign::Not)?;
        let inner = self.unary_within(within, deeper)?;
        let inner = Boxed::new(self.alloc, inner)?;
        Ok(expr_at(spot, Node::Not(inner)))
    }

    /// `++` or `--` before its place.
    fn step_before<D: Fn(&mut Parser, Construct) -> Result<Tree, Stop>>(
        &mut self,
        within: u32,
        deeper: &D,
    ) -> Result<Expr, Stop>
        requires { IsDeeper (D.pre deeper.now) (D.post deeper.now) within }
        ensures { Gives it result self.new (levels.step_before within (state self.old)) }
    {
        let (step, spot) = self.step_sign(Step::IncrementFirst, Step::DecrementFirst)?;
        let (place, _) = self.place(within, deeper)?;
        Ok(expr_at(spot, Node::Step(step, place)))
    }

    /// A primary that is no variable, with its steps.
    fn path<D: Fn(&mut Parser, Construct) -> Result<Tree, Stop>>(
        &mut self,
        within: u32,
        deeper: &D,
    ) -> Result<Expr, Stop>
        requires { IsDeeper (D.pre deeper.now) (D.post deeper.now) within }
        ensures { Gives it result self.new (levels.path within (state self.old)) }
    {
        let first = self.primary(within, deeper)?;
        let (first, steps) = self.steps_behind(within, deeper, first)?;
        with_steps(self.alloc, first, steps)
    }

    /// A unary expression that begins with no variable.
    pub(crate) fn no_variable<D: Fn(&mut Parser, Construct) -> Result<Tree, Stop>>(
        &mut self,
        within: u32,
        deeper: &D,
    ) -> Result<Expr, Stop>
        requires { IsDeeper (D.pre deeper.now) (D.post deeper.now) within }
        ensures { Gives it result self.new (levels.no_variable within (state self.old)) }
    {
        if self.next_is_sign(Sign::Minus) {
            return self.negated(within, deeper);
        }
        if self.next_is_sign(Sign::Not) {
            return self.not_of(within, deeper);
        }
        if self.next_is_step_sign() {
            return self.step_before(within, deeper);
        }
        self.path(within, deeper)
    }

    /// A unary expression whose room within is given.
    #[tactic(auto, unfolding(crate::specs::Expressions::unary))]
    pub(crate) fn unary<D: Fn(&mut Parser, Construct) -> Result<Tree, Stop>>(
        &mut self,
        within: u32,
        deeper: &D,
    ) -> Result<Expr, Stop>
        requires { IsDeeper (D.pre deeper.now) (D.post deeper.now) within }
        ensures { Gives it result self.new (levels.unary within (state self.old)) }
    {
        if self.next_is_variable() {
            self.at_variable(within, deeper)
        } else {
            self.no_variable(within, deeper)
        }
    }
}

//! Expressions.

ghost use Rattle.std.specs.Prelude.{[]};
ghost use Rattle.jx9_syntax.specs.Grammar.{place_of};
ghost use Rattle.jx9_parse.specs.Answers.{Gives, state, it};
ghost use Rattle.jx9_parse.specs.Deeper.{IsDeeper};
ghost use Rattle.jx9_parse.specs.Spots.{with_spot};
ghost use Rattle.jx9_parse.specs.Levels as levels;

use crate::chain::OpenChains;
use crate::construct::{Construct, Tree};
use crate::parser::Parser;
use crate::spot::Spot;
use crate::stop::Stop;
use crate::tree::{PlaceAt, expr_at, expr_like};
use crate::within::has_room;
use jx9_syntax::{Access, Expr, Node, Place, Sign};
use sqlite_items::{Boxed, Items};
use uq_value::Text;

/// The highest level of operators.
const MOST_LEVEL: u8 = 7;

impl<'a> Parser<'a> {
    /// What stands behind a first operand: the operators of all levels, with their operands. An operand is one of the lowest
    /// level first, and where no operator of the level above stands behind it one of that level.
    fn chain<D: Fn(&mut Parser, Construct) -> Result<Tree, Stop>>(
        &mut self,
        within: u32,
        deeper: &D,
        first: Expr,
    ) -> Result<Expr, Stop>
        requires { IsDeeper (D.pre deeper.now) (D.post deeper.now) within }
        ensures { Gives it result self.new (levels.chain within first (state self.old)) }
    {
        let mut open = OpenChains::new(self.alloc);
        let mut operand = first;
        let mut level = 0;
        while level < MOST_LEVEL {
            level += 1;
            if !self.next_is_operator(level) {
                operand = open.close(self.alloc, level, operand)?;
                continue;
            }
            let operator = self.operator(level)?;
            open.go_on(self.alloc, level, operand, operator)?;
            operand = self.unary(within, deeper)?;
            level = 0;
        }
        Ok(operand)
    }

    /// Behind a chain: the branches of a condition, or nothing.
    fn may_choose<D: Fn(&mut Parser, Construct) -> Result<Tree, Stop>>(
        &mut self,
        within: u32,
        deeper: &D,
        test: Expr,
    ) -> Result<Expr, Stop>
        requires { IsDeeper (D.pre deeper.now) (D.post deeper.now) within }
        ensures { Gives it result self.new (levels.may_choose within test (state self.old)) }
    {
        if self.next_is_sign(Sign::Question) {
            self.chosen(within, deeper, test)
        } else {
            Ok(test)
        }
    }

    /// Behind a condition: `? e : e`
    fn chosen<D: Fn(&mut Parser, Construct) -> Result<Tree, Stop>>(
        &mut self,
        within: u32,
        deeper: &D,
        test: Expr,
    ) -> Result<Expr, Stop>
        requires { IsDeeper (D.pre deeper.now) (D.post deeper.now) within }
        ensures { Gives it result self.new (levels.chosen within test (state self.old)) }
    {
        let (line, token) = (test.line, test.token);
        let test = Boxed::new(self.alloc, test)?;
        if !has_room(within) {
            return Err(Stop::Dead);
        }
        self.sign(Sign::Question)?;
        let first = self.boxed_expr(within, deeper)?;
        self.sign(Sign::Colon)?;
        let second = self.boxed_expr(within, deeper)?;
        Ok(expr_like(line, token, Node::Cond(test, first, second)))
    }

    /// Behind the first operand of an expression that is no assignment.
    fn or_rest<D: Fn(&mut Parser, Construct) -> Result<Tree, Stop>>(
        &mut self,
        within: u32,
        deeper: &D,
        first: Expr,
    ) -> Result<Expr, Stop>
        requires { IsDeeper (D.pre deeper.now) (D.post deeper.now) within }
        ensures { Gives it result self.new (levels.or_rest within first (state self.old)) }
    {
        let chain = self.chain(within, deeper, first)?;
        self.may_choose(within, deeper, chain)
    }

    /// Behind a place: `= e`
    fn assigned<D: Fn(&mut Parser, Construct) -> Result<Tree, Stop>>(
        &mut self,
        within: u32,
        deeper: &D,
        place: PlaceAt,
    ) -> Result<Expr, Stop>
        requires { IsDeeper (D.pre deeper.now) (D.post deeper.now) within }
        ensures { Gives it result self.new (levels.assigned within (with_spot place) (state self.old)) }
    {
        if !has_room(within) {
            return Err(Stop::Dead);
        }
        self.sign(Sign::Assign)?;
        let value = self.boxed_expr(within, deeper)?;
        let (place, spot) = place;
        Ok(expr_at(spot, Node::Assign(place, value)))
    }

    /// Behind a place: an assignment that reads the place.
    fn changed<D: Fn(&mut Parser, Construct) -> Result<Tree, Stop>>(
        &mut self,
        within: u32,
        deeper: &D,
        place: PlaceAt,
    ) -> Result<Expr, Stop>
        requires { IsDeeper (D.pre deeper.now) (D.post deeper.now) within }
        ensures { Gives it result self.new (levels.changed within (with_spot place) (state self.old)) }
    {
        if !has_room(within) {
            return Err(Stop::Dead);
        }
        let change = self.change_sign()?;
        let value = self.boxed_expr(within, deeper)?;
        let (place, spot) = place;
        Ok(expr_at(spot, Node::Change(place, change, value)))
    }

    /// Behind a place: what is assigned, or the rest of an expression whose first operand it is.
    fn behind_place<D: Fn(&mut Parser, Construct) -> Result<Tree, Stop>>(
        &mut self,
        within: u32,
        deeper: &D,
        place: PlaceAt,
    ) -> Result<Expr, Stop>
        requires { IsDeeper (D.pre deeper.now) (D.post deeper.now) within }
        ensures { Gives it result self.new (levels.behind_place within (with_spot place) (state self.old)) }
    {
        if self.next_is_sign(Sign::Assign) {
            return self.assigned(within, deeper, place);
        }
        if self.next_is_change() {
            return self.changed(within, deeper, place);
        }
        let first = self.may_step(place)?;
        self.or_rest(within, deeper, first)
    }

    /// Behind `[ ]`: what is appended.
    fn appended<D: Fn(&mut Parser, Construct) -> Result<Tree, Stop>>(
        &mut self,
        within: u32,
        deeper: &D,
        place: PlaceAt,
    ) -> Result<Expr, Stop>
        requires { IsDeeper (D.pre deeper.now) (D.post deeper.now) within }
        ensures { Gives it result self.new (levels.appended within (with_spot place) (state self.old)) }
    {
        self.sign(Sign::CloseBracket)?;
        self.sign(Sign::Assign)?;
        let value = self.boxed_expr(within, deeper)?;
        let (place, spot) = place;
        Ok(expr_at(spot, Node::Append(place, value)))
    }

    /// A step, or `[` before the `]` of an appending.
    fn head_step<D: Fn(&mut Parser, Construct) -> Result<Tree, Stop>>(
        &mut self,
        within: u32,
        deeper: &D,
    ) -> Result<Option<Access>, Stop>
        requires { IsDeeper (D.pre deeper.now) (D.post deeper.now) within }
        ensures { Gives it result self.new (levels.head_step within (state self.old)) }
    {
        if self.next_is_sign(Sign::Dot) {
            let member = self.member_access()?;
            return Ok(Some(member));
        }
        if !has_room(within) {
            return Err(Stop::Dead);
        }
        self.sign(Sign::OpenBracket)?;
        if self.next_is_sign(Sign::CloseBracket) {
            return Ok(None);
        }
        let index = self.expr_within(within, deeper)?;
        let (index, _) = self.sign_behind(index, Sign::CloseBracket)?;
        Ok(Some(Access::Index(index)))
    }

    /// Behind the variable with which an expression begins, where no call follows: its steps, and what is behind them.
    fn head<D: Fn(&mut Parser, Construct) -> Result<Tree, Stop>>(
        &mut self,
        within: u32,
        deeper: &D,
        name: Text,
        spot: Spot,
    ) -> Result<Expr, Stop>
        requires { IsDeeper (D.pre deeper.now) (D.post deeper.now) within }
        ensures { Gives it result self.new (levels.head within (place_of (with_spot (name, spot)) []) (state self.old)) }
    {
        let mut steps = Items::new(self.alloc);
        while self.next_is_step() {
            match self.head_step(within, deeper)? {
                Some(step) => steps.push(step)?,
                None => return self.appended(within, deeper, (Place { name, steps }, spot)),
            }
        }
        self.behind_place(within, deeper, (Place { name, steps }, spot))
    }

    /// An expression whose room within is given.
    #[tactic(auto, unfolding(crate::specs::Expressions::expression))]
    pub(crate) fn expression<D: Fn(&mut Parser, Construct) -> Result<Tree, Stop>>(
        &mut self,
        within: u32,
        deeper: &D,
    ) -> Result<Expr, Stop>
        requires { IsDeeper (D.pre deeper.now) (D.post deeper.now) within }
        ensures { Gives it result self.new (levels.expression within (state self.old)) }
    {
        if !self.next_is_variable() {
            let first = self.no_variable(within, deeper)?;
            return self.or_rest(within, deeper, first);
        }
        let (name, spot) = self.variable()?;
        if self.next_is_sign(Sign::OpenParen) {
            let first = self.called(within, deeper, name, spot)?;
            return self.or_rest(within, deeper, first);
        }
        self.head(within, deeper, name, spot)
    }
}

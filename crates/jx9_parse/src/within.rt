//! What stands within a construct: it has one level of nesting less. `within` is the room for it, and `deeper` reads it.

ghost use Rattle.std.specs.Prelude.{◌≡◌, ltb, IfOk};
ghost use Rattle.jx9_parse.specs.Answers.{Gives, state, it};
ghost use Rattle.jx9_parse.specs.Deeper.{IsDeeper};
ghost use Rattle.jx9_parse.specs.Reading.{guarded};
ghost use Rattle.jx9_parse.specs.Rooms.{unary_within, expr_within, block_within, statement_within};
ghost use Rattle.jx9_parse.specs.Levels as levels;

use crate::construct::{Construct, Tree, first_of, second_of};
use crate::parser::Parser;
use crate::stop::Stop;
use jx9_syntax::{Expr, Statement};
use sqlite_items::Boxed;

/// Whether a construct that takes a level of nesting may stand here.
pub(crate) fn has_room(within: u32) -> bool
    ensures { result ≡ ltb 0 within }
{
    within > 0
}

impl<'a> Parser<'a> {
    /// A unary expression within.
    pub(crate) fn unary_within<D: Fn(&mut Parser, Construct) -> Result<Tree, Stop>>(
        &mut self,
        within: u32,
        deeper: &D,
    ) -> Result<Expr, Stop>
        requires { IsDeeper (D.pre deeper.now) (D.post deeper.now) within }
        ensures { Gives it result self.new (unary_within within (state self.old)) }
    {
        first_of(deeper(self, Construct::Unary))
    }

    /// An expression within.
    pub(crate) fn expr_within<D: Fn(&mut Parser, Construct) -> Result<Tree, Stop>>(
        &mut self,
        within: u32,
        deeper: &D,
    ) -> Result<Expr, Stop>
        requires { IsDeeper (D.pre deeper.now) (D.post deeper.now) within }
        ensures { Gives it result self.new (expr_within within (state self.old)) }
    {
        first_of(deeper(self, Construct::Expr))
    }

    /// An expression within: with no room reading stops before the first token.
    pub(crate) fn inner_expr<D: Fn(&mut Parser, Construct) -> Result<Tree, Stop>>(
        &mut self,
        within: u32,
        deeper: &D,
    ) -> Result<Expr, Stop>
        requires { IsDeeper (D.pre deeper.now) (D.post deeper.now) within }
        ensures { Gives it result self.new (guarded (levels.inside within) (expr_within within) (state self.old)) }
    {
        self.expr_within(within, deeper)
    }

    /// The same, boxed.
    pub(crate) fn boxed_expr<D: Fn(&mut Parser, Construct) -> Result<Tree, Stop>>(
        &mut self,
        within: u32,
        deeper: &D,
    ) -> Result<Boxed<Expr>, Stop>
        requires { IsDeeper (D.pre deeper.now) (D.post deeper.now) within }
        ensures { Gives it result self.new (expr_within within (state self.old)) }
    {
        let found = self.expr_within(within, deeper)?;
        Ok(Boxed::new(self.alloc, found)?)
    }

    /// A block within.
    pub(crate) fn block_within<D: Fn(&mut Parser, Construct) -> Result<Tree, Stop>>(
        &mut self,
        within: u32,
        deeper: &D,
    ) -> Result<Statement, Stop>
        requires { IsDeeper (D.pre deeper.now) (D.post deeper.now) within }
        ensures { Gives it result self.new (block_within within (state self.old)) }
    {
        second_of(deeper(self, Construct::Block))
    }

    /// A statement within.
    pub(crate) fn statement_within<D: Fn(&mut Parser, Construct) -> Result<Tree, Stop>>(
        &mut self,
        within: u32,
        deeper: &D,
    ) -> Result<Statement, Stop>
        requires { IsDeeper (D.pre deeper.now) (D.post deeper.now) within }
        ensures { Gives it result self.new (statement_within within (state self.old)) }
    {
        second_of(deeper(self, Construct::Statement))
    }

    /// The same, boxed.
    pub(crate) fn boxed_statement<D: Fn(&mut Parser, Construct) -> Result<Tree, Stop>>(
        &mut self,
        within: u32,
        deeper: &D,
    ) -> Result<Boxed<Statement>, Stop>
        requires { IsDeeper (D.pre deeper.now) (D.post deeper.now) within }
        ensures { Gives it result self.new (statement_within within (state self.old)) }
    {
        let found = self.statement_within(within, deeper)?;
        Ok(Boxed::new(self.alloc, found)?)
    }

    /// The statement within that stands behind what was found.
    pub(crate) fn statement_behind<T: Drop, D: Fn(&mut Parser, Construct) -> Result<Tree, Stop>>(
        &mut self,
        within: u32,
        deeper: &D,
        found: T,
    ) -> Result<(T, Statement), Stop>
        requires { IsDeeper (D.pre deeper.now) (D.post deeper.now) within }
        ensures kept { IfOk result (λ both. both.0 ≡ found) }
        ensures read { Gives (λ both. both.1) result self.new (statement_within within (state self.old)) }
    {
        let statement = self.statement_within(within, deeper)?;
        Ok((found, statement))
    }

    /// The same, boxed.
    pub(crate) fn body_behind<T: Drop, D: Fn(&mut Parser, Construct) -> Result<Tree, Stop>>(
        &mut self,
        within: u32,
        deeper: &D,
        found: T,
    ) -> Result<(T, Boxed<Statement>), Stop>
        requires { IsDeeper (D.pre deeper.now) (D.post deeper.now) within }
        ensures kept { IfOk result (λ both. both.0 ≡ found) }
        ensures read { Gives (λ both. both.1) result self.new (statement_within within (state self.old)) }
    {
        let body = self.boxed_statement(within, deeper)?;
        Ok((found, body))
    }

    /// A statement within: with no room reading stops before the first token.
    pub(crate) fn inner_statement<D: Fn(&mut Parser, Construct) -> Result<Tree, Stop>>(
        &mut self,
        within: u32,
        deeper: &D,
    ) -> Result<Statement, Stop>
        requires { IsDeeper (D.pre deeper.now) (D.post deeper.now) within }
        ensures { Gives it result self.new (guarded (levels.inside within) (statement_within within) (state self.old)) }
    {
        self.statement_within(within, deeper)
    }
}

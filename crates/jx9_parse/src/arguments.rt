//! Arguments and parameters.

ghost use Rattle.jx9_parse.specs.Answers.{Gives, state, it};
ghost use Rattle.jx9_parse.specs.Deeper.{IsDeeper};
ghost use Rattle.jx9_parse.specs.Expressions.{parameter, other_parameter, some_names, parameters};
ghost use Rattle.jx9_parse.specs.Reading.{commas};
ghost use Rattle.jx9_parse.specs.Levels as levels;

use crate::construct::{Construct, Tree};
use crate::parser::Parser;
use crate::stop::Stop;
use jx9_syntax::{Expr, Sign};
use sqlite_items::Items;
use uq_value::Text;

impl<'a> Parser<'a> {
    /// Expressions with commas between them, at least one.
    fn exprs<D: Fn(&mut Parser, Construct) -> Result<Tree, Stop>>(
        &mut self,
        within: u32,
        deeper: &D,
    ) -> Result<Items<Expr>, Stop>
        requires { IsDeeper (D.pre deeper.now) (D.post deeper.now) within }
        ensures { Gives it result self.new (levels.exprs within (state self.old)) }
    {
        let mut found = Items::new(self.alloc);
        let first = self.inner_expr(within, deeper)?;
        found.push(first)?;
        while self.next_is_sign(Sign::Comma) {
            let other = self.other_expr(within, deeper)?;
            found.push(other)?;
        }
        Ok(found)
    }

    /// `, e`
    fn other_expr<D: Fn(&mut Parser, Construct) -> Result<Tree, Stop>>(
        &mut self,
        within: u32,
        deeper: &D,
    ) -> Result<Expr, Stop>
        requires { IsDeeper (D.pre deeper.now) (D.post deeper.now) within }
        ensures { Gives it result self.new (levels.other_expr within (state self.old)) }
    {
        self.sign(Sign::Comma)?;
        self.inner_expr(within, deeper)
    }

    /// Expressions with commas between them, or none.
    pub(crate) fn some_exprs<D: Fn(&mut Parser, Construct) -> Result<Tree, Stop>>(
        &mut self,
        within: u32,
        deeper: &D,
    ) -> Result<Items<Expr>, Stop>
        requires { IsDeeper (D.pre deeper.now) (D.post deeper.now) within }
        ensures { Gives it result self.new (levels.some_exprs within (state self.old)) }
    {
        if self.begins_expr() {
            self.exprs(within, deeper)
        } else {
            Ok(Items::new(self.alloc))
        }
    }

    /// `(e, ..)`
    pub(crate) fn arguments<D: Fn(&mut Parser, Construct) -> Result<Tree, Stop>>(
        &mut self,
        within: u32,
        deeper: &D,
    ) -> Result<Items<Expr>, Stop>
        requires { IsDeeper (D.pre deeper.now) (D.post deeper.now) within }
        ensures { Gives it result self.new (levels.arguments within (state self.old)) }
    {
        self.sign(Sign::OpenParen)?;
        let found = self.some_exprs(within, deeper)?;
        self.sign(Sign::CloseParen)?;
        Ok(found)
    }

    /// A variable's name.
    fn parameter(&mut self) -> Result<Text, Stop>
        ensures { Gives it result self.new (parameter (state self.old)) }
    {
        let (name, _) = self.variable()?;
        Ok(name)
    }

    /// `, VAR`
    fn other_parameter(&mut self) -> Result<Text, Stop>
        ensures { Gives it result self.new (other_parameter (state self.old)) }
    {
        self.sign(Sign::Comma)?;
        self.parameter()
    }

    /// Variables with commas between them, at least one.
    fn names(&mut self) -> Result<Items<Text>, Stop>
        ensures { Gives it result self.new (commas parameter (state self.old)) }
    {
        let mut found = Items::new(self.alloc);
        let first = self.parameter()?;
        found.push(first)?;
        while self.next_is_sign(Sign::Comma) {
            let other = self.other_parameter()?;
            found.push(other)?;
        }
        Ok(found)
    }

    /// Variables with commas between them, or none.
    fn some_names(&mut self) -> Result<Items<Text>, Stop>
        ensures { Gives it result self.new (some_names (state self.old)) }
    {
        if self.next_is_variable() {
            self.names()
        } else {
            Ok(Items::new(self.alloc))
        }
    }

    /// `( VAR , .. )`
    pub(crate) fn parameters(&mut self) -> Result<Items<Text>, Stop>
        ensures { Gives it result self.new (parameters (state self.old)) }
    {
        self.sign(Sign::OpenParen)?;
        let found = self.some_names()?;
        self.sign(Sign::CloseParen)?;
        Ok(found)
    }
}

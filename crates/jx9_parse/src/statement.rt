//! Statements.

ghost use Rattle.std.specs.Prelude.{◌≡◌, IfOk};
ghost use Rattle.jx9_parse.specs.Answers.{Gives, state, it};
ghost use Rattle.jx9_parse.specs.Deeper.{IsDeeper};
ghost use Rattle.jx9_parse.specs.Reading.{guarded};
ghost use Rattle.jx9_parse.specs.Levels as levels;

use crate::construct::{Construct, Tree};
use crate::keyword::Keyword;
use crate::parser::Parser;
use crate::stop::Stop;
use crate::tree::statement_of;
use crate::within::has_room;
use jx9_syntax::{Branch, Expr, Kind, Sign, Statement};
use sqlite_items::{Boxed, Items};
use uq_value::Text;

/// What stands between the parentheses of a `for`.
#[derive(Drop)]
struct ForHead {
    first: Items<Expr>,
    test: Option<Boxed<Expr>>,
    last: Items<Expr>,
}

impl<'a> Parser<'a> {
    /// Expressions of this nesting with commas between them, at least one.
    fn expressions<D: Fn(&mut Parser, Construct) -> Result<Tree, Stop>>(
        &mut self,
        within: u32,
        deeper: &D,
    ) -> Result<Items<Expr>, Stop>
        requires { IsDeeper (D.pre deeper.now) (D.post deeper.now) within }
        ensures { Gives it result self.new (levels.expressions within (state self.old)) }
    {
        let mut found = Items::new(self.alloc);
        let first = self.expression(within, deeper)?;
        found.push(first)?;
        while self.next_is_sign(Sign::Comma) {
            let other = self.other_expression(within, deeper)?;
            found.push(other)?;
        }
        Ok(found)
    }

    /// `, e`
    fn other_expression<D: Fn(&mut Parser, Construct) -> Result<Tree, Stop>>(
        &mut self,
        within: u32,
        deeper: &D,
    ) -> Result<Expr, Stop>
        requires { IsDeeper (D.pre deeper.now) (D.post deeper.now) within }
        ensures { Gives it result self.new (levels.other_expression within (state self.old)) }
    {
        self.sign(Sign::Comma)?;
        self.expression(within, deeper)
    }

    /// `print e, ..;`
    fn print_statement<D: Fn(&mut Parser, Construct) -> Result<Tree, Stop>>(
        &mut self,
        within: u32,
        deeper: &D,
    ) -> Result<Statement, Stop>
        requires { IsDeeper (D.pre deeper.now) (D.post deeper.now) within }
        ensures { Gives it result self.new (levels.print_statement within (state self.old)) }
    {
        let spot = self.keyword(Keyword::Print)?;
        let found = self.expressions(within, deeper)?;
        self.sign(Sign::Semicolon)?;
        Ok(statement_of(spot, Kind::Print(found)))
    }

    /// `return e;` or `return;`
    fn return_statement<D: Fn(&mut Parser, Construct) -> Result<Tree, Stop>>(
        &mut self,
        within: u32,
        deeper: &D,
    ) -> Result<Statement, Stop>
        requires { IsDeeper (D.pre deeper.now) (D.post deeper.now) within }
        ensures { Gives it result self.new (levels.return_statement within (state self.old)) }
    {
        let spot = self.keyword(Keyword::Return)?;
        let mut value = None;
        if self.begins_expr() {
            let found = self.expression(within, deeper)?;
            value = Some(Boxed::new(self.alloc, found)?);
        }
        self.sign(Sign::Semicolon)?;
        Ok(statement_of(spot, Kind::Return(value)))
    }

    /// `e;`
    fn expression_statement<D: Fn(&mut Parser, Construct) -> Result<Tree, Stop>>(
        &mut self,
        within: u32,
        deeper: &D,
    ) -> Result<Statement, Stop>
        requires { IsDeeper (D.pre deeper.now) (D.post deeper.now) within }
        ensures { Gives it result self.new (levels.of_expression within (state self.old)) }
    {
        let found = self.expression(within, deeper)?;
        let (found, _) = self.sign_behind(found, Sign::Semicolon)?;
        let (line, token) = (found.line, found.token);
        let kind = Kind::Expr(found);
        Ok(Statement { line, token, kind })
    }

    /// `(e)`
    fn in_parens<D: Fn(&mut Parser, Construct) -> Result<Tree, Stop>>(
        &mut self,
        within: u32,
        deeper: &D,
    ) -> Result<Expr, Stop>
        requires { IsDeeper (D.pre deeper.now) (D.post deeper.now) within }
        ensures { Gives it result self.new (levels.in_parens within (state self.old)) }
    {
        self.sign(Sign::OpenParen)?;
        let found = self.expr_within(within, deeper)?;
        let (found, _) = self.sign_behind(found, Sign::CloseParen)?;
        Ok(found)
    }

    /// `(e) ..`
    fn branch<D: Fn(&mut Parser, Construct) -> Result<Tree, Stop>>(
        &mut self,
        within: u32,
        deeper: &D,
    ) -> Result<Branch, Stop>
        requires { IsDeeper (D.pre deeper.now) (D.post deeper.now) within }
        ensures { Gives it result self.new (levels.branch within (state self.old)) }
    {
        let test = self.in_parens(within, deeper)?;
        let (test, body) = self.statement_behind(within, deeper, test)?;
        Ok(Branch { test, body })
    }

    /// `elseif (e) ..`
    fn other_branch<D: Fn(&mut Parser, Construct) -> Result<Tree, Stop>>(
        &mut self,
        within: u32,
        deeper: &D,
    ) -> Result<Branch, Stop>
        requires { IsDeeper (D.pre deeper.now) (D.post deeper.now) within }
        ensures { Gives it result self.new (levels.other_branch within (state self.old)) }
    {
        self.keyword(Keyword::Elseif)?;
        self.branch(within, deeper)
    }

    /// `else ..` or nothing
    fn otherwise<D: Fn(&mut Parser, Construct) -> Result<Tree, Stop>>(
        &mut self,
        within: u32,
        deeper: &D,
    ) -> Result<Option<Boxed<Statement>>, Stop>
        requires { IsDeeper (D.pre deeper.now) (D.post deeper.now) within }
        ensures { Gives it result self.new (levels.otherwise within (state self.old)) }
    {
        if !self.next_is_keyword(Keyword::Else) {
            return Ok(None);
        }
        self.keyword(Keyword::Else)?;
        Ok(Some(self.boxed_statement(within, deeper)?))
    }

    /// Behind `if`: its branch, that of each `elseif`, and what is behind `else`.
    fn branches<D: Fn(&mut Parser, Construct) -> Result<Tree, Stop>>(
        &mut self,
        within: u32,
        deeper: &D,
    ) -> Result<(Items<Branch>, Option<Boxed<Statement>>), Stop>
        requires { IsDeeper (D.pre deeper.now) (D.post deeper.now) within }
        ensures { Gives it result self.new (levels.branches within (state self.old)) }
    {
        let mut found = Items::new(self.alloc);
        let first = self.branch(within, deeper)?;
        found.push(first)?;
        while self.next_is_keyword(Keyword::Elseif) {
            let other = self.other_branch(within, deeper)?;
            found.push(other)?;
        }
        let other = self.otherwise(within, deeper)?;
        Ok((found, other))
    }

    fn if_statement<D: Fn(&mut Parser, Construct) -> Result<Tree, Stop>>(
        &mut self,
        within: u32,
        deeper: &D,
    ) -> Result<Statement, Stop>
        requires { IsDeeper (D.pre deeper.now) (D.post deeper.now) within }
        ensures { Gives it result self.new (guarded (levels.inside within) (levels.if_statement within) (state self.old)) }
    {
        if !has_room(within) {
            return Err(Stop::Dead);
        }
        let spot = self.keyword(Keyword::If)?;
        let (branches, other) = self.branches(within, deeper)?;
        Ok(statement_of(spot, Kind::If(branches, other)))
    }

    fn while_statement<D: Fn(&mut Parser, Construct) -> Result<Tree, Stop>>(
        &mut self,
        within: u32,
        deeper: &D,
    ) -> Result<Statement, Stop>
        requires { IsDeeper (D.pre deeper.now) (D.post deeper.now) within }
        ensures { Gives it result self.new (guarded (levels.inside within) (levels.while_statement within) (state self.old)) }
    {
        if !has_room(within) {
            return Err(Stop::Dead);
        }
        let spot = self.keyword(Keyword::While)?;
        let test = self.in_parens(within, deeper)?;
        let (test, body) = self.body_behind(within, deeper, test)?;
        Ok(statement_of(spot, Kind::While(test, body)))
    }

    /// `e` or nothing, and `;`
    fn for_test<D: Fn(&mut Parser, Construct) -> Result<Tree, Stop>>(
        &mut self,
        within: u32,
        deeper: &D,
    ) -> Result<Option<Boxed<Expr>>, Stop>
        requires { IsDeeper (D.pre deeper.now) (D.post deeper.now) within }
        ensures { Gives it result self.new (levels.for_test within (state self.old)) }
    {
        let mut test = None;
        if self.begins_expr() {
            let found = self.inner_expr(within, deeper)?;
            test = Some(Boxed::new(self.alloc, found)?);
        }
        self.sign(Sign::Semicolon)?;
        Ok(test)
    }

    /// `(e, ..; e; e, ..)`
    fn for_head<D: Fn(&mut Parser, Construct) -> Result<Tree, Stop>>(
        &mut self,
        within: u32,
        deeper: &D,
    ) -> Result<ForHead, Stop>
        requires { IsDeeper (D.pre deeper.now) (D.post deeper.now) within }
        ensures { Gives (λ h. (h.first, (h.test, h.last))) result self.new (levels.for_head within (state self.old)) }
    {
        self.sign(Sign::OpenParen)?;
        let first = self.some_exprs(within, deeper)?;
        self.sign(Sign::Semicolon)?;
        let test = self.for_test(within, deeper)?;
        let last = self.some_exprs(within, deeper)?;
        self.sign(Sign::CloseParen)?;
        Ok(ForHead { first, test, last })
    }

    fn for_statement<D: Fn(&mut Parser, Construct) -> Result<Tree, Stop>>(
        &mut self,
        within: u32,
        deeper: &D,
    ) -> Result<Statement, Stop>
        requires { IsDeeper (D.pre deeper.now) (D.post deeper.now) within }
        ensures { Gives it result self.new (guarded (levels.inside within) (levels.for_statement within) (state self.old)) }
    {
        if !has_room(within) {
            return Err(Stop::Dead);
        }
        let spot = self.keyword(Keyword::For)?;
        let ForHead { first, test, last } = self.for_head(within, deeper)?;
        let body = self.boxed_statement(within, deeper)?;
        Ok(statement_of(spot, Kind::For(first, test, last, body)))
    }

    /// The variables of a `foreach`: that of the value, or those of the key and the value.
    fn foreach_variables(&mut self) -> Result<(Option<Text>, Text), Stop>
        ensures { Gives it result self.new (levels.foreach_variables 0 (state self.old)) }
    {
        let (first, _) = self.variable()?;
        if !self.next_is_sign(Sign::Comma) {
            return Ok((None, first));
        }
        self.sign(Sign::Comma)?;
        let (second, _) = self.variable()?;
        Ok((Some(first), second))
    }

    /// The same behind what was found.
    fn variables_behind<T: Drop>(&mut self, found: T) -> Result<(T, (Option<Text>, Text)), Stop>
        ensures kept { IfOk result (λ both. both.0 ≡ found) }
        ensures read { Gives (λ both. both.1) result self.new (levels.foreach_variables 0 (state self.old)) }
    {
        let variables = self.foreach_variables()?;
        Ok((found, variables))
    }

    /// `(e as $k, $v)`
    fn foreach_head<D: Fn(&mut Parser, Construct) -> Result<Tree, Stop>>(
        &mut self,
        within: u32,
        deeper: &D,
    ) -> Result<(Expr, (Option<Text>, Text)), Stop>
        requires { IsDeeper (D.pre deeper.now) (D.post deeper.now) within }
        ensures { Gives it result self.new (levels.foreach_head within (state self.old)) }
    {
        self.sign(Sign::OpenParen)?;
        let over = self.expr_within(within, deeper)?;
        let (over, _) = self.keyword_behind(over, Keyword::As)?;
        let (over, variables) = self.variables_behind(over)?;
        let (head, _) = self.sign_behind((over, variables), Sign::CloseParen)?;
        Ok(head)
    }

    fn foreach_statement<D: Fn(&mut Parser, Construct) -> Result<Tree, Stop>>(
        &mut self,
        within: u32,
        deeper: &D,
    ) -> Result<Statement, Stop>
        requires { IsDeeper (D.pre deeper.now) (D.post deeper.now) within }
        ensures { Gives it result self.new (guarded (levels.inside within) (levels.foreach_statement within) (state self.old)) }
    {
        if !has_room(within) {
            return Err(Stop::Dead);
        }
        let spot = self.keyword(Keyword::Foreach)?;
        let head = self.foreach_head(within, deeper)?;
        let ((over, (key, value)), body) = self.body_behind(within, deeper, head)?;
        Ok(statement_of(spot, Kind::Foreach(over, key, value, body)))
    }

    /// Statements, as long as the next token begins one.
    fn statements<D: Fn(&mut Parser, Construct) -> Result<Tree, Stop>>(
        &mut self,
        within: u32,
        deeper: &D,
    ) -> Result<Items<Statement>, Stop>
        requires { IsDeeper (D.pre deeper.now) (D.post deeper.now) within }
        ensures { Gives it result self.new (levels.statements within (state self.old)) }
    {
        let mut found = Items::new(self.alloc);
        while self.begins_statement() {
            let statement = self.inner_statement(within, deeper)?;
            found.push(statement)?;
        }
        Ok(found)
    }

    /// `{ .. }`
    pub(crate) fn block<D: Fn(&mut Parser, Construct) -> Result<Tree, Stop>>(
        &mut self,
        within: u32,
        deeper: &D,
    ) -> Result<Statement, Stop>
        requires { IsDeeper (D.pre deeper.now) (D.post deeper.now) within }
        ensures { Gives it result self.new (levels.block within (state self.old)) }
    {
        let spot = self.sign(Sign::OpenBrace)?;
        let found = self.statements(within, deeper)?;
        self.sign(Sign::CloseBrace)?;
        Ok(statement_of(spot, Kind::Block(found)))
    }

    /// A statement that ends with a sign.
    fn simple_statement<D: Fn(&mut Parser, Construct) -> Result<Tree, Stop>>(
        &mut self,
        within: u32,
        deeper: &D,
    ) -> Result<Statement, Stop>
        requires { IsDeeper (D.pre deeper.now) (D.post deeper.now) within }
        ensures { Gives it result self.new (levels.simple_statement within (state self.old)) }
    {
        if self.next_is_sign(Sign::Semicolon) {
            let spot = self.sign(Sign::Semicolon)?;
            return Ok(statement_of(spot, Kind::Empty));
        }
        if self.next_is_keyword(Keyword::Print) {
            return self.print_statement(within, deeper);
        }
        if self.next_is_keyword(Keyword::Return) {
            return self.return_statement(within, deeper);
        }
        if self.next_is_keyword(Keyword::Break) {
            let spot = self.keyword(Keyword::Break)?;
            self.sign(Sign::Semicolon)?;
            return Ok(statement_of(spot, Kind::Break));
        }
        if self.next_is_keyword(Keyword::Continue) {
            let spot = self.keyword(Keyword::Continue)?;
            self.sign(Sign::Semicolon)?;
            return Ok(statement_of(spot, Kind::Continue));
        }
        if self.next_is_sign(Sign::OpenBrace) {
            return self.block(within, deeper);
        }
        self.expression_statement(within, deeper)
    }

    /// A statement whose room within is given.
    pub(crate) fn statement<D: Fn(&mut Parser, Construct) -> Result<Tree, Stop>>(
        &mut self,
        within: u32,
        deeper: &D,
    ) -> Result<Statement, Stop>
        requires { IsDeeper (D.pre deeper.now) (D.post deeper.now) within }
        ensures { Gives it result self.new (levels.one_statement within (state self.old)) }
    {
        if self.next_is_keyword(Keyword::If) {
            return self.if_statement(within, deeper);
        }
        if self.next_is_keyword(Keyword::While) {
            return self.while_statement(within, deeper);
        }
        if self.next_is_keyword(Keyword::For) {
            return self.for_statement(within, deeper);
        }
        if self.next_is_keyword(Keyword::Foreach) {
            return self.foreach_statement(within, deeper);
        }
        self.simple_statement(within, deeper)
    }
}

//! Primaries that are no variables.

ghost use Rattle.jx9_parse.specs.Answers.{Gives, state, it};
ghost use Rattle.jx9_parse.specs.Deeper.{IsDeeper};
ghost use Rattle.jx9_parse.specs.Levels as levels;

use crate::construct::{Construct, Tree};
use crate::keyword::Keyword;
use crate::parser::Parser;
use crate::stop::Stop;
use crate::tree::{empty_function, expr_at};
use crate::within::has_room;
use jx9_syntax::{Entry, Expr, Function, Node, Sign};
use sqlite_items::Items;

impl<'a> Parser<'a> {
    /// Behind `[`: the items of a list to `]`, with a comma behind each, which the last may lack.
    fn list_items<D: Fn(&mut Parser, Construct) -> Result<Tree, Stop>>(
        &mut self,
        within: u32,
        deeper: &D,
    ) -> Result<Items<Expr>, Stop>
        requires { IsDeeper (D.pre deeper.now) (D.post deeper.now) within }
        ensures { Gives it result self.new (levels.list_items within (state self.old)) }
    {
        let mut found = Items::new(self.alloc);
        while !self.next_is_sign(Sign::CloseBracket) {
            let item = self.inner_expr(within, deeper)?;
            found.push(item)?;
            if !self.next_is_sign(Sign::Comma) {
                self.sign(Sign::CloseBracket)?;
                return Ok(found);
            }
            self.sign(Sign::Comma)?;
        }
        self.sign(Sign::CloseBracket)?;
        Ok(found)
    }

    /// `name: e`
    fn entry<D: Fn(&mut Parser, Construct) -> Result<Tree, Stop>>(
        &mut self,
        within: u32,
        deeper: &D,
    ) -> Result<Entry, Stop>
        requires { IsDeeper (D.pre deeper.now) (D.post deeper.now) within }
        ensures { Gives it result self.new (levels.entry within (state self.old)) }
    {
        if !has_room(within) {
            return Err(Stop::Dead);
        }
        let (name, _) = self.member_name()?;
        self.sign(Sign::Colon)?;
        let value = self.expr_within(within, deeper)?;
        Ok(Entry { name, value })
    }

    /// Behind `{`: the members of an object to `}`, with a comma behind each, which the last may lack.
    fn object_members<D: Fn(&mut Parser, Construct) -> Result<Tree, Stop>>(
        &mut self,
        within: u32,
        deeper: &D,
    ) -> Result<Items<Entry>, Stop>
        requires { IsDeeper (D.pre deeper.now) (D.post deeper.now) within }
        ensures { Gives it result self.new (levels.object_members within (state self.old)) }
    {
        let mut found = Items::new(self.alloc);
        while !self.next_is_sign(Sign::CloseBrace) {
            let member = self.entry(within, deeper)?;
            found.push(member)?;
            if !self.next_is_sign(Sign::Comma) {
                self.sign(Sign::CloseBrace)?;
                return Ok(found);
            }
            self.sign(Sign::Comma)?;
        }
        self.sign(Sign::CloseBrace)?;
        Ok(found)
    }

    /// `(..) { .. }`
    fn function<D: Fn(&mut Parser, Construct) -> Result<Tree, Stop>>(
        &mut self,
        within: u32,
        deeper: &D,
    ) -> Result<Function, Stop>
        requires { IsDeeper (D.pre deeper.now) (D.post deeper.now) within }
        ensures { Gives it result self.new (levels.function within (state self.old)) }
    {
        let params = self.parameters()?;
        let body = self.block_within(within, deeper)?;
        Ok(Function { params, body })
    }

    /// `function (..) { .. }`. Its place in the list is kept until it is read.
    fn lambda<D: Fn(&mut Parser, Construct) -> Result<Tree, Stop>>(
        &mut self,
        within: u32,
        deeper: &D,
    ) -> Result<Expr, Stop>
        requires { IsDeeper (D.pre deeper.now) (D.post deeper.now) within }
        ensures { Gives it result self.new (levels.lambda within (state self.old)) }
    {
        if !has_room(within) {
            return Err(Stop::Dead);
        }
        let spot = self.keyword(Keyword::Function)?;
        let at = self.lambdas.len();
        self.lambdas.push(empty_function(self.alloc))?;
        let function = self.function(within, deeper)?;
        self.lambdas.set(at, function);
        Ok(expr_at(spot, Node::Lambda(at as u32 + 1)))
    }

    /// `(e)`
    fn group<D: Fn(&mut Parser, Construct) -> Result<Tree, Stop>>(
        &mut self,
        within: u32,
        deeper: &D,
    ) -> Result<Expr, Stop>
        requires { IsDeeper (D.pre deeper.now) (D.post deeper.now) within }
        ensures { Gives it result self.new (levels.group within (state self.old)) }
    {
        if !has_room(within) {
            return Err(Stop::Dead);
        }
        let spot = self.sign(Sign::OpenParen)?;
        let inner = self.boxed_expr(within, deeper)?;
        self.sign(Sign::CloseParen)?;
        Ok(expr_at(spot, Node::Group(inner)))
    }

    /// `[e, ..]`
    fn list<D: Fn(&mut Parser, Construct) -> Result<Tree, Stop>>(
        &mut self,
        within: u32,
        deeper: &D,
    ) -> Result<Expr, Stop>
        requires { IsDeeper (D.pre deeper.now) (D.post deeper.now) within }
        ensures { Gives it result self.new (levels.list within (state self.old)) }
    {
        let spot = self.sign(Sign::OpenBracket)?;
        let found = self.list_items(within, deeper)?;
        Ok(expr_at(spot, Node::List(found)))
    }

    /// `{name: e, ..}`
    fn object<D: Fn(&mut Parser, Construct) -> Result<Tree, Stop>>(
        &mut self,
        within: u32,
        deeper: &D,
    ) -> Result<Expr, Stop>
        requires { IsDeeper (D.pre deeper.now) (D.post deeper.now) within }
        ensures { Gives it result self.new (levels.object within (state self.old)) }
    {
        let spot = self.sign(Sign::OpenBrace)?;
        let found = self.object_members(within, deeper)?;
        Ok(expr_at(spot, Node::Object(found)))
    }

    /// A call of a function by its name.
    fn call<D: Fn(&mut Parser, Construct) -> Result<Tree, Stop>>(
        &mut self,
        within: u32,
        deeper: &D,
    ) -> Result<Expr, Stop>
        requires { IsDeeper (D.pre deeper.now) (D.post deeper.now) within }
        ensures { Gives it result self.new (levels.call within (state self.old)) }
    {
        let (name, spot) = self.name()?;
        let found = self.arguments(within, deeper)?;
        Ok(expr_at(spot, Node::Call(name, found)))
    }

    /// A primary that is no variable.
    pub(crate) fn primary<D: Fn(&mut Parser, Construct) -> Result<Tree, Stop>>(
        &mut self,
        within: u32,
        deeper: &D,
    ) -> Result<Expr, Stop>
        requires { IsDeeper (D.pre deeper.now) (D.post deeper.now) within }
        ensures { Gives it result self.new (levels.primary within (state self.old)) }
    {
        if self.next_is_sign(Sign::OpenParen) {
            return self.group(within, deeper);
        }
        if self.next_is_sign(Sign::OpenBracket) {
            return self.list(within, deeper);
        }
        if self.next_is_sign(Sign::OpenBrace) {
            return self.object(within, deeper);
        }
        if self.next_is_name() {
            return self.call(within, deeper);
        }
        if self.next_is_keyword(Keyword::Function) {
            return self.lambda(within, deeper);
        }
        self.literal()
    }
}

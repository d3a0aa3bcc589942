//! Steps and places.

ghost use Rattle.std.specs.Prelude.{◌≡◌, IfOk};
ghost use Rattle.jx9_parse.specs.Answers.{Gives, state, it};
ghost use Rattle.jx9_parse.specs.Deeper.{IsDeeper};
ghost use Rattle.jx9_parse.specs.Spots.{with_spot};
ghost use Rattle.jx9_parse.specs.Levels as levels;

use crate::construct::{Construct, Tree};
use crate::parser::Parser;
use crate::stop::Stop;
use crate::tree::PlaceAt;
use crate::within::has_room;
use jx9_syntax::{Access, Place, Sign};
use sqlite_items::Items;

impl<'a> Parser<'a> {
    /// `.name` or `[e]`
    fn access<D: Fn(&mut Parser, Construct) -> Result<Tree, Stop>>(
        &mut self,
        within: u32,
        deeper: &D,
    ) -> Result<Access, Stop>
        requires { IsDeeper (D.pre deeper.now) (D.post deeper.now) within }
        ensures { Gives it result self.new (levels.access within (state self.old)) }
    {
        if self.next_is_sign(Sign::OpenBracket) {
            if !has_room(within) {
                return Err(Stop::Dead);
            }
            self.sign(Sign::OpenBracket)?;
            let index = self.expr_within(within, deeper)?;
            let (index, _) = self.sign_behind(index, Sign::CloseBracket)?;
            return Ok(Access::Index(index));
        }
        self.member_access()
    }

    pub(crate) fn steps<D: Fn(&mut Parser, Construct) -> Result<Tree, Stop>>(
        &mut self,
        within: u32,
        deeper: &D,
    ) -> Result<Items<Access>, Stop>
        requires { IsDeeper (D.pre deeper.now) (D.post deeper.now) within }
        ensures { Gives it result self.new (levels.steps within (state self.old)) }
    {
        let mut found = Items::new(self.alloc);
        while self.next_is_step() {
            let step = self.access(within, deeper)?;
            found.push(step)?;
        }
        Ok(found)
    }

    /// The steps behind what was found.
    pub(crate) fn steps_behind<T: Drop, D: Fn(&mut Parser, Construct) -> Result<Tree, Stop>>(
        &mut self,
        within: u32,
        deeper: &D,
        found: T,
    ) -> Result<(T, Items<Access>), Stop>
        requires { IsDeeper (D.pre deeper.now) (D.post deeper.now) within }
        ensures kept { IfOk result (λ both. both.0 ≡ found) }
        ensures read { Gives (λ both. both.1) result self.new (levels.steps within (state self.old)) }
    {
        let steps = self.steps(within, deeper)?;
        Ok((found, steps))
    }

    pub(crate) fn place<D: Fn(&mut Parser, Construct) -> Result<Tree, Stop>>(
        &mut self,
        within: u32,
        deeper: &D,
    ) -> Result<PlaceAt, Stop>
        requires { IsDeeper (D.pre deeper.now) (D.post deeper.now) within }
        ensures { Gives with_spot result self.new (levels.place within (state self.old)) }
    {
        let (name, spot) = self.variable()?;
        let steps = self.steps(within, deeper)?;
        Ok((Place { name, steps }, spot))
    }
}

//! The descent: constructs of nesting at most a number.

ghost use Rattle.jx9_parse.specs.Answers.{Gives, state, it};
ghost use Rattle.jx9_parse.specs.Deeper.{TreeGives};
ghost use Rattle.jx9_parse.specs.Rooms.{block_within, statement_within};

use crate::construct::{Construct, OneOf, Tree, second_of};
use crate::parser::Parser;
use crate::stop::Stop;
use jx9_syntax::Statement;

impl<'a> Parser<'a> {
    /// The construct, of nesting at most the room.
    fn tree_within(&mut self, room: u32, construct: Construct) -> Result<Tree, Stop>
        ensures { TreeGives construct result self.new room (state self.old) }
    {
        if room == 0 {
            return Err(Stop::Dead);
        }
        let within = room - 1;
        let deeper = |parser: &mut Parser, construct: Construct| -> Result<Tree, Stop>
            ensures { TreeGives construct result parser.new within (state parser.old) }
        { parser.tree_within(within, construct) };
        match construct {
            Construct::Unary => Ok(OneOf::First(self.unary(within, &deeper)?)),
            Construct::Expr => Ok(OneOf::First(self.expression(within, &deeper)?)),
            Construct::Block => Ok(OneOf::Second(self.block(within, &deeper)?)),
            Construct::Statement => Ok(OneOf::Second(self.statement(within, &deeper)?)),
        }
    }

    /// A block of nesting at most the room.
    pub(crate) fn block_at(&mut self, room: u32) -> Result<Statement, Stop>
        ensures { Gives it result self.new (block_within room (state self.old)) }
    {
        second_of(self.tree_within(room, Construct::Block))
    }

    /// A statement of nesting at most the room.
    pub(crate) fn statement_at(&mut self, room: u32) -> Result<Statement, Stop>
        ensures { Gives it result self.new (statement_within room (state self.old)) }
    {
        second_of(self.tree_within(room, Construct::Statement))
    }
}

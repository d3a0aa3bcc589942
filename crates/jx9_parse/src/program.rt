//! Whole programs.

ghost use Rattle.std.specs.Prelude.{◌≡◌, ◌<◌, ◌-◌, ◌^◌, [], length, IfOk, IfErr, OnOk};
ghost use Rattle.jx9_syntax.specs.Program.{IsProgram, IsProgramOf, IsTokens, Trees, trees};
ghost use Rattle.jx9_parse.specs.Answers.{Gives, state, it};
ghost use Rattle.jx9_parse.specs.Blames.{Blames, IsFaultAt};
ghost use Rattle.jx9_parse.specs.Items.{defines, definition, item, program_parts};
ghost use Rattle.jx9_parse.specs.Pieces.{item_of, parts_in, plus_item};
ghost use Rattle.jx9_parse.specs.declared.stop.Stop.TheVariants.{Memory};

use crate::error::SyntaxFault;
use crate::keyword::Keyword;
use crate::number::token_number;
use crate::parser::Parser;
use crate::stop::Stop;
use jx9_syntax::{Function, Named, Program, Statement, Token};
use sqlite_items::Items;
use std::alloc::Global;

/// The greatest nesting of a program.
const MOST_NESTING: u32 = 200;

/// A part of a program.
#[derive(Drop)]
enum Piece {
    Definition(Named),
    Statement(Statement),
}

/// What is read of a program.
#[derive(Drop)]
struct Pieces {
    functions: Items<Named>,
    statements: Items<Statement>,
}

impl Pieces {
    fn new(alloc: Global) -> Pieces
        ensures { parts_in result ≡ ([], []) }
    {
        Pieces {
            functions: Items::new(alloc),
            statements: Items::new(alloc),
        }
    }

    fn add(&mut self, piece: Piece) -> Result<(), Stop>
        ensures ok { OnOk result (parts_in self.new ≡ plus_item (parts_in self.old) (item_of piece)) }
        ensures err { IfErr result (λ stop. stop ≡ Memory) }
    {
        match piece {
            Piece::Definition(found) => self.functions.push(found)?,
            Piece::Statement(found) => self.statements.push(found)?,
        }
        Ok(())
    }
}

/// The program of the tokens: one `End`, which is the last, and fewer than 2^32 in all. There is at most one such program.
/// It is `Dead` exactly where there is none, with the first token with which no program goes on. `Memory` may come at any time.
pub fn parse(alloc: Global, tokens: &[Token]) -> Result<Program, SyntaxFault>
    requires tokens { IsTokens tokens.now }
    requires counted { length tokens.now < 2 ^ 32 }
    ensures found { IfOk result (IsProgram tokens.now) }
    ensures only { IfOk result (λ p. (others : Trees) → IsProgramOf tokens.now others → others ≡ trees p) }
    ensures dead { IfErr result (Blames tokens.now) }
{
    let mut parser = Parser {
        alloc,
        tokens: &tokens[..tokens.len() - 1],
        number: 0,
        lambdas: Items::new(alloc),
    };
    let read = parser.items();
    let Parser {
        tokens: rest,
        lambdas,
        ..
    } = parser;
    match read {
        Ok(
            Pieces {
                functions,
                statements,
            },
        ) => {
            if !rest.is_empty() {
                return Err(dead(tokens, rest.len()));
            }
            Ok(Program {
                functions,
                lambdas,
                statements,
            })
        }
        Err(stop) => match stop {
            Stop::Dead => Err(dead(tokens, rest.len())),
            Stop::Memory => Err(SyntaxFault::Memory),
        },
    }
}

/// The token is dead behind which so many are left before the end.
fn dead(tokens: &[Token], left: usize) -> SyntaxFault
    requires within { left < length tokens.now }
    requires counted { length tokens.now < 2 ^ 32 }
    ensures { IsFaultAt tokens.now (length tokens.now - 1 - left) result }
{
    let at = tokens.len() - 1 - left;
    SyntaxFault::Dead {
        token: at as u32,
        line: tokens[at].line,
    }
}

impl<'a> Parser<'a> {
    /// `function NAME` is next.
    fn defines(&self) -> bool
        ensures { result ≡ defines self.now.tokens.now }
    {
        match self.tokens {
            [first, second, ..] => token_number(first) == 9 && token_number(second) == 8,
            [_] => false,
            [] => false,
        }
    }

    /// A function definition. Its block has one level of nesting less.
    fn definition(&mut self) -> Result<Named, Stop>
        ensures { Gives it result self.new (definition 199 (state self.old)) }
    {
        let spot = self.keyword(Keyword::Function)?;
        let (name, _) = self.name()?;
        let params = self.parameters()?;
        let body = self.block_at(MOST_NESTING - 1)?;
        Ok(Named {
            line: spot.line,
            token: spot.token,
            name,
            function: Function { params, body },
        })
    }

    /// A definition or a statement.
    fn piece(&mut self) -> Result<Piece, Stop>
        ensures { Gives item_of result self.new (item 199 (state self.old)) }
    {
        if self.defines() {
            let found = self.definition()?;
            return Ok(Piece::Definition(found));
        }
        let found = self.statement_at(MOST_NESTING)?;
        Ok(Piece::Statement(found))
    }

    /// Definitions and statements, as long as the next token begins one.
    fn items(&mut self) -> Result<Pieces, Stop>
        ensures { Gives parts_in result self.new (program_parts (state self.old)) }
    {
        let mut found = Pieces::new(self.alloc);
        while self.begins_statement() {
            let piece = self.piece()?;
            found.add(piece)?;
        }
        Ok(found)
    }
}

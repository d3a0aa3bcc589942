//! The parts of a text in quotes, as far as they are read.

ghost use Rattle.std.specs.Prelude.{◌≡◌, [], ◌++◌, Err, IfOk, IfErr, OnOk};
ghost use Rattle.jx9_syntax.specs.Quoted.{variable};
ghost use Rattle.jx9_syntax.specs.Tokens.{PartsFit, quoted_kind};
ghost use Rattle.jx9_lex.specs.Built.{piece as spec_piece, all_parts, text_parts, IsOpen, Adds, CannotAdd, GivesKind, GivesParts};
ghost use Rattle.jx9_lex.specs.declared.stop.Stop.TheVariants.{Memory};

use crate::piece::Piece;
use crate::stop::Stop;
use crate::text::{new_text, own_text};
use jx9_syntax::{Part, Parts, TokenKind};
use std::alloc::Global;

/// The parts of a text in quotes that is being read.
#[derive(Drop)]
pub(crate) struct Builder {
    /// The parts that are whole. The last is a variable.
    parts: Vec<Part>,
    /// The bytes of the text behind them.
    pending: Vec<u8>,
}

impl Builder {
    pub(crate) fn new(alloc: Global) -> Builder
        ensures parts { result.parts.items ≡ [] }
        ensures pending { result.pending.items ≡ [] }
    {
        Builder {
            parts: Vec::new(alloc),
            pending: Vec::new(alloc),
        }
    }

    /// Puts bytes that stand for themselves to the end.
    pub(crate) fn push_bytes(&mut self, bytes: &[u8]) -> Result<(), Stop>
        ensures parts { self.new.parts ≡ self.old.parts }
        ensures ok { OnOk result (self.new.pending.items ≡ self.old.pending.items ++ bytes.now) }
        ensures err { IfErr result (λ e. e ≡ Memory) }
    {
        self.pending.extend_from_slice(bytes)?;
        Ok(())
    }

    /// With a piece at the end.
    pub(crate) fn with_piece(self, alloc: Global, piece: Piece<'_>) -> Result<Builder, Stop>
        ensures ok { IfOk result (Adds (spec_piece piece.entry) self) }
        ensures err { IfErr result (CannotAdd (spec_piece piece.entry) self.parts.items self.pending.items) }
    {
        match piece {
            Piece::Byte(byte) => {
                let Builder { parts, mut pending } = self;
                pending.push(byte)?;
                Ok(Builder { parts, pending })
            }
            Piece::Variable(name) => self.with_variable(alloc, name),
        }
    }

    /// With a variable at the end. The bytes before it are a part.
    fn with_variable(self, alloc: Global, name: &[u8]) -> Result<Builder, Stop>
        ensures ok { IfOk result (Adds (variable name.now) self) }
        ensures err { IfErr result (CannotAdd (variable name.now) self.parts.items self.pending.items) }
    {
        let Builder { parts, pending } = self;
        let mut parts = with_text(alloc, parts, pending)?;
        let name = new_text(alloc, name)?;
        parts.push(Part::Var(name))?;
        Ok(Builder {
            parts,
            pending: Vec::new(alloc),
        })
    }

    /// The token of a text of which all pieces are read.
    pub(crate) fn finish(self, alloc: Global) -> Result<TokenKind, Stop>
        requires fits { PartsFit self.parts.items }
        requires is_open { IsOpen self.parts.items }
        ensures { GivesKind (quoted_kind (all_parts self.parts.items self.pending.items [])) result }
    {
        let Builder { parts, pending } = self;
        if parts.is_empty() {
            return Ok(TokenKind::Text(own_text(alloc, pending)?));
        }
        let parts = with_text(alloc, parts, pending)?;
        Ok(TokenKind::Mixed(Parts::from_vec(parts)))
    }
}

/// The parts, and the text of the bytes behind them, where there are any.
fn with_text(alloc: Global, parts: Vec<Part>, pending: Vec<u8>) -> Result<Vec<Part>, Stop>
    ensures ok { IfOk result (λ all. all.items ≡ parts.items ++ text_parts pending.items) }
    ensures fits { OnOk result (PartsFit (text_parts pending.items)) }
    ensures err { IfErr result (λ e. GivesParts (text_parts pending.items) (Err e)) }
{
    if pending.is_empty() {
        return Ok(parts);
    }
    let mut parts = parts;
    parts.push(Part::Text(own_text(alloc, pending)?))?;
    Ok(parts)
}

//! Texts in quotes.

ghost use Rattle.std.specs.Prelude.{◌≡◌};
ghost use Rattle.jx9_syntax.specs.Tokens.{IsQuote, PartsFit};
ghost use Rattle.jx9_syntax.specs.Front.{quoted_at};
ghost use Rattle.jx9_lex.specs.Cuts.{CutsToken};
ghost use Rattle.jx9_lex.specs.Built.{closed_at, IsOpen};

use crate::builder::Builder;
use crate::class::{split_run, verbatim_class};
use crate::piece::first_piece;
use crate::stop::Stop;
use jx9_syntax::TokenKind;
use std::alloc::Global;

/// The text that this quote closes, here behind its opening quote, and what stands behind it.
pub(crate) fn quoted(alloc: Global, quote: u8, text: &[u8]) -> Result<(TokenKind, &[u8]), Stop>
    requires { IsQuote quote }
    ensures { CutsToken result (quoted_at quote text.now) }
{
    let class = verbatim_class(quote);
    let mut builder = Builder::new(alloc);
    let mut rest = text;
    'pieces: loop {
        let (verbatim, behind) = split_run(class, rest);
        builder.push_bytes(verbatim)?;
        let Some((piece, after)) = first_piece(quote, behind) else {
            return closed(alloc, builder, behind);
        };
        builder = builder.with_piece(alloc, piece)?;
        rest = after;
    }
}

/// The text of which no piece is left, and what stands behind its quote, which is next, unless the script ends.
fn closed(alloc: Global, builder: Builder, text: &[u8]) -> Result<(TokenKind, &[u8]), Stop>
    requires fits { PartsFit builder.parts.items }
    requires is_open { IsOpen builder.parts.items }
    ensures { CutsToken result (closed_at builder.parts.items builder.pending.items text.now) }
{
    let [_, rest @ ..] = text else {
        return Err(Stop::Bad);
    };
    let kind = builder.finish(alloc)?;
    Ok((kind, rest))
}

//! Lines of the output. Each stands on a line of its own.
ghost use Rattle.std.specs.Prelude.{◌≡◌, ◌++◌, ◌∷◌, [], ◌≤◌, IfOk};
ghost use Rattle.uq_facts.specs.Causes.{HasCause};
ghost use Rattle.uq_outside.specs.Streams.{PutAppends};
ghost use Rattle.uq_shell.specs.Line.{line_after, owed_feed};

use std::alloc::{AllocError, Global};
use uq_outside::{Sink, WriteFault};

/// Puts a text as a line behind the byte that was put last: in one piece, where there is memory for it.
pub fn put_line<O: Sink>(
    alloc: Global,
    text: &[u8],
    last: Option<u8>,
    out: &mut O,
) -> Result<(), WriteFault>
    ensures bytes { PutAppends (O.written out.old) (O.written out.new) result (line_after last text.now) }
    ensures cause { HasCause (O.faults out.old) (O.faults out.new) result }
{
    match line_behind(alloc, text, last) {
        Ok(line) => out.put(&line),
        Err(_) => put_pieces(text, last, out),
    }
}

/// The line of a text behind the byte that was put last.
fn line_behind(alloc: Global, text: &[u8], last: Option<u8>) -> Result<Vec<u8>, AllocError>
    ensures { IfOk result (λ line. line.items ≡ line_after last text.now) }
{
    let mut line = Vec::from_slice(alloc, feed_behind(last))?;
    line.extend_from_slice(text)?;
    line.push(b'\n')?;
    Ok(line)
}

/// The line feed that a line behind this byte needs before it.
fn feed_behind(last: Option<u8>) -> &'static [u8]
    ensures { result.now ≡ owed_feed last }
{
    match last {
        None | Some(b'\n') => b"",
        Some(_) => b"\n",
    }
}

/// The same line in three pieces, which takes no memory.
fn put_pieces<O: Sink>(text: &[u8], last: Option<u8>, out: &mut O) -> Result<(), WriteFault>
    ensures bytes { PutAppends (O.written out.old) (O.written out.new) result (line_after last text.now) }
    ensures cause { HasCause (O.faults out.old) (O.faults out.new) result }
{
    out.put(feed_behind(last))?;
    out.put(text)?;
    out.put(b"\n")
}

//! Moves of the cursor.
ghost use Rattle.std.specs.Prelude.{◌≡◌, None};
ghost use Rattle.uq_kv.specs.Cursor.{place_of};
ghost use Rattle.uq_kv.specs.Kv.{closed_of};
ghost use Rattle.uq_shell.specs.Moves.{FoundBy, Moves, Shows, place_by};

use std::alloc::Global;
use uq_kv::{Cursor, Kv, KvFault};
use uq_outside::Disk;

/// Where the cursor is moved to, in walk order.
#[derive(Clone, Copy, Debug)]
pub enum Move {
    First,
    Last,
    /// The first key behind its own.
    Next,
    /// The last key before its own.
    Prev,
}

/// Moves the cursor, and tells the key at which it is then.
///
/// `NoEntry` where there is no such key, which unsets it.
pub fn go<D: Disk>(
    alloc: Global,
    to: Move,
    kv: &mut Kv<'_, D>,
    cursor: &mut Cursor,
) -> Result<Vec<u8>, KvFault>
    requires { closed_of D.Disk kv.old ≡ None }
    ensures { Shows D.Disk (place_by to (place_of cursor.old)) kv.old kv.new (place_of cursor.new) result }
{
    match step(alloc, to, kv, cursor) {
        Ok(()) => kv.cursor_key(alloc, cursor),
        Err(fault) => Err(fault),
    }
}

fn step<D: Disk>(
    alloc: Global,
    to: Move,
    kv: &mut Kv<'_, D>,
    cursor: &mut Cursor,
) -> Result<(), KvFault>
    ensures { Moves D.Disk (FoundBy to (place_of cursor.old)) kv.old kv.new (place_of cursor.new) result }
{
    match to {
        Move::First => kv.cursor_first(alloc, cursor),
        Move::Last => kv.cursor_last(alloc, cursor),
        Move::Next => kv.cursor_next(alloc, cursor),
        Move::Prev => kv.cursor_prev(alloc, cursor),
    }
}

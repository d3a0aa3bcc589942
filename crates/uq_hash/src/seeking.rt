//! The search for a place in one page of a bucket.
ghost use Rattle.std.specs.Prelude.{◌≡◌, ◌+◌, ◌≤◌, ◌<◌, ◌^◌, ℕ, List, All, IfSome, IsSomeAnd, length};
ghost use Rattle.uq_page.specs.Page.{bytes_of};
ghost use Rattle.uq_page.specs.Cell.{IsKept, kept_len};
ghost use Rattle.uq_page.specs.declared.layout.TheConstants.{CELLS_AT, CELL_HEAD, PAGE_SIZE};
ghost use Rattle.uq_hash.specs.Map.{Stored, IsStored};
ghost use Rattle.uq_hash.specs.Place.{IsRank, IsSmall, IsSpot, entries_page, passes};
ghost use Rattle.uq_hash.specs.WalkOrder.{hash_start};

use crate::walk::{compare, rank_of};
use uq_page::{CELL_HEAD, CELLS_AT, Cell, Header, MOST_INLINE, Page, read_cell};

/// How far a search in walk order goes.
#[derive(Clone, Copy)]
pub(crate) enum Bound<'k> {
    /// Not past any key.
    Start,

    /// Past the keys before this one.
    Before(&'k [u8]),

    /// Past the keys before this one, and past it.
    Behind(&'k [u8]),

    /// Past all keys.
    End,
}

/// Where a search ends in a page.
#[derive(Clone, Copy)]
pub(crate) struct Spot {
    /// How many cells of the page are passed.
    pub index: u16,

    /// The byte behind them.
    pub at: u32,

    /// The byte where the last of them begins.
    pub last: u32,
}

/// The rank of the bound's key, where it has one.
fn rank_in(h: &Header, bound: Bound<'_>) -> u32
    ensures { IsRank (hash_start h.now) bound.entry result }
{
    match bound {
        Bound::Start => 0,
        Bound::Before(key) => rank_of(h, key),
        Bound::Behind(key) => rank_of(h, key),
        Bound::End => 0,
    }
}

/// Whether a key lies before the bound.
fn is_passed(h: &Header, rank: u32, bound: Bound<'_>, key: &[u8]) -> bool
    requires { IsRank (hash_start h.now) bound rank }
    ensures { result ≡ passes (hash_start h.now) bound.entry key.now }
{
    match bound {
        Bound::Start => false,
        Bound::Before(other) => compare(h, rank, other, key).is_gt(),
        Bound::Behind(other) => compare(h, rank, other, key).is_ge(),
        Bound::End => true,
    }
}

/// How many bytes a cell takes, of a key of at most 2^16 - 1 bytes.
pub(crate) fn size_of(cell: &Cell<'_>) -> u32
    requires key { length cell.now.key.now < 2 ^ 16 }
    requires kept { IsKept cell.now.len cell.now.value }
    ensures { result ≡ CELL_HEAD + length cell.now.key.now + kept_len cell.now.len }
{
    let kept = if cell.len <= MOST_INLINE as u32 {
        cell.len
    } else {
        4
    };
    (CELL_HEAD + cell.key.len()) as u32 + kept
}

/// Looks for the bound among the cells of a bucket page. `None` where a cell is none.
pub(crate) fn seek(h: &Header, page: &Page, cells: u16, bound: Bound<'_>) -> Option<Spot>
    ensures exact { (group : List Stored) (next : ℕ) → bytes_of page.now ≡ entries_page group next → cells ≡ length group → IsSmall group → All IsStored group
        → IsSomeAnd result (IsSpot (hash_start h.now) group bound.entry) }
    ensures index { IfSome result (λ spot. spot.index ≤ cells) }
    ensures low { IfSome result (λ spot. CELLS_AT ≤ spot.at) }
    ensures high { IfSome result (λ spot. spot.at ≤ PAGE_SIZE) }
{
    let rank = rank_in(h, bound);
    let mut at = CELLS_AT as u32;
    let mut last = at;
    for index in 0..cells {
        let cell = read_cell(page, at)?;
        if !is_passed(h, rank, bound, cell.key) {
            return Some(Spot { index, at, last });
        }
        last = at;
        at += size_of(&cell);
    }
    Some(Spot {
        index: cells,
        at,
        last,
    })
}

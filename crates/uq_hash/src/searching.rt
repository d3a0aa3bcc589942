//! The search for a place in a bucket, one page after another.
ghost use Rattle.std.specs.Prelude.{◌≡◌, ◌+◌, ◌≤◌, ◌<◌, ℕ, List, true, length, IfOk, IfSome, IsSomeAnd};
ghost use Rattle.uq_facts.specs.Causes.{UnlessErr};
ghost use Rattle.uq_chain.specs.Causes.{HasChainCause};
ghost use Rattle.uq_hash.specs.Bucket.{NoBucket, WhereChained};
ghost use Rattle.uq_hash.specs.Found.{Finds, IsHere, IsNear, IsWithin, Nears, NoPlace};
ghost use Rattle.uq_hash.specs.Map.{Stored};
ghost use Rattle.uq_hash.specs.Split.{last_key};
ghost use Rattle.uq_hash.specs.Standing.{IsKeyed, IsSound, IsStanding, front_of, has_cell, rest_of, standing_key};
ghost use Rattle.uq_hash.specs.declared.seeking.Bound.{Bound};
ghost use Rattle.uq_hash.specs.WalkOrder.{hash_start};

use crate::bucket_page::{BucketPage, read_bucket_page};
use crate::seeking::{Bound, Spot, seek};
use uq_page::{Cell, ChainFault, Header, Pages, read_cell};

/// A place in a bucket: behind the entries before some bound.
#[derive(Clone, Copy)]
pub(crate) struct Place {
    /// The page before that of the place, 0 where there is none.
    pub prev: u32,

    /// The page of the place.
    pub no: u32,
    pub it: BucketPage,

    /// Where the place is in it.
    pub spot: Spot,
}

/// Looks for the bound in the bucket that begins at page `first`. The place that is found has the first
/// entry behind the bound, where there is one, in its page.
pub(crate) fn search<P: Pages>(
    p: &mut P,
    h: &Header,
    first: u32,
    bound: Bound<'_>,
) -> Result<Place, ChainFault>
    requires { P.is_sound p.old ≡ true }
    ensures found { IfOk result (λ place. Finds (hash_start h.now) (P.pages p.old) first bound.entry place) }
    ensures within { IfOk result IsWithin }
    ensures there { IfOk result (λ place. place.no < P.size p.new) }
    ensures same { UnlessErr ChainFault.Failed result (P.pages p.new ≡ P.pages p.old) }
    ensures size { P.size p.new ≡ P.size p.old }
    ensures asked { WhereChained (hash_start h.now) (P.pages p.old) first (λ pages row cells. P.asked p.new ≤ P.asked p.old + length row) }
    ensures reads { P.only_reads p.old p.new }
    ensures cause { HasChainCause (NoBucket (hash_start h.now) (P.pages p.old) first) ⊥ (P.faults p.old) (P.faults p.new) (P.is_sound p.new) result }
{
    let mut prev = 0;
    let mut no = first;
    // No page of a row comes twice, so that there are no more than all.
    for _seen in 0..p.count() {
        let it = read_bucket_page(p, no)?;
        let spot = seek(h, &it.page, it.head.cells, bound).ok_or(ChainFault::Corrupt)?;
        if spot.index < it.head.cells || it.head.next == 0 {
            return Ok(Place { prev, no, it, spot });
        }
        prev = no;
        no = it.head.next;
    }
    Err(ChainFault::Corrupt)
}

/// What stands behind a place.
#[derive(Clone, Copy)]
pub(crate) enum Standing<'a> {
    Cell(Cell<'a>),

    /// The place is behind all entries, or another key stands there than the one asked for.
    Nothing,
}

/// Whether there is a cell.
pub(crate) fn is_cell(standing: Standing<'_>) -> bool
    ensures { result ≡ has_cell standing.entry }
{
    matches!(standing, Standing::Cell(_))
}

/// The cell behind a place. `None` where none lies where the page says so.
pub(crate) fn cell_at(place: &Place) -> Option<Standing<'_>>
    ensures kept { IfSome result IsSound }
    ensures exact { (start : ℕ) (pages : List (List ℕ)) (row : List ℕ) (cells : List Stored) (bound : Bound)
        (here : IsHere start pages row cells bound place.now)
        → IsSomeAnd result (IsStanding (rest_of here.found.stands)) }
{
    if place.spot.index == place.it.head.cells {
        return Some(Standing::Nothing);
    }
    let cell = read_cell(&place.it.page, place.spot.at)?;
    Some(Standing::Cell(cell))
}

/// The cell behind a place, where it is that of the key.
pub(crate) fn key_cell<'a>(place: &'a Place, key: &[u8]) -> Option<Standing<'a>>
    ensures kept { IfSome result IsSound }
    ensures exact { (start : ℕ) (pages : List (List ℕ)) (row : List ℕ) (cells : List Stored) (bound : Bound)
        (here : IsHere start pages row cells bound place.entry.now)
        → IsSomeAnd result (IsKeyed (rest_of here.found.stands) key.now) }
{
    match cell_at(place)? {
        Standing::Cell(cell) => {
            if cell.key == key {
                Some(Standing::Cell(cell))
            } else {
                Some(Standing::Nothing)
            }
        }
        Standing::Nothing => Some(Standing::Nothing),
    }
}

/// The cell before a place, in the page of that cell. `None` where none lies where the page says so.
pub(crate) fn cell_before(place: &Place) -> Option<Standing<'_>>
    ensures { (start : ℕ) (pages : List (List ℕ)) (row : List ℕ) (cells : List Stored) (bound : Bound) (near : IsNear start pages row cells bound place.now)
        → IsSomeAnd result (λ standing. standing_key standing ≡ last_key (front_of near.found.stands)) }
{
    if place.spot.index == 0 {
        return Some(Standing::Nothing);
    }
    let cell = read_cell(&place.it.page, place.spot.last)?;
    Some(Standing::Cell(cell))
}

/// The same place in the page of the entry before it, where there is one.
pub(crate) fn step_back<P: Pages>(p: &mut P, h: &Header, place: Place) -> Result<Place, ChainFault>
    requires { P.is_sound p.old ≡ true }
    ensures near { IfOk result (λ near. Nears (hash_start h.now) (P.pages p.old) place near) }
    ensures within { IsWithin place → IfOk result IsWithin }
    ensures there { place.no < P.size p.old → IfOk result (λ near. near.no < P.size p.new) }
    ensures same { UnlessErr ChainFault.Failed result (P.pages p.new ≡ P.pages p.old) }
    ensures size { P.size p.new ≡ P.size p.old }
    ensures reads { P.only_reads p.old p.new }
    ensures cause { HasChainCause (NoPlace (hash_start h.now) (P.pages p.old) place) ⊥ (P.faults p.old) (P.faults p.new) (P.is_sound p.new) result }
{
    if place.spot.index > 0 || place.prev == 0 {
        return Ok(place);
    }
    let it = read_bucket_page(p, place.prev)?;
    let spot = seek(h, &it.page, it.head.cells, Bound::End).ok_or(ChainFault::Corrupt)?;
    Ok(Place {
        prev: 0,
        no: place.prev,
        it,
        spot,
    })
}

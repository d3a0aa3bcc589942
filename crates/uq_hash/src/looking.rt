//! A key looked for once, for the call that goes on from its place.
ghost use Rattle.std.specs.Prelude.{◌≡◌, ◌+◌, ◌≤◌, ◌<◌, All, true, length, IfOk, IfSome, IsSomeAnd};
ghost use Rattle.std.specs.Option.{option_map};
ghost use Rattle.std.specs.FinMap as map;
ghost use Rattle.uq_facts.specs.Causes.{UnlessErr};
ghost use Rattle.uq_hash.specs.Causes.{HasMapCause};
ghost use Rattle.uq_hash.specs.Found.{IsWithin};
ghost use Rattle.uq_hash.specs.Looks.{IsLook};
ghost use Rattle.uq_hash.specs.Lying.{IsCut};
ghost use Rattle.uq_hash.specs.Map.{WhereHeld};
ghost use Rattle.uq_hash.specs.Open.{Opens};
ghost use Rattle.uq_hash.specs.Standing.{standing_len};

use crate::directory::first_page;
use crate::gathering::gather;
use crate::opening::Open;
use crate::searching::{Place, Standing, key_cell, search, step_back};
use crate::seeking::Bound;
use std::alloc::Global;
use uq_page::{ChainFault, Header, Pages};

/// The place of a key in the pages, and how long the key's value is.
///
/// A call that takes it goes on from there without another search. Its condition is that the pages and the
/// header are still those in which the key was looked for.
#[derive(Clone, Copy)]
pub struct Look<'k> {
    pub(crate) key: &'k [u8],
    pub(crate) place: Place,
    pub(crate) len: Option<u32>,
}

impl Look<'_> {
    /// How many bytes the value of the key has, where the key is there.
    pub fn len(&self) -> Option<u32>
        ensures { result ≡ self.now.len }
    {
        self.len
    }
}

/// How long the value of a cell is.
fn len_of(standing: Standing<'_>) -> Option<u32>
    ensures { result ≡ standing_len standing.entry }
{
    match standing {
        Standing::Cell(cell) => Some(cell.len),
        Standing::Nothing => None,
    }
}

/// Looks for a key, in its bucket alone, and leaves the pages as they are.
pub fn look_for<'k, P: Pages>(p: &mut P, h: &Header, key: &'k [u8]) -> Result<Look<'k>, ChainFault>
    requires { P.is_sound p.old ≡ true }
    ensures looks { IfOk result (IsLook (P.pages p.new) (P.size p.new) h.now) }
    ensures key { IfOk result (λ it. it.key.now ≡ key.now) }
    ensures len { IfOk result (λ it. WhereHeld (P.pages p.old) h.now (λ m. it.len ≡ option_map length (map.get m key.now))) }
    ensures same { UnlessErr ChainFault.Failed result (P.pages p.new ≡ P.pages p.old) }
    ensures size { P.size p.new ≡ P.size p.old }
    ensures reads { P.only_reads p.old p.new }
    ensures cause { HasMapCause (P.pages p.old) h.now (P.faults p.old) (P.faults p.new) (P.is_sound p.new) result }
{
    let first = first_page(p, h, key)?;
    let place = search(p, h, first, Bound::Before(key))?;
    let old = key_cell(&place, key).ok_or(ChainFault::Corrupt)?;
    let len = len_of(old);
    Ok(Look { key, place, len })
}

/// Opens the place of the key that was looked for, for a change there.
pub(crate) fn open_at<P: Pages>(
    alloc: Global,
    p: &mut P,
    h: &Header,
    at: &Look<'_>,
) -> Result<Open, ChainFault>
    requires sound { P.is_sound p.old ≡ true }
    requires looks { IsLook (P.pages p.old) (P.size p.old) h.now at.now }
    ensures opened { IfOk result (λ it. Opens (P.pages p.old) h.now at.now.key it) }
    ensures within { IfOk result (λ it. IsWithin it.near) }
    ensures cut { IfOk result (λ it. IsCut it.rest.sizes.items it.rest.bytes.items) }
    ensures there { IfOk result (λ it. All (λ n. (1 ≤ n) × (n < P.size p.old)) it.rest.row.items) }
    ensures some { IfOk result (λ it. 1 ≤ length it.rest.row.items) }
    ensures same { UnlessErr ChainFault.Failed result (P.pages p.new ≡ P.pages p.old) }
    ensures size { P.size p.new ≡ P.size p.old }
    ensures reads { P.only_reads p.old p.new }
    ensures cause { HasMapCause (P.pages p.old) h.now (P.faults p.old) (P.faults p.new) (P.is_sound p.new) result }
{
    let place = at.place;
    let near = step_back(p, h, place)?;
    let rest = gather(alloc, p, &near)?;
    Ok(Open { place, near, rest })
}

//! The walk over the keys.
ghost use Rattle.std.specs.Prelude.{◌≡◌, true, IfOk, Some};
ghost use Rattle.std.specs.Option.{option_map};
ghost use Rattle.std.specs.declared.cmp.Ordering.{Ordering};
ghost use Rattle.uq_facts.specs.Causes.{UnlessErr};
ghost use Rattle.uq_chain.specs.Causes.{HasChainCause};
ghost use Rattle.uq_hash.specs.Bucket.{NoBucket};
ghost use Rattle.uq_hash.specs.Causes.{HasMapCause};
ghost use Rattle.uq_hash.specs.Map.{WhereHeld};
ghost use Rattle.uq_hash.specs.Split.{GivesBefore, GivesBehind};
ghost use Rattle.uq_hash.specs.Standing.{standing_key};
ghost use Rattle.uq_hash.specs.Walk.{Any, GivesFirst, GivesLast};
ghost use Rattle.uq_hash.specs.WalkOrder.{hash_start, walk_cmp};

use crate::directory::only_page;
use crate::searching::{Standing, cell_at, cell_before, search, step_back};
use crate::seeking::Bound;
use std::alloc::Global;
use uq_page::{ChainFault, Header, Pages};

/// The key of what stands at a place.
fn key_of(alloc: Global, standing: Standing<'_>) -> Result<Option<Vec<u8>>, ChainFault>
    ensures key { IfOk result (λ found. option_map (λ key. key.items) found ≡ standing_key standing.entry) }
    ensures cause { HasChainCause ⊥ ⊥ 0 0 true result }
{
    match standing {
        Standing::Cell(cell) => match Vec::from_slice(alloc, cell.key) {
            Ok(key) => Ok(Some(key)),
            Err(_) => Err(ChainFault::Memory),
        },
        Standing::Nothing => Ok(None),
    }
}

/// The first key behind the bound, in the bucket that begins at page `first`.
fn key_behind<P: Pages>(
    alloc: Global,
    p: &mut P,
    h: &Header,
    first: u32,
    bound: Bound<'_>,
) -> Result<Option<Vec<u8>>, ChainFault>
    requires { P.is_sound p.old ≡ true }
    ensures found { IfOk result (λ found. GivesBehind (hash_start h.now) (P.pages p.old) first bound.entry (option_map (λ key. key.items) found)) }
    ensures same { UnlessErr ChainFault.Failed result (P.pages p.new ≡ P.pages p.old) }
    ensures size { P.size p.new ≡ P.size p.old }
    ensures reads { P.only_reads p.old p.new }
    ensures cause { HasChainCause (NoBucket (hash_start h.now) (P.pages p.old) first) ⊥ (P.faults p.old) (P.faults p.new) (P.is_sound p.new) result }
{
    let place = search(p, h, first, bound)?;
    let standing = cell_at(&place).ok_or(ChainFault::Corrupt)?;
    key_of(alloc, standing)
}

/// The last key before the bound, in the bucket that begins at page `first`.
fn key_before<P: Pages>(
    alloc: Global,
    p: &mut P,
    h: &Header,
    first: u32,
    bound: Bound<'_>,
) -> Result<Option<Vec<u8>>, ChainFault>
    requires { P.is_sound p.old ≡ true }
    ensures found { IfOk result (λ found. GivesBefore (hash_start h.now) (P.pages p.old) first bound.entry (option_map (λ key. key.items) found)) }
    ensures same { UnlessErr ChainFault.Failed result (P.pages p.new ≡ P.pages p.old) }
    ensures size { P.size p.new ≡ P.size p.old }
    ensures reads { P.only_reads p.old p.new }
    ensures cause { HasChainCause (NoBucket (hash_start h.now) (P.pages p.old) first) ⊥ (P.faults p.old) (P.faults p.new) (P.is_sound p.new) result }
{
    let place = search(p, h, first, bound)?;
    let near = step_back(p, h, place)?;
    let standing = cell_before(&near).ok_or(ChainFault::Corrupt)?;
    key_of(alloc, standing)
}

/// The first key in walk order.
pub fn first<P: Pages>(alloc: Global, p: &mut P, h: &Header) -> Result<Option<Vec<u8>>, ChainFault>
    requires { P.is_sound p.old ≡ true }
    ensures found { IfOk result (λ found. WhereHeld (P.pages p.old) h.now (λ m. GivesFirst (hash_start h.now) m Any (option_map (λ key. key.items) found))) }
    ensures same { UnlessErr ChainFault.Failed result (P.pages p.new ≡ P.pages p.old) }
    ensures size { P.size p.new ≡ P.size p.old }
    ensures reads { P.only_reads p.old p.new }
    ensures cause { HasMapCause (P.pages p.old) h.now (P.faults p.old) (P.faults p.new) (P.is_sound p.new) result }
{
    let page = only_page(p, h)?;
    key_behind(alloc, p, h, page, Bound::Start)
}

/// The last key in walk order.
pub fn last<P: Pages>(alloc: Global, p: &mut P, h: &Header) -> Result<Option<Vec<u8>>, ChainFault>
    requires { P.is_sound p.old ≡ true }
    ensures found { IfOk result (λ found. WhereHeld (P.pages p.old) h.now (λ m. GivesLast (hash_start h.now) m Any (option_map (λ key. key.items) found))) }
    ensures same { UnlessErr ChainFault.Failed result (P.pages p.new ≡ P.pages p.old) }
    ensures size { P.size p.new ≡ P.size p.old }
    ensures reads { P.only_reads p.old p.new }
    ensures cause { HasMapCause (P.pages p.old) h.now (P.faults p.old) (P.faults p.new) (P.is_sound p.new) result }
{
    let page = only_page(p, h)?;
    key_before(alloc, p, h, page, Bound::End)
}

/// The first key behind this one, which itself need not be there.
pub fn next_after<P: Pages>(
    alloc: Global,
    p: &mut P,
    h: &Header,
    key: &[u8],
) -> Result<Option<Vec<u8>>, ChainFault>
    requires { P.is_sound p.old ≡ true }
    ensures found { IfOk result (λ found. WhereHeld (P.pages p.old) h.now (λ m.
        GivesFirst (hash_start h.now) m (λ other. walk_cmp (hash_start h.now) key.now other ≡ Ordering.Less) (option_map (λ key. key.items) found))) }
    ensures same { UnlessErr ChainFault.Failed result (P.pages p.new ≡ P.pages p.old) }
    ensures size { P.size p.new ≡ P.size p.old }
    ensures reads { P.only_reads p.old p.new }
    ensures cause { HasMapCause (P.pages p.old) h.now (P.faults p.old) (P.faults p.new) (P.is_sound p.new) result }
{
    let page = only_page(p, h)?;
    key_behind(alloc, p, h, page, Bound::Behind(key))
}

/// The last key before this one, which itself need not be there.
pub fn before<P: Pages>(
    alloc: Global,
    p: &mut P,
    h: &Header,
    key: &[u8],
) -> Result<Option<Vec<u8>>, ChainFault>
    requires { P.is_sound p.old ≡ true }
    ensures found { IfOk result (λ found. WhereHeld (P.pages p.old) h.now (λ m.
        GivesLast (hash_start h.now) m (λ other. walk_cmp (hash_start h.now) other key.now ≡ Ordering.Less) (option_map (λ key. key.items) found))) }
    ensures same { UnlessErr ChainFault.Failed result (P.pages p.new ≡ P.pages p.old) }
    ensures size { P.size p.new ≡ P.size p.old }
    ensures reads { P.only_reads p.old p.new }
    ensures cause { HasMapCause (P.pages p.old) h.now (P.faults p.old) (P.faults p.new) (P.is_sound p.new) result }
{
    let page = only_page(p, h)?;
    key_before(alloc, p, h, page, Bound::Before(key))
}

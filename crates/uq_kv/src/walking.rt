//! The user's keys in walk order. Those of collections stand between them and are passed over.
ghost use Rattle.std.specs.Prelude.{◌≡◌, ◌≤◌, Bool, List, ℕ, drop, true, IfOk, IfSome};
ghost use Rattle.std.specs.Option.{option_map};
ghost use Rattle.std.specs.FinMap.{contains_key};
ghost use Rattle.uq_facts.specs.Causes.{UnlessErr};
ghost use Rattle.uq_hash.specs.Walk.{GivesFirst, GivesLast};
ghost use Rattle.uq_kv.specs.Database.{WhereStored};
ghost use Rattle.uq_kv.specs.Users.{FirstOf, IsDownward, IsOfKeys, IsUpward, LastOf, NextOf, PrevOf, is_of_keys, key_where, walk_start};
ghost use Rattle.uq_kv.specs.Stored.{stored_key};
ghost use Rattle.uq_kv.specs.Writing.{HasStoreCause};

use crate::Space;
use crate::space::stored_key;
use std::alloc::Global;
use uq_hash::{before, first, last, look_for, next_after};
use uq_model::MOST_ENTRIES;
use uq_page::{ChainFault, Header, Pages};

/// Whether a stored key is the user's.
fn is_users(stored: &[u8]) -> bool
    ensures { result ≡ is_of_keys stored.now }
{
    !stored.is_empty() && stored[0] == b'K'
}

/// Whether a stored key is there.
pub(crate) fn is_there<P: Pages>(
    p: &mut P,
    header: &Header,
    stored: &[u8],
) -> Result<bool, ChainFault>
    requires { P.is_sound p.old ≡ true }
    ensures there { IfOk result (λ there. WhereStored (P.pages p.old) header.now (λ entries. there ≡ contains_key entries stored.now)) }
    ensures reads { P.only_reads p.old p.new }
    ensures same { UnlessErr ChainFault.Failed result (P.pages p.new ≡ P.pages p.old) }
    ensures cause { HasStoreCause (P.pages p.old) header.now (P.faults p.old) (P.faults p.new) (P.is_sound p.new) result }
{
    if p.count() == 0 {
        return Ok(false);
    }
    let at = look_for(p, header, stored)?;
    Ok(at.len().is_some())
}

/// The stored key of a user's key, where it is there.
pub(crate) fn present_key<P: Pages>(
    alloc: Global,
    p: &mut P,
    header: &Header,
    key: &[u8],
) -> Result<Option<Vec<u8>>, ChainFault>
    requires { P.is_sound p.old ≡ true }
    ensures found { IfOk result (λ found. WhereStored (P.pages p.old) header.now (λ entries. option_map (λ stored. stored.items) found ≡ key_where (contains_key entries (stored_key Space.Keys key.now)) (stored_key Space.Keys key.now))) }
    ensures users { IfOk result (λ found. IfSome found (λ stored. stored.items ≡ stored_key Space.Keys key.now)) }
    ensures reads { P.only_reads p.old p.new }
    ensures same { UnlessErr ChainFault.Failed result (P.pages p.new ≡ P.pages p.old) }
    ensures cause { HasStoreCause (P.pages p.old) header.now (P.faults p.old) (P.faults p.new) (P.is_sound p.new) result }
{
    let Ok(stored) = stored_key(alloc, Space::Keys, key) else {
        return Err(ChainFault::Memory);
    };
    let there = is_there(p, header, &stored)?;
    if there { Ok(Some(stored)) } else { Ok(None) }
}

/// The user's key of a stored key, where that is there.
pub(crate) fn there_key<P: Pages>(
    alloc: Global,
    p: &mut P,
    header: &Header,
    stored: &[u8],
) -> Result<Option<Vec<u8>>, ChainFault>
    requires sound { P.is_sound p.old ≡ true }
    requires users { IsOfKeys stored.now }
    ensures found { IfOk result (λ found. WhereStored (P.pages p.old) header.now (λ entries. option_map (λ key. key.items) found ≡ key_where (contains_key entries stored.now) (drop 1 stored.now))) }
    ensures key { IfOk result (λ found. IfSome found (λ key. key.items ≡ drop 1 stored.now)) }
    ensures reads { P.only_reads p.old p.new }
    ensures same { UnlessErr ChainFault.Failed result (P.pages p.new ≡ P.pages p.old) }
    ensures cause { HasStoreCause (P.pages p.old) header.now (P.faults p.old) (P.faults p.new) (P.is_sound p.new) result }
{
    let there = is_there(p, header, stored)?;
    if !there {
        return Ok(None);
    }
    match Vec::from_slice(alloc, &stored[1..]) {
        Ok(key) => Ok(Some(key)),
        Err(_) => Err(ChainFault::Memory),
    }
}

/// The first key of the user from this stored key on.
fn onward<P: Pages>(
    alloc: Global,
    p: &mut P,
    header: &Header,
    start: Option<Vec<u8>>,
) -> Result<Option<Vec<u8>>, ChainFault>
    requires sound { P.is_sound p.old ≡ true }
    requires some { 1 ≤ P.size p.old }
    ensures found { IfOk result (λ found. WhereStored (P.pages p.old) header.now (λ entries. (Q : List ℕ → Bool) → IsUpward Q
        → GivesFirst walk_start entries (λ key. Q key ≡ true) (option_map (λ key. key.items) start)
        → GivesFirst walk_start entries (λ key. (Q key ≡ true) × IsOfKeys key) (option_map (λ key. key.items) found))) }
    ensures users { IfOk result (λ found. IfSome found (λ key. IsOfKeys key.items)) }
    ensures reads { P.only_reads p.old p.new }
    ensures same { UnlessErr ChainFault.Failed result (P.pages p.new ≡ P.pages p.old) }
    ensures cause { HasStoreCause (P.pages p.old) header.now (P.faults p.old) (P.faults p.new) (P.is_sound p.new) result }
{
    let mut at = start;
    // Each step leaves one key more behind, so that there are the start, no more steps than keys, and the end.
    for _passed in 0..header.entries.min(MOST_ENTRIES) + 2 {
        match at {
            Some(stored) => {
                if is_users(&stored) {
                    return Ok(Some(stored));
                }
                at = next_after(alloc, p, header, &stored)?;
            }
            None => return Ok(None),
        }
    }
    Err(ChainFault::Corrupt)
}

/// The last key of the user up to this stored key.
fn backward<P: Pages>(
    alloc: Global,
    p: &mut P,
    header: &Header,
    start: Option<Vec<u8>>,
) -> Result<Option<Vec<u8>>, ChainFault>
    requires sound { P.is_sound p.old ≡ true }
    requires some { 1 ≤ P.size p.old }
    ensures found { IfOk result (λ found. WhereStored (P.pages p.old) header.now (λ entries. (Q : List ℕ → Bool) → IsDownward Q
        → GivesLast walk_start entries (λ key. Q key ≡ true) (option_map (λ key. key.items) start)
        → GivesLast walk_start entries (λ key. (Q key ≡ true) × IsOfKeys key) (option_map (λ key. key.items) found))) }
    ensures users { IfOk result (λ found. IfSome found (λ key. IsOfKeys key.items)) }
    ensures reads { P.only_reads p.old p.new }
    ensures same { UnlessErr ChainFault.Failed result (P.pages p.new ≡ P.pages p.old) }
    ensures cause { HasStoreCause (P.pages p.old) header.now (P.faults p.old) (P.faults p.new) (P.is_sound p.new) result }
{
    let mut at = start;
    for _passed in 0..header.entries.min(MOST_ENTRIES) + 2 {
        match at {
            Some(stored) => {
                if is_users(&stored) {
                    return Ok(Some(stored));
                }
                at = before(alloc, p, header, &stored)?;
            }
            None => return Ok(None),
        }
    }
    Err(ChainFault::Corrupt)
}

/// The first key of the user.
pub(crate) fn first_key<P: Pages>(
    alloc: Global,
    p: &mut P,
    header: &Header,
) -> Result<Option<Vec<u8>>, ChainFault>
    requires { P.is_sound p.old ≡ true }
    ensures found { IfOk result (λ found. WhereStored (P.pages p.old) header.now (λ entries. FirstOf entries (option_map (λ key. key.items) found))) }
    ensures users { IfOk result (λ found. IfSome found (λ key. IsOfKeys key.items)) }
    ensures reads { P.only_reads p.old p.new }
    ensures same { UnlessErr ChainFault.Failed result (P.pages p.new ≡ P.pages p.old) }
    ensures cause { HasStoreCause (P.pages p.old) header.now (P.faults p.old) (P.faults p.new) (P.is_sound p.new) result }
{
    if p.count() == 0 {
        return Ok(None);
    }
    let start = first(alloc, p, header)?;
    onward(alloc, p, header, start)
}

/// The last key of the user.
pub(crate) fn last_key<P: Pages>(
    alloc: Global,
    p: &mut P,
    header: &Header,
) -> Result<Option<Vec<u8>>, ChainFault>
    requires { P.is_sound p.old ≡ true }
    ensures found { IfOk result (λ found. WhereStored (P.pages p.old) header.now (λ entries. LastOf entries (option_map (λ key. key.items) found))) }
    ensures users { IfOk result (λ found. IfSome found (λ key. IsOfKeys key.items)) }
    ensures reads { P.only_reads p.old p.new }
    ensures same { UnlessErr ChainFault.Failed result (P.pages p.new ≡ P.pages p.old) }
    ensures cause { HasStoreCause (P.pages p.old) header.now (P.faults p.old) (P.faults p.new) (P.is_sound p.new) result }
{
    if p.count() == 0 {
        return Ok(None);
    }
    let start = last(alloc, p, header)?;
    backward(alloc, p, header, start)
}

/// The first key of the user behind this stored key, which itself need not be there.
pub(crate) fn key_behind<P: Pages>(
    alloc: Global,
    p: &mut P,
    header: &Header,
    stored: &[u8],
) -> Result<Option<Vec<u8>>, ChainFault>
    requires { P.is_sound p.old ≡ true }
    ensures found { IfOk result (λ found. WhereStored (P.pages p.old) header.now (λ entries. NextOf stored.now entries (option_map (λ key. key.items) found))) }
    ensures users { IfOk result (λ found. IfSome found (λ key. IsOfKeys key.items)) }
    ensures reads { P.only_reads p.old p.new }
    ensures same { UnlessErr ChainFault.Failed result (P.pages p.new ≡ P.pages p.old) }
    ensures cause { HasStoreCause (P.pages p.old) header.now (P.faults p.old) (P.faults p.new) (P.is_sound p.new) result }
{
    if p.count() == 0 {
        return Ok(None);
    }
    let start = next_after(alloc, p, header, stored)?;
    onward(alloc, p, header, start)
}

/// The last key of the user before this stored key, which itself need not be there.
pub(crate) fn key_before<P: Pages>(
    alloc: Global,
    p: &mut P,
    header: &Header,
    stored: &[u8],
) -> Result<Option<Vec<u8>>, ChainFault>
    requires { P.is_sound p.old ≡ true }
    ensures found { IfOk result (λ found. WhereStored (P.pages p.old) header.now (λ entries. PrevOf stored.now entries (option_map (λ key. key.items) found))) }
    ensures users { IfOk result (λ found. IfSome found (λ key. IsOfKeys key.items)) }
    ensures reads { P.only_reads p.old p.new }
    ensures same { UnlessErr ChainFault.Failed result (P.pages p.new ≡ P.pages p.old) }
    ensures cause { HasStoreCause (P.pages p.old) header.now (P.faults p.old) (P.faults p.new) (P.is_sound p.new) result }
{
    if p.count() == 0 {
        return Ok(None);
    }
    let start = before(alloc, p, header, stored)?;
    backward(alloc, p, header, start)
}

//! A key put into the map.
ghost use Rattle.std.specs.Prelude.{◌≡◌, ◌+◌, ◌≤◌, ◌<◌, ◌^◌, true, length, OnOk, IfOk, is_some};
ghost use Rattle.std.specs.Option.{ForSome};
ghost use Rattle.std.specs.FinMap as map;
ghost use Rattle.uq_facts.specs.Causes.{UnlessErr};
ghost use Rattle.uq_chain.specs.FreeList.{KeepsCount};
ghost use Rattle.uq_hash.specs.Causes.{HasMapCause};
ghost use Rattle.uq_hash.specs.Looks.{IsLook};
ghost use Rattle.uq_hash.specs.Map.{HoldsMap, WhereHeld};

use crate::encoding::encode;
use crate::laying::lay;
use crate::looking::{Look, look_for, open_at};
use crate::recounting::recount;
use crate::searching::{is_cell, key_cell};
use crate::storing::{drop_old, store_value};
use std::alloc::Global;
use uq_page::{ChainFault, Header, Pages};

/// Gives the key that was looked for this value, and answers whether the key was there.
///
/// As `insert`, without another search.
pub fn insert_at<P: Pages>(
    alloc: Global,
    p: &mut P,
    h: &mut Header,
    at: &Look<'_>,
    value: &[u8],
) -> Result<bool, ChainFault>
    requires sound { P.is_sound p.old ≡ true }
    requires looks { IsLook (P.pages p.old) (P.size p.old) h.old at.now }
    requires key { 1 ≤ length at.now.key.now }
    requires key_end { length at.now.key.now ≤ 3001 }
    requires value { length value.now ≤ 2 ^ 24 }
    requires entries { h.old.entries ≤ 2 ^ 25 }
    requires bytes { h.old.bytes ≤ 2 ^ 31 }
    ensures there { IfOk result (λ there. WhereHeld (P.pages p.old) h.old (λ m. there ≡ map.contains_key m at.now.key.now)) }
    ensures inserted { OnOk result (WhereHeld (P.pages p.old) h.old (λ m.
        ForSome (P.pages p.new) (λ pages. HoldsMap pages h.new (map.insert m at.now.key.now value.now)))) }
    ensures version { OnOk result (h.new.version ≡ h.old.version) }
    ensures buckets { OnOk result (h.new.buckets ≡ h.old.buckets) }
    ensures root { OnOk result (h.new.root ≡ h.old.root) }
    ensures count { OnOk result (KeepsCount h.old h.new (P.size p.old) (P.size p.new)) }
    ensures told { UnlessErr ChainFault.Failed result (is_some (P.pages p.new) ≡ is_some (P.pages p.old)) }
    ensures size { P.size p.old ≤ P.size p.new }
    ensures keeps { P.keeps p.old p.new }
    ensures cause { HasMapCause (P.pages p.old) h.old (P.faults p.old) (P.faults p.new) (P.is_sound p.new) result }
{
    let opened = open_at(alloc, p, h, at)?;
    let old = key_cell(&opened.place, at.key).ok_or(ChainFault::Corrupt)?;
    let is_there = is_cell(old);
    let kept = store_value(p, h, value)?;
    let cell = encode(alloc, at.key, value, kept)?;
    lay(alloc, p, h, &opened, is_there, Some(&cell))?;
    drop_old(p, h, old)?;
    recount(h, old, at.key, value)?;
    Ok(is_there)
}

/// Gives the key this value, and answers whether the key was there.
///
/// Where the pages hold a map with `h`, they hold with the new `h` the map with this one change. After a
/// refusal nothing is said of the pages and of `h`.
pub fn insert<P: Pages>(
    alloc: Global,
    p: &mut P,
    h: &mut Header,
    key: &[u8],
    value: &[u8],
) -> Result<bool, ChainFault>
    requires sound { P.is_sound p.old ≡ true }
    requires key { 1 ≤ length key.now }
    requires key_end { length key.now ≤ 3001 }
    requires value { length value.now ≤ 2 ^ 24 }
    requires entries { h.old.entries ≤ 2 ^ 25 }
    requires bytes { h.old.bytes ≤ 2 ^ 31 }
    ensures there { IfOk result (λ there. WhereHeld (P.pages p.old) h.old (λ m. there ≡ map.contains_key m key.now)) }
    ensures inserted { OnOk result (WhereHeld (P.pages p.old) h.old (λ m.
        ForSome (P.pages p.new) (λ pages. HoldsMap pages h.new (map.insert m key.now value.now)))) }
    ensures version { OnOk result (h.new.version ≡ h.old.version) }
    ensures buckets { OnOk result (h.new.buckets ≡ h.old.buckets) }
    ensures root { OnOk result (h.new.root ≡ h.old.root) }
    ensures count { OnOk result (KeepsCount h.old h.new (P.size p.old) (P.size p.new)) }
    ensures told { UnlessErr ChainFault.Failed result (is_some (P.pages p.new) ≡ is_some (P.pages p.old)) }
    ensures size { P.size p.old ≤ P.size p.new }
    ensures keeps { P.keeps p.old p.new }
    ensures cause { HasMapCause (P.pages p.old) h.old (P.faults p.old) (P.faults p.new) (P.is_sound p.new) result }
{
    let at = look_for(p, h, key)?;
    insert_at(alloc, p, h, &at, value)
}

//! A key taken out of the map.
ghost use Rattle.std.specs.Prelude.{◌≡◌, ◌≤◌, true, OnOk, IfOk, is_some};
ghost use Rattle.std.specs.Option.{ForSome};
ghost use Rattle.std.specs.FinMap as map;
ghost use Rattle.uq_facts.specs.Causes.{UnlessErr};
ghost use Rattle.uq_chain.specs.FreeList.{KeepsCount};
ghost use Rattle.uq_hash.specs.Causes.{HasMapCause};
ghost use Rattle.uq_hash.specs.Looks.{IsLook};
ghost use Rattle.uq_hash.specs.Map.{HoldsMap, WhereHeld};

use crate::laying::lay;
use crate::looking::{Look, look_for, open_at};
use crate::recounting::discount;
use crate::searching::{Standing, key_cell};
use crate::storing::drop_value;
use std::alloc::Global;
use uq_page::{ChainFault, Header, Pages};

/// Takes the key that was looked for out of the map, and answers whether it was there.
///
/// As `remove`, without another search.
pub fn remove_at<P: Pages>(
    alloc: Global,
    p: &mut P,
    h: &mut Header,
    at: &Look<'_>,
) -> Result<bool, ChainFault>
    requires sound { P.is_sound p.old ≡ true }
    requires looks { IsLook (P.pages p.old) (P.size p.old) h.old at.now }
    ensures there { IfOk result (λ there. WhereHeld (P.pages p.old) h.old (λ m. there ≡ map.contains_key m at.now.key.now)) }
    ensures removed { OnOk result (WhereHeld (P.pages p.old) h.old (λ m. ForSome (P.pages p.new) (λ pages. HoldsMap pages h.new (map.remove m at.now.key.now)))) }
    ensures version { OnOk result (h.new.version ≡ h.old.version) }
    ensures buckets { OnOk result (h.new.buckets ≡ h.old.buckets) }
    ensures root { OnOk result (h.new.root ≡ h.old.root) }
    ensures count { OnOk result (KeepsCount h.old h.new (P.size p.old) (P.size p.new)) }
    ensures told { UnlessErr ChainFault.Failed result (is_some (P.pages p.new) ≡ is_some (P.pages p.old)) }
    ensures size { P.size p.old ≤ P.size p.new }
    ensures keeps { P.keeps p.old p.new }
    ensures cause { HasMapCause (P.pages p.old) h.old (P.faults p.old) (P.faults p.new) (P.is_sound p.new) result }
{
    let opened = open_at(alloc, p, h, at)?;
    let old = key_cell(&opened.place, at.key).ok_or(ChainFault::Corrupt)?;
    let cell = match old {
        Standing::Cell(cell) => cell,
        Standing::Nothing => return Ok(false),
    };
    lay(alloc, p, h, &opened, true, None)?;
    drop_value(p, h, cell.len, cell.value)?;
    discount(h, at.key, cell.len)?;
    Ok(true)
}

/// Takes the key out of the map, and answers whether it was there.
///
/// Where the pages hold a map with `h`, they hold with the new `h` the map without the key. After a refusal
/// nothing is said of the pages and of `h`.
pub fn remove<P: Pages>(
    alloc: Global,
    p: &mut P,
    h: &mut Header,
    key: &[u8],
) -> Result<bool, ChainFault>
    requires { P.is_sound p.old ≡ true }
    ensures there { IfOk result (λ there. WhereHeld (P.pages p.old) h.old (λ m. there ≡ map.contains_key m key.now)) }
    ensures removed { OnOk result (WhereHeld (P.pages p.old) h.old (λ m. ForSome (P.pages p.new) (λ pages. HoldsMap pages h.new (map.remove m key.now)))) }
    ensures version { OnOk result (h.new.version ≡ h.old.version) }
    ensures buckets { OnOk result (h.new.buckets ≡ h.old.buckets) }
    ensures root { OnOk result (h.new.root ≡ h.old.root) }
    ensures count { OnOk result (KeepsCount h.old h.new (P.size p.old) (P.size p.new)) }
    ensures told { UnlessErr ChainFault.Failed result (is_some (P.pages p.new) ≡ is_some (P.pages p.old)) }
    ensures size { P.size p.old ≤ P.size p.new }
    ensures keeps { P.keeps p.old p.new }
    ensures cause { HasMapCause (P.pages p.old) h.old (P.faults p.old) (P.faults p.new) (P.is_sound p.new) result }
{
    let at = look_for(p, h, key)?;
    remove_at(alloc, p, h, &at)
}

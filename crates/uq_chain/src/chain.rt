//! A chain of pages that holds bytes: each page as many as it can, and the last one the rest.
ghost use Rattle.std.specs.Prelude.{◌≡◌, ◌+◌, ◌≤◌, ◌<◌, ℕ, List, [], ◌++◌, true, min, OnOk, OnErr, IfOk, Some, is_some, slice_get};
ghost use Rattle.std.specs.Option.{ForSome};
ghost use Rattle.uq_facts.specs.Causes.{UnlessErr};
ghost use Rattle.uq_page.specs.declared.layout.TheConstants.{VALUE_ROOM};
ghost use Rattle.uq_page.specs.Page.{bytes_of};
ghost use Rattle.uq_page.specs.ValuePage.{IsValueHead};
ghost use Rattle.uq_chain.specs.Causes.{HasChainCause};
ghost use Rattle.uq_chain.specs.Chain.{FreesChain, NoChain, NoChainOrFreeList, ReadsChain, pages_for};
ghost use Rattle.uq_chain.specs.FreeList.{KeepsHeader};
ghost use Rattle.uq_chain.specs.Path.{KeepsButChain};

use crate::give_page;
use uq_page::{ChainFault, Header, Page, Pages, VALUE_AT, VALUE_ROOM, ValueHead, read_value_page};

/// Reads the page of a chain from which on so many bytes are left, and answers its head.
pub(crate) fn read_part<P: Pages>(
    p: &mut P,
    no: u32,
    left: u32,
    page: &mut Page,
) -> Result<ValueHead, ChainFault>
    requires { P.is_sound p.old ≡ true }
    ensures page { OnOk result (ForSome (P.pages p.old) (λ pages. slice_get pages no ≡ Some (bytes_of page.new))) }
    ensures head { IfOk result (IsValueHead (bytes_of page.new)) }
    ensures held { IfOk result (λ head. head.held ≡ min left VALUE_ROOM) }
    ensures ends { IfOk result (λ head. left ≤ VALUE_ROOM → head.next ≡ 0) }
    ensures there { OnOk result (no < P.size p.new) }
    ensures number { OnOk result (1 ≤ no) }
    ensures same { UnlessErr ChainFault.Failed result (P.pages p.new ≡ P.pages p.old) }
    ensures size { P.size p.new ≡ P.size p.old }
    ensures asked { P.asked p.new ≤ P.asked p.old + 1 }
    ensures reads { P.only_reads p.old p.new }
    ensures cause { 1 ≤ left → HasChainCause (NoChain (P.pages p.old) no left) ⊥
        (P.faults p.old) (P.faults p.new) (P.is_sound p.new) result }
{
    if no == 0 || p.count() <= no {
        return Err(ChainFault::Corrupt);
    }
    p.read_page(no, page)?;
    let head = read_value_page(page).ok_or(ChainFault::Corrupt)?;
    if u32::from(head.held) != left.min(VALUE_ROOM as u32) {
        return Err(ChainFault::Corrupt);
    }
    // A chain that goes on behind its last byte is none, so no loop of pages is taken for one.
    if left <= VALUE_ROOM as u32 && head.next != 0 {
        return Err(ChainFault::Corrupt);
    }
    Ok(head)
}

/// Appends the bytes of a chain. A refusal may leave some of them.
fn read_onto<P: Pages>(
    p: &mut P,
    first: u32,
    len: u32,
    into: &mut Vec<u8>,
) -> Result<(), ChainFault>
    requires { P.is_sound p.old ≡ true }
    ensures read { OnOk result (ReadsChain (P.pages p.old) first len into.old.items into.new.items) }
    ensures front { (some : List ℕ) × (into.new.items ≡ into.old.items ++ some) }
    ensures same { UnlessErr ChainFault.Failed result (P.pages p.new ≡ P.pages p.old) }
    ensures size { P.size p.new ≡ P.size p.old }
    ensures asked { P.asked p.new ≤ P.asked p.old + pages_for len }
    ensures reads { P.only_reads p.old p.new }
    ensures cause { HasChainCause (NoChain (P.pages p.old) first len) ⊥
        (P.faults p.old) (P.faults p.new) (P.is_sound p.new) result }
{
    let mut page = Page::zero();
    let mut no = first;
    let mut left = len;
    while left > 0 {
        let head = read_part(p, no, left, &mut page)?;
        let end = VALUE_AT + head.held as usize;
        match into.extend_from_slice(&page.bytes()[VALUE_AT..end]) {
            Ok(()) => {}
            Err(_) => return Err(ChainFault::Memory),
        }
        no = head.next;
        left -= u32::from(head.held);
    }
    Ok(())
}

/// Appends the `len` bytes of the chain that begins at page `first`. A refusal leaves `into` as it was.
pub fn read_chain<P: Pages>(
    p: &mut P,
    first: u32,
    len: u32,
    into: &mut Vec<u8>,
) -> Result<(), ChainFault>
    requires { P.is_sound p.old ≡ true }
    ensures read { OnOk result (ReadsChain (P.pages p.old) first len into.old.items into.new.items) }
    ensures refused { OnErr result (into.new.items ≡ into.old.items) }
    ensures same { UnlessErr ChainFault.Failed result (P.pages p.new ≡ P.pages p.old) }
    ensures size { P.size p.new ≡ P.size p.old }
    ensures asked { P.asked p.new ≤ P.asked p.old + pages_for len }
    ensures reads { P.only_reads p.old p.new }
    ensures keeps { P.keeps p.old p.new }
    ensures cause { HasChainCause (NoChain (P.pages p.old) first len) ⊥
        (P.faults p.old) (P.faults p.new) (P.is_sound p.new) result }
{
    // No memory is asked for on the word of a length that the pages cannot hold.
    if u64::from(len) > u64::from(p.count()) * VALUE_ROOM as u64 {
        return Err(ChainFault::Corrupt);
    }
    let start = into.len();
    if into.reserve(len as usize).is_err() {
        return Err(ChainFault::Memory);
    }
    match read_onto(p, first, len, into) {
        Ok(()) => Ok(()),
        Err(fault) => {
            into.truncate(start);
            Err(fault)
        }
    }
}

/// Gives up the pages of the chain of `len` bytes that begins at page `first`. After a refusal nothing is
/// said of the pages and of `h`.
pub fn free_chain<P: Pages>(
    p: &mut P,
    h: &mut Header,
    first: u32,
    len: u32,
) -> Result<(), ChainFault>
    requires { P.is_sound p.old ≡ true }
    ensures freed { OnOk result (FreesChain (P.pages p.old) (P.pages p.new) h.old.free h.new.free first len) }
    ensures others { OnOk result (KeepsButChain (P.pages p.old) (P.pages p.new) first) }
    ensures header { OnOk result (KeepsHeader h.old h.new) }
    ensures count { OnOk result (h.new.pages ≡ h.old.pages) }
    ensures told { UnlessErr ChainFault.Failed result (is_some (P.pages p.new) ≡ is_some (P.pages p.old)) }
    ensures size { P.size p.new ≡ P.size p.old }
    ensures asked { P.asked p.new ≤ P.asked p.old + pages_for len }
    ensures keeps { P.keeps p.old p.new }
    ensures cause { HasChainCause (NoChainOrFreeList (P.pages p.old) first len h.old.free) ⊥
        (P.faults p.old) (P.faults p.new) (P.is_sound p.new) result }
{
    let mut page = Page::zero();
    let mut no = first;
    let mut left = len;
    while left > 0 {
        let head = read_part(p, no, left, &mut page)?;
        give_page(p, h, no)?;
        no = head.next;
        left -= u32::from(head.held);
    }
    Ok(())
}

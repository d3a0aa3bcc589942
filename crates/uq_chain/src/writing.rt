//! Bytes written into a new chain of pages.
ghost use Rattle.std.specs.Prelude.{◌≡◌, ◌+◌, ◌≤◌, ◌<◌, true, length, OnOk, IfOk, is_some};
ghost use Rattle.uq_facts.specs.Causes.{UnlessErr};
ghost use Rattle.uq_page.specs.declared.layout.TheConstants.{VALUE_ROOM};
ghost use Rattle.uq_page.specs.Page.{bytes_of};
ghost use Rattle.uq_page.specs.ValuePage.{value_page};
ghost use Rattle.uq_chain.specs.Causes.{HasChainCause, NoFreeList, IsShort};
ghost use Rattle.uq_chain.specs.Chain.{Writes, pages_for};
ghost use Rattle.uq_chain.specs.FreeList.{GrowsLast, KeepsCount, KeepsHeader};
ghost use Rattle.uq_chain.specs.Path.{KeepsButFree};

use crate::place_page;
use uq_page::{ChainFault, Header, Page, Pages, VALUE_AT, VALUE_ROOM, ValueHead, write_value_page};

/// The page of a chain with these bytes.
fn page_of(bytes: &[u8], next: u32) -> Page
    requires some { 1 ≤ length bytes.now }
    requires fits { length bytes.now ≤ VALUE_ROOM }
    ensures { bytes_of result ≡ value_page bytes.now next }
{
    let head = ValueHead {
        held: bytes.len() as u16,
        next,
    };
    let mut page = Page::zero();
    page.put(VALUE_AT, bytes);
    write_value_page(&head, &mut page);
    page
}

/// Writes bytes into a new chain, of pages from the free list and then of new ones, and answers its first
/// page. After a refusal nothing is said of the pages and of `h`.
pub fn write_chain<P: Pages>(p: &mut P, h: &mut Header, bytes: &[u8]) -> Result<u32, ChainFault>
    requires sound { P.is_sound p.old ≡ true }
    requires some { 1 ≤ P.size p.old }
    requires piece { 1 ≤ length bytes.now }
    ensures written { IfOk result (λ first. Writes (P.pages p.old) (P.pages p.new) h.old.free h.new.free first bytes.now) }
    ensures others { OnOk result (KeepsButFree (P.pages p.old) (P.pages p.new) h.old.free h.new.free) }
    ensures grows { OnOk result (GrowsLast h.new.free (P.size p.old) (P.size p.new)) }
    ensures number { IfOk result (λ first. 1 ≤ first) }
    ensures header { OnOk result (KeepsHeader h.old h.new) }
    ensures count { OnOk result (KeepsCount h.old h.new (P.size p.old) (P.size p.new)) }
    ensures told { UnlessErr ChainFault.Failed result (is_some (P.pages p.new) ≡ is_some (P.pages p.old)) }
    ensures size { P.size p.old ≤ P.size p.new }
    ensures most { P.size p.new ≤ P.size p.old + pages_for (length bytes.now) }
    ensures asked { P.asked p.new ≤ P.asked p.old + pages_for (length bytes.now) }
    ensures keeps { P.keeps p.old p.new }
    ensures cause { HasChainCause (NoFreeList (P.pages p.old) h.old.free)
        (IsShort (P.pages p.old) h.old.free (P.size p.new) (pages_for (length bytes.now)))
        (P.faults p.old) (P.faults p.new) (P.is_sound p.new) result }
{
    // From the last page to the first, so that each page can name the next.
    let mut next = 0;
    let mut end = bytes.len();
    while end > 0 {
        let from = (end - 1) / VALUE_ROOM * VALUE_ROOM;
        let page = page_of(&bytes[from..end], next);
        next = place_page(p, h, &page)?;
        end = from;
    }
    Ok(next)
}

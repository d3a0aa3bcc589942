//! A chain made longer.
ghost use Rattle.std.specs.Prelude.{◌≡◌, ◌+◌, ◌-◌, ◌%◌, ◌≤◌, ◌<◌, ◌++◌, true, length, take, drop, OnOk, IfOk, Some, is_some, slice_get};
ghost use Rattle.std.specs.Option.{ForSome};
ghost use Rattle.uq_facts.specs.Causes.{UnlessErr};
ghost use Rattle.uq_page.specs.declared.layout.TheConstants.{VALUE_AT, VALUE_ROOM};
ghost use Rattle.uq_page.specs.Page.{bytes_of};
ghost use Rattle.uq_page.specs.ValuePage.{IsValueHead, value_page};
ghost use Rattle.uq_chain.specs.Causes.{HasChainCause, NoFreeList, IsShort};
ghost use Rattle.uq_chain.specs.Chain.{Appends, EndsChain, NoChain, NoChainOrFreeList, Writes, pages_for};
ghost use Rattle.uq_chain.specs.FreeList.{GrowsLast, KeepsCount, KeepsHeader};
ghost use Rattle.uq_chain.specs.Path.{ChainLeads, KeepsButBoth, KeepsButFree};

use crate::chain::read_part;
use crate::write_chain;
use uq_page::{ChainFault, Header, Page, Pages, VALUE_AT, VALUE_ROOM, ValueHead, write_value_page};

/// The last page of a chain.
#[derive(Clone, Copy)]
struct Last {
    no: u32,
    head: ValueHead,
}

/// Looks for the last page of a chain, and leaves it in `page`.
fn find_last<P: Pages>(p: &mut P, first: u32, len: u32, page: &mut Page) -> Result<Last, ChainFault>
    requires sound { P.is_sound p.old ≡ true }
    requires some { 1 ≤ len }
    ensures tail { IfOk result (λ last. EndsChain (P.pages p.old) first len last.no last.head.held (bytes_of page.new)) }
    ensures leads { IfOk result (λ last. ChainLeads (P.pages p.old) first last.no) }
    ensures page { IfOk result (λ last. ForSome (P.pages p.old) (λ pages. slice_get pages last.no ≡ Some (bytes_of page.new))) }
    ensures head { IfOk result (λ last. IsValueHead (bytes_of page.new) last.head) }
    ensures held { IfOk result (λ last. last.head.held ≡ (len - 1) % VALUE_ROOM + 1) }
    ensures there { IfOk result (λ last. last.no < P.size p.new) }
    ensures same { UnlessErr ChainFault.Failed result (P.pages p.new ≡ P.pages p.old) }
    ensures size { P.size p.new ≡ P.size p.old }
    ensures asked { P.asked p.new ≤ P.asked p.old + pages_for len }
    ensures reads { P.only_reads p.old p.new }
    ensures cause { HasChainCause (NoChain (P.pages p.old) first len) ⊥
        (P.faults p.old) (P.faults p.new) (P.is_sound p.new) result }
{
    let mut no = first;
    let mut left = len;
    while left > VALUE_ROOM as u32 {
        let head = read_part(p, no, left, page)?;
        no = head.next;
        left -= u32::from(head.held);
    }
    let head = read_part(p, no, left, page)?;
    Ok(Last { no, head })
}

/// The page of a chain with more bytes.
fn longer(page: &Page, held: usize, more: &[u8], next: u32) -> Page
    requires some { 1 ≤ held }
    requires fits { held + length more.now ≤ VALUE_ROOM }
    ensures { bytes_of result ≡ value_page (take held (drop VALUE_AT (bytes_of page.now)) ++ more.now) next }
{
    let head = ValueHead {
        held: (held + more.len()) as u16,
        next,
    };
    let mut new = Page::zero();
    new.put(VALUE_AT, &page.bytes()[VALUE_AT..VALUE_AT + held]);
    new.put(VALUE_AT + held, more);
    write_value_page(&head, &mut new);
    new
}

/// Writes bytes into a new chain, or none where there is no byte.
fn write_rest<P: Pages>(p: &mut P, h: &mut Header, bytes: &[u8]) -> Result<u32, ChainFault>
    requires sound { P.is_sound p.old ≡ true }
    requires some { 1 ≤ P.size p.old }
    ensures written { IfOk result (λ first. Writes (P.pages p.old) (P.pages p.new) h.old.free h.new.free first bytes.now) }
    ensures grows { OnOk result (GrowsLast h.new.free (P.size p.old) (P.size p.new)) }
    ensures others { OnOk result (KeepsButFree (P.pages p.old) (P.pages p.new) h.old.free h.new.free) }
    ensures header { OnOk result (KeepsHeader h.old h.new) }
    ensures count { OnOk result (KeepsCount h.old h.new (P.size p.old) (P.size p.new)) }
    ensures told { UnlessErr ChainFault.Failed result (is_some (P.pages p.new) ≡ is_some (P.pages p.old)) }
    ensures size { P.size p.old ≤ P.size p.new }
    ensures most { P.size p.new ≤ P.size p.old + pages_for (length bytes.now) }
    ensures asked { P.asked p.new ≤ P.asked p.old + pages_for (length bytes.now) }
    ensures keeps { P.keeps p.old p.new }
    ensures cause { HasChainCause (NoFreeList (P.pages p.old) h.old.free)
        (IsShort (P.pages p.old) h.old.free (P.size p.new) (pages_for (length bytes.now)))
        (P.faults p.old) (P.faults p.new) (P.is_sound p.new) result }
{
    if bytes.is_empty() {
        return Ok(0);
    }
    write_chain(p, h, bytes)
}

/// Makes the chain of `len` bytes that begins at page `first` longer by these bytes: its last page takes
/// what fits there, and the rest goes into new pages behind it. After a refusal nothing is said of the pages
/// and of `h`.
pub fn append_chain<P: Pages>(
    p: &mut P,
    h: &mut Header,
    first: u32,
    len: u32,
    bytes: &[u8],
) -> Result<(), ChainFault>
    requires sound { P.is_sound p.old ≡ true }
    requires some { 1 ≤ P.size p.old }
    requires len { 1 ≤ len }
    ensures appended { OnOk result (Appends (P.pages p.old) (P.pages p.new) h.old.free h.new.free first len bytes.now) }
    ensures grows { OnOk result (GrowsLast h.new.free (P.size p.old) (P.size p.new)) }
    ensures others { OnOk result (KeepsButBoth (P.pages p.old) (P.pages p.new) h.old.free first) }
    ensures header { OnOk result (KeepsHeader h.old h.new) }
    ensures count { OnOk result (KeepsCount h.old h.new (P.size p.old) (P.size p.new)) }
    ensures told { UnlessErr ChainFault.Failed result (is_some (P.pages p.new) ≡ is_some (P.pages p.old)) }
    ensures size { P.size p.old ≤ P.size p.new }
    ensures most { P.size p.new ≤ P.size p.old + (pages_for (len + length bytes.now) - pages_for len) }
    ensures asked { P.asked p.new ≤ P.asked p.old + pages_for (len + length bytes.now) }
    ensures keeps { P.keeps p.old p.new }
    ensures cause { HasChainCause (NoChainOrFreeList (P.pages p.old) first len h.old.free)
        (IsShort (P.pages p.old) h.old.free (P.size p.new) (pages_for (len + length bytes.now) - pages_for len))
        (P.faults p.old) (P.faults p.new) (P.is_sound p.new) result }
{
    let mut page = Page::zero();
    let last = find_last(p, first, len, &mut page)?;
    let held = usize::from(last.head.held);
    let now = bytes.len().min(VALUE_ROOM - held);
    let next = write_rest(p, h, &bytes[now..])?;
    p.write_page(last.no, &longer(&page, held, &bytes[..now], next))?;
    Ok(())
}

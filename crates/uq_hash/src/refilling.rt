//! The cells of a bucket laid into its pages.
ghost use Rattle.std.specs.Prelude.{◌≡◌, ◌+◌, ◌-◌, ◌≤◌, ◌<◌, ℕ, List, [], All, true, length, map, sum, take, drop, slice_index, OnOk, IfOk, is_some};
ghost use Rattle.std.specs.Option.{ForSome};
ghost use Rattle.std.specs.List.{concat};
ghost use Rattle.uq_facts.specs.Causes.{UnlessErr};
ghost use Rattle.uq_page.specs.declared.layout.TheConstants.{CELLS_ROOM};
ghost use Rattle.uq_page.specs.Page.{bytes_of};
ghost use Rattle.uq_chain.specs.Causes.{HasChainCause};
ghost use Rattle.uq_chain.specs.FreeList.{IsFreeList, Turned, Turns, KeepsHeader, KeepsCount};
ghost use Rattle.uq_hash.specs.Cells.{bucket_page, filled};
ghost use Rattle.uq_hash.specs.Refill.{Owned, IsLaid, IsShortFor, NoRow, Fits, counts, lens};

use crate::bucket_page::read_bucket_page;
use std::alloc::Global;
use uq_chain::{give_page, place_page};
use uq_page::{BucketHead, CELLS_AT, CELLS_ROOM, ChainFault, Header, Page, Pages, write_bucket};

/// How a page is filled: with so many cells, of so many bytes.
#[derive(Clone, Copy)]
pub(crate) struct Fill {
    pub cells: u16,
    pub bytes: u16,
}

/// How cells of these sizes fill pages: each goes into the present page where it fits, else into the next.
fn fills(alloc: Global, sizes: &[u16]) -> Result<Vec<Fill>, ChainFault>
    requires { All Fits sizes.now }
    ensures cells { IfOk result (λ it. (cells : List (List ℕ)) → map length cells ≡ sizes.now → map counts it.items ≡ map length (filled [] cells)) }
    ensures bytes { IfOk result (λ it. (cells : List (List ℕ)) → map length cells ≡ sizes.now
        → map lens it.items ≡ map (λ group. length (concat group)) (filled [] cells)) }
    ensures some { IfOk result (λ it. 1 ≤ length it.items) }
    ensures few { IfOk result (λ it. length it.items ≤ length sizes.now + 1) }
    ensures cause { HasChainCause ⊥ ⊥ 0 0 true result }
{
    let mut fills = Vec::new(alloc);
    let mut page = Fill { cells: 0, bytes: 0 };
    for size in sizes {
        if page.bytes + *size <= CELLS_ROOM as u16 {
            page = Fill {
                cells: page.cells + 1,
                bytes: page.bytes + *size,
            };
        } else {
            match fills.push(page) {
                Ok(()) => {}
                Err(_) => return Err(ChainFault::Memory),
            }
            page = Fill {
                cells: 1,
                bytes: *size,
            };
        }
    }
    match fills.push(page) {
        Ok(()) => Ok(fills),
        Err(_) => Err(ChainFault::Memory),
    }
}

/// The page with these cells.
fn page_of(bytes: &[u8], cells: u16, next: u32) -> Page
    requires { length bytes.now ≤ CELLS_ROOM }
    ensures { (group : List (List ℕ)) → length group ≡ cells → concat group ≡ bytes.now → bytes_of result ≡ bucket_page group next }
{
    let head = BucketHead {
        cells,
        next,
        end: (CELLS_AT + bytes.len()) as u16,
    };
    let mut page = Page::zero();
    page.put(CELLS_AT, bytes);
    write_bucket(&head, &mut page);
    page
}

/// Gives up pages of a bucket.
fn give_all<P: Pages>(p: &mut P, h: &mut Header, row: &[u32]) -> Result<(), ChainFault>
    requires { P.is_sound p.old ≡ true }
    ensures given { OnOk result (Turns (P.pages p.old) (P.pages p.new) h.old.free h.new.free row.now []) }
    ensures header { OnOk result (KeepsHeader h.old h.new) }
    ensures count { OnOk result (h.new.pages ≡ h.old.pages) }
    ensures told { UnlessErr ChainFault.Failed result (is_some (P.pages p.new) ≡ is_some (P.pages p.old)) }
    ensures size { P.size p.new ≡ P.size p.old }
    ensures keeps { P.keeps p.old p.new }
    ensures cause { HasChainCause (NoRow (P.pages p.old) h.old.free row.now) ⊥ (P.faults p.old) (P.faults p.new) (P.is_sound p.new) result }
{
    for no in row {
        // What is a page of a bucket is not free.
        read_bucket_page(p, *no)?;
        give_page(p, h, *no)?;
    }
    Ok(())
}

/// Lays cells into the pages of a row, from its first on: with too few pages it takes more, and those that
/// are left over it gives up. It answers the first page, which is the row's where the row has one. The
/// cells lie one behind the other in `bytes`, and `sizes` says how long each is.
pub(crate) fn refill<P: Pages>(
    alloc: Global,
    p: &mut P,
    h: &mut Header,
    row: &[u32],
    sizes: &[u16],
    bytes: &[u8],
) -> Result<u32, ChainFault>
    requires sound { P.is_sound p.old ≡ true }
    requires some { 1 ≤ P.size p.old }
    requires there { All (λ n. (1 ≤ n) × (n < P.size p.old)) row.now }
    requires sizes { All Fits sizes.now }
    requires bytes { sum sizes.now ≡ length bytes.now }
    ensures laid { IfOk result (λ first. ForSome (P.pages p.old) (λ before. (free : List ℕ) → IsFreeList before h.old.free free → Owned before row.now free
        → ForSome (P.pages p.new) (λ after.
        (cells : List (List ℕ)) → map length cells ≡ sizes.now → concat cells ≡ bytes.now → IsLaid before after h.new.free free row.now first cells))) }
    ensures first { IfOk result (λ first. 1 ≤ length row.now → first ≡ slice_index row.now 0) }
    ensures header { OnOk result (KeepsHeader h.old h.new) }
    ensures count { OnOk result (KeepsCount h.old h.new (P.size p.old) (P.size p.new)) }
    ensures told { UnlessErr ChainFault.Failed result (is_some (P.pages p.new) ≡ is_some (P.pages p.old)) }
    ensures size { P.size p.old ≤ P.size p.new }
    ensures most { P.size p.new ≤ P.size p.old + (length sizes.now + 1) }
    ensures keeps { P.keeps p.old p.new }
    ensures cause { HasChainCause (NoRow (P.pages p.old) h.old.free row.now)
        (IsShortFor (P.pages p.old) h.old.free row.now (P.size p.new) sizes.now bytes.now)
        (P.faults p.old) (P.faults p.new) (P.is_sound p.new) result }
{
    let fills = fills(alloc, sizes)?;
    let kept = fills.len().min(row.len());
    give_all(p, h, &row[kept..])?;
    // From the last page to the first, so that each page can name the next.
    let mut next = 0;
    let mut end = bytes.len();
    let mut left = fills.len();
    while left > 0 {
        left -= 1;
        let fill = fills[left];
        let from = end - fill.bytes as usize;
        let page = page_of(&bytes[from..end], fill.cells, next);
        if left < row.len() {
            next = row[left];
            p.write_page(next, &page)?;
        } else {
            next = place_page(p, h, &page)?;
        }
        end = from;
    }
    Ok(next)
}

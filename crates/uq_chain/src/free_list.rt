//! The free list: the pages that are in no use, each of which names the next.
ghost use Rattle.std.specs.Prelude.{◌≡◌, ◌+◌, ◌≤◌, ◌<◌, ℕ, List, [], ◌∷◌, ◌++◌, true, OnOk, IfOk, is_some, slice_set};
ghost use Rattle.std.specs.Option.{ForSome, option_map};
ghost use Rattle.uq_facts.specs.Causes.{UnlessErr};
ghost use Rattle.uq_page.specs.FreePage.{free_page, IsFreePage};
ghost use Rattle.uq_page.specs.Page.{bytes_of};
ghost use Rattle.uq_chain.specs.Causes.{HasChainCause, NoFreeList, IsShort};
ghost use Rattle.uq_chain.specs.FreeList.{IsTaken, IsUnlisted, KeepsCount, KeepsHeader, Places, Turns, WasRight};
ghost use Rattle.uq_chain.specs.Path.{IsNotFree, IsPath, KeepsButFree, KeepsPages};

use uq_page::{ChainFault, Header, Page, Pages, read_free, write_free};

/// Appends a page, where the free list is empty, and answers its number.
fn grow_page<P: Pages>(p: &mut P, h: &mut Header, page: &Page) -> Result<u32, ChainFault>
    requires sound { P.is_sound p.old ≡ true }
    requires some { 1 ≤ P.size p.old }
    requires none { h.old.free ≡ 0 }
    ensures taken { IfOk result (λ no. Turns (P.pages p.old) (P.pages p.new) h.old.free h.new.free [] (no ∷ [])) }
    ensures page { IfOk result (λ no. Places (P.pages p.old) (P.pages p.new) h.old.free no (bytes_of page.now)) }
    ensures there { IfOk result (λ no. no < P.size p.new) }
    ensures number { IfOk result (λ no. 1 ≤ no) }
    ensures header { OnOk result (KeepsHeader h.old h.new) }
    ensures count { OnOk result (KeepsCount h.old h.new (P.size p.old) (P.size p.new)) }
    ensures told { UnlessErr ChainFault.Failed result (is_some (P.pages p.new) ≡ is_some (P.pages p.old)) }
    ensures size { P.size p.old ≤ P.size p.new }
    ensures number_is { IfOk result (λ no. no ≡ P.size p.old) }
    ensures larger { OnOk result (P.size p.new ≡ P.size p.old + 1) }
    ensures grown { OnOk result (P.pages p.new ≡ option_map (λ pages. pages ++ bytes_of page.now ∷ []) (P.pages p.old)) }
    ensures list { OnOk result (h.new.free ≡ h.old.free) }
    ensures most { P.size p.new ≤ P.size p.old + 1 }
    ensures asked { P.asked p.new ≡ P.asked p.old }
    ensures keeps { P.keeps p.old p.new }
    ensures cause { HasChainCause (NoFreeList (P.pages p.old) h.old.free)
        (IsShort (P.pages p.old) h.old.free (P.size p.new) 1)
        (P.faults p.old) (P.faults p.new) (P.is_sound p.new) result }
{
    if p.count() == u32::MAX {
        return Err(ChainFault::NoPage);
    }
    let no = p.grow(page)?;
    h.pages = no + 1;
    Ok(no)
}

/// Takes the first page off the free list, where it has one.
fn pop_page<P: Pages>(p: &mut P, h: &mut Header) -> Result<u32, ChainFault>
    requires sound { P.is_sound p.old ≡ true }
    requires some { h.old.free ≡ 0 → ⊥ }
    ensures taken { IfOk result (λ no. Turns (P.pages p.old) (P.pages p.new) h.old.free h.new.free [] (no ∷ [])) }
    ensures first { IfOk result (λ no. no ≡ h.old.free) }
    ensures leads { OnOk result (ForSome (P.pages p.old) (λ pages. IsPath IsFreePage pages h.old.free (h.old.free ∷ []) h.new.free)) }
    ensures there { IfOk result (λ no. no < P.size p.new) }
    ensures number { IfOk result (λ no. 1 ≤ no) }
    ensures header { OnOk result (KeepsHeader h.old h.new) }
    ensures count { OnOk result (h.new.pages ≡ h.old.pages) }
    ensures same { UnlessErr ChainFault.Failed result (P.pages p.new ≡ P.pages p.old) }
    ensures size { P.size p.new ≡ P.size p.old }
    ensures asked { P.asked p.new ≤ P.asked p.old + 1 }
    ensures reads { P.only_reads p.old p.new }
    ensures cause { HasChainCause (NoFreeList (P.pages p.old) h.old.free) ⊥
        (P.faults p.old) (P.faults p.new) (P.is_sound p.new) result }
{
    let no = h.free;
    if p.count() <= no {
        return Err(ChainFault::Corrupt);
    }
    let mut page = Page::zero();
    p.read_page(no, &mut page)?;
    h.free = read_free(&page).ok_or(ChainFault::Corrupt)?;
    Ok(no)
}

/// Takes a page into use: the first of the free list, or else a new one of zero bytes.
pub fn take_page<P: Pages>(p: &mut P, h: &mut Header) -> Result<u32, ChainFault>
    requires sound { P.is_sound p.old ≡ true }
    requires some { 1 ≤ P.size p.old }
    ensures first { IfOk result (λ no. IsTaken h.old.free h.new.free (P.size p.old) (P.size p.new) no) }
    ensures taken { IfOk result (λ no. Turns (P.pages p.old) (P.pages p.new) h.old.free h.new.free [] (no ∷ [])) }
    ensures others { OnOk result (KeepsPages (P.pages p.old) (P.pages p.new)) }
    ensures there { IfOk result (λ no. no < P.size p.new) }
    ensures number { IfOk result (λ no. 1 ≤ no) }
    ensures header { OnOk result (KeepsHeader h.old h.new) }
    ensures count { OnOk result (KeepsCount h.old h.new (P.size p.old) (P.size p.new)) }
    ensures told { UnlessErr ChainFault.Failed result (is_some (P.pages p.new) ≡ is_some (P.pages p.old)) }
    ensures size { P.size p.old ≤ P.size p.new }
    ensures most { P.size p.new ≤ P.size p.old + 1 }
    ensures asked { P.asked p.new ≤ P.asked p.old + 1 }
    ensures keeps { P.keeps p.old p.new }
    ensures cause { HasChainCause (NoFreeList (P.pages p.old) h.old.free)
        (IsShort (P.pages p.old) h.old.free (P.size p.new) 1)
        (P.faults p.old) (P.faults p.new) (P.is_sound p.new) result }
{
    if h.free == 0 {
        return grow_page(p, h, &Page::zero());
    }
    pop_page(p, h)
}

/// Takes a page into use, and makes it this one.
pub fn place_page<P: Pages>(p: &mut P, h: &mut Header, page: &Page) -> Result<u32, ChainFault>
    requires sound { P.is_sound p.old ≡ true }
    requires some { 1 ≤ P.size p.old }
    ensures first { IfOk result (λ no. IsTaken h.old.free h.new.free (P.size p.old) (P.size p.new) no) }
    ensures taken { IfOk result (λ no. Turns (P.pages p.old) (P.pages p.new) h.old.free h.new.free [] (no ∷ [])) }
    ensures page { IfOk result (λ no. Places (P.pages p.old) (P.pages p.new) h.old.free no (bytes_of page.now)) }
    ensures others { IsNotFree (bytes_of page.now) → OnOk result (KeepsButFree (P.pages p.old) (P.pages p.new) h.old.free h.new.free) }
    ensures there { IfOk result (λ no. no < P.size p.new) }
    ensures number { IfOk result (λ no. 1 ≤ no) }
    ensures header { OnOk result (KeepsHeader h.old h.new) }
    ensures count { OnOk result (KeepsCount h.old h.new (P.size p.old) (P.size p.new)) }
    ensures told { UnlessErr ChainFault.Failed result (is_some (P.pages p.new) ≡ is_some (P.pages p.old)) }
    ensures size { P.size p.old ≤ P.size p.new }
    ensures most { P.size p.new ≤ P.size p.old + 1 }
    ensures asked { P.asked p.new ≤ P.asked p.old + 1 }
    ensures keeps { P.keeps p.old p.new }
    ensures cause { HasChainCause (NoFreeList (P.pages p.old) h.old.free)
        (IsShort (P.pages p.old) h.old.free (P.size p.new) 1)
        (P.faults p.old) (P.faults p.new) (P.is_sound p.new) result }
{
    if h.free == 0 {
        return grow_page(p, h, page);
    }
    let no = pop_page(p, h)?;
    p.write_page(no, page)?;
    Ok(no)
}

/// Puts a page that is in no use any more at the front of the free list.
pub fn give_page<P: Pages>(p: &mut P, h: &mut Header, no: u32) -> Result<(), ChainFault>
    requires sound { P.is_sound p.old ≡ true }
    requires number { 1 ≤ no }
    requires there { no < P.size p.old }
    requires used { IsUnlisted (P.pages p.old) h.old.free no }
    ensures given { OnOk result (Turns (P.pages p.old) (P.pages p.new) h.old.free h.new.free (no ∷ []) []) }
    ensures right { OnOk result (WasRight (P.pages p.old) (P.pages p.new) h.old.free h.new.free) }
    ensures page { OnOk result (P.pages p.new ≡ option_map (λ pages. slice_set pages no (free_page h.old.free)) (P.pages p.old)) }
    ensures header { OnOk result (KeepsHeader h.old h.new) }
    ensures count { OnOk result (h.new.pages ≡ h.old.pages) }
    ensures told { UnlessErr ChainFault.Failed result (is_some (P.pages p.new) ≡ is_some (P.pages p.old)) }
    ensures size { P.size p.new ≡ P.size p.old }
    ensures asked { P.asked p.new ≡ P.asked p.old }
    ensures keeps { P.keeps p.old p.new }
    ensures cause { HasChainCause ⊥ ⊥ (P.faults p.old) (P.faults p.new) (P.is_sound p.new) result }
{
    let mut page = Page::zero();
    write_free(h.free, &mut page);
    p.write_page(no, &page)?;
    h.free = no;
    Ok(())
}

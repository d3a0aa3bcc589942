//! A page of a bucket, as it is read.
ghost use Rattle.std.specs.Prelude.{◌≡◌, ◌+◌, ◌<◌, ◌≤◌, ℕ, List, true, OnOk, IfOk, Some, slice_get};
ghost use Rattle.std.specs.Option.{ForSome};
ghost use Rattle.uq_facts.specs.Causes.{UnlessErr};
ghost use Rattle.uq_page.specs.Page.{bytes_of};
ghost use Rattle.uq_page.specs.Bucket.{IsBucketHead};
ghost use Rattle.uq_chain.specs.Causes.{HasChainCause};
ghost use Rattle.uq_hash.specs.Bucket.{IsBucketPage, NoBucketPage, head_of};

use uq_page::{BucketHead, ChainFault, Page, Pages, read_bucket};

/// A page of a bucket, and its head.
#[derive(Clone, Copy)]
pub(crate) struct BucketPage {
    pub page: Page,
    pub head: BucketHead,
}

/// Reads a page of a bucket.
pub(crate) fn read_bucket_page<P: Pages>(p: &mut P, no: u32) -> Result<BucketPage, ChainFault>
    requires { P.is_sound p.old ≡ true }
    ensures page { IfOk result (λ it. ForSome (P.pages p.old) (λ pages. slice_get pages no ≡ Some (bytes_of it.page))) }
    ensures head { IfOk result (λ it. IsBucketHead (bytes_of it.page) it.head) }
    ensures exact { IfOk result (λ it. (cells : List (List ℕ)) (next : ℕ)
        → IsBucketPage (bytes_of it.page) cells next → it.head ≡ head_of cells next) }
    ensures there { OnOk result (no < P.size p.new) }
    ensures number { OnOk result (1 ≤ no) }
    ensures same { UnlessErr ChainFault.Failed result (P.pages p.new ≡ P.pages p.old) }
    ensures size { P.size p.new ≡ P.size p.old }
    ensures asked { P.asked p.new ≤ P.asked p.old + 1 }
    ensures reads { P.only_reads p.old p.new }
    ensures cause { HasChainCause (NoBucketPage (P.pages p.old) no) ⊥ (P.faults p.old) (P.faults p.new) (P.is_sound p.new) result }
{
    if no == 0 || p.count() <= no {
        return Err(ChainFault::Corrupt);
    }
    let mut page = Page::zero();
    p.read_page(no, &mut page)?;
    let head = read_bucket(&page).ok_or(ChainFault::Corrupt)?;
    Ok(BucketPage { page, head })
}

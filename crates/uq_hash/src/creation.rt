//! The pages of a map with no key.
ghost use Rattle.std.specs.Prelude.{◌≡◌, true, IfOk, OnOk, is_some};
ghost use Rattle.std.specs.Option.{ForSome};
ghost use Rattle.uq_hash.specs.Map.{IsCreated};
ghost use Rattle.uq_facts.specs.Causes.{UnlessErr};
ghost use Rattle.uq_page.specs.Pages.{HasPagesCause};

use uq_page::{BucketHead, CELLS_AT, Header, Page, Pages, PagesFault, write_bucket, write_header};

/// The header of a map with no key.
const EMPTY: Header = Header {
    version: 0,
    pages: 2,
    buckets: 1,
    free: 0,
    root: 1,
    entries: 0,
    bytes: 0,
};

/// Makes the pages of a map with no key, where there is no page: the header and a bucket. It answers the
/// header. A refusal may leave the first of them.
pub fn create<P: Pages>(p: &mut P) -> Result<Header, PagesFault>
    requires sound { P.is_sound p.old ≡ true }
    requires empty { P.size p.old ≡ 0 }
    ensures created { IfOk result (λ header. IsCreated (P.pages p.old) (P.pages p.new) header) }
    ensures sums { IfOk result (λ header. (header.entries ≡ 0) × (header.bytes ≡ 0)) }
    ensures told { UnlessErr PagesFault.Failed result (is_some (P.pages p.new) ≡ is_some (P.pages p.old)) }
    ensures size { OnOk result (P.size p.new ≡ 2) }
    ensures asked { P.asked p.new ≡ P.asked p.old }
    ensures keeps { P.keeps p.old p.new }
    ensures cause { HasPagesCause PagesFault.Failed (P.faults p.old) (P.faults p.new) (P.is_sound p.new) result }
{
    let mut page = Page::zero();
    write_header(&EMPTY, &mut page);
    p.grow(&page)?;
    let head = BucketHead {
        cells: 0,
        next: 0,
        end: CELLS_AT as u16,
    };
    let mut page = Page::zero();
    write_bucket(&head, &mut page);
    p.grow(&page)?;
    Ok(EMPTY)
}

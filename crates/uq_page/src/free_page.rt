//! A page of the free list:
//!
//! ```text
//! 0   46 (hexadecimal)
//! 4   four bytes: next free page, 0 is none
//! ```
//!
//! All other bytes are zero.
ghost use Rattle.std.specs.Prelude.{◌≡◌, ◌<◌, ◌^◌, ℕ, IfSome, Some};
ghost use Rattle.uq_page.specs.Page.{bytes_of};
ghost use Rattle.uq_page.specs.FreePage.{free_fields, free_page, IsFreePage};

use crate::Page;
use crate::layout::FREE_SIZE;
use byteorder::{BigEndian, ByteOrder};

/// The first eight bytes of a free page.
fn free_bytes(next: u32) -> [u8; FREE_SIZE]
    ensures { result ≡ free_fields next }
{
    let mut fields = [0; FREE_SIZE];
    fields[0] = 0x46;
    BigEndian::write_u32(&mut fields[4..8], next);
    fields
}

/// The next free page of a free page: `None` exactly where the whole page is not a free page.
pub fn read_free(page: &Page) -> Option<u32>
    ensures found { IfSome result (IsFreePage (bytes_of page.now)) }
    ensures exact { (next : ℕ) → IsFreePage (bytes_of page.now) next → result ≡ Some next }
{
    let next = BigEndian::read_u32(&page.bytes()[4..8]);
    let mut same = Page::zero();
    write_free(next, &mut same);
    if *page == same { Some(next) } else { None }
}

/// Makes the page a free page.
pub fn write_free(next: u32, page: &mut Page)
    ensures bytes { bytes_of page.new ≡ free_page next }
    ensures reads { IsFreePage (bytes_of page.new) next }
{
    *page = Page::zero();
    page.put(0, &free_bytes(next));
}

//! The layout of a journal: batches one behind the other, and a closed gate. Numbers are big-endian.
//!
//! | OFFSET | SIZE | FIELD |
//! |---|---|---|
//! | 0 | 1 | the gate of the batch: open where it is `a5`, closed where it is any other byte |
//! | 1 | 4 | old page count: how many pages the main file had before the batch |
//! | 5 | 4 | number n of originals |
//! | 9 + 4100i | 4 | page number of original i |
//! | 13 + 4100i | 4096 | its bytes |
//! | 9 + 4100n | 1 | the next gate |
ghost use Rattle.std.specs.Prelude.{◌≡◌, ◌++◌};
ghost use Rattle.std.specs.Int.{w32, to_be_bytes};
ghost use Rattle.uq_journal.specs.Batches.{original_bytes};

use uq_page::PAGE_SIZE;

/// A gate behind which a batch counts.
pub(crate) const OPEN: u8 = 0xa5;

/// A gate that ends the batches. Every byte but the open one does.
pub(crate) const CLOSED: u8 = 0;

/// A gate and the two numbers behind it.
pub(crate) const HEAD_SIZE: u64 = 9;

/// A page, as places in a file count it.
pub(crate) const PAGE_BYTES: u64 = PAGE_SIZE as u64;

/// An original: the number of its page, and the page.
pub(crate) const ORIGINAL_SIZE: u64 = 4 + PAGE_BYTES;

/// The two numbers before the originals.
pub(crate) fn head(old_pages: u32, count: u32) -> [u8; 8]
    ensures { result ≡ to_be_bytes w32 old_pages ++ to_be_bytes w32 count }
{
    let mut head = [0; 8];
    head[..4].copy_from_slice(&old_pages.to_be_bytes());
    head[4..].copy_from_slice(&count.to_be_bytes());
    head
}

/// An original as the journal keeps it.
pub(crate) fn original(no: u32, page: &[u8; PAGE_SIZE]) -> [u8; 4 + PAGE_SIZE]
    ensures { result ≡ original_bytes (no, page.now) }
{
    let mut original = [0; 4 + PAGE_SIZE];
    original[..4].copy_from_slice(&no.to_be_bytes());
    original[4..].copy_from_slice(page);
    original
}

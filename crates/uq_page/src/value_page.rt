//! A page of a value's chain:
//!
//! ```text
//! 0, 1     56, 00 (hexadecimal)
//! 2        two bytes: bytes held, 1 to 4,080
//! 4        four bytes: next page of the chain, 0 is none
//! 8 to 15  zero
//! from 16  the bytes
//! ```
ghost use Rattle.std.specs.Prelude.{◌≡◌, ◌<◌, ◌≤◌, ◌^◌, ◌++◌, IfSome, Some, drop};
ghost use Rattle.uq_page.specs.Page.{bytes_of};
ghost use Rattle.uq_page.specs.ValuePage.{value_fields, IsValueHead};

use crate::{Page, VALUE_AT, VALUE_ROOM};
use byteorder::{BigEndian, ByteOrder};

/// What a page of a value's chain says of its bytes.
#[derive(Clone, Copy, Debug, PartialEq, Eq)]
pub struct ValueHead {
    /// How many bytes of the value the page has, from 1 to 4,080.
    pub held: u16,

    /// The next page of the chain, 0 where there is none.
    pub next: u32,
}

/// The first 16 bytes of a page of a value's chain.
fn head_bytes(head: &ValueHead) -> [u8; VALUE_AT]
    ensures bytes { result ≡ value_fields head.now }
    ensures fits { head.now.next < 2 ^ 32 }
{
    let ValueHead { held, next } = *head;
    let mut fields = [0; VALUE_AT];
    fields[0] = 0x56;
    BigEndian::write_u16(&mut fields[2..4], held);
    BigEndian::write_u32(&mut fields[4..8], next);
    fields
}

/// The head of a page of a value's chain: `None` exactly where bytes 0 to 15 are not that of such a page.
pub fn read_value_page(page: &Page) -> Option<ValueHead>
    ensures found { IfSome result (IsValueHead (bytes_of page.now)) }
    ensures exact { (head : ValueHead) → IsValueHead (bytes_of page.now) head → result ≡ Some head }
{
    let bytes = page.bytes();
    let head = ValueHead {
        held: BigEndian::read_u16(&bytes[2..4]),
        next: BigEndian::read_u32(&bytes[4..8]),
    };
    let fields = head_bytes(&head);
    let held = usize::from(head.held);
    if 1 <= held && held <= VALUE_ROOM && bytes[..VALUE_AT] == fields[..] {
        Some(head)
    } else {
        None
    }
}

/// Writes bytes 0 to 15 of a page of a value's chain.
pub fn write_value_page(head: &ValueHead, page: &mut Page)
    requires low { 1 ≤ head.now.held }
    requires high { head.now.held ≤ VALUE_ROOM }
    ensures bytes { bytes_of page.new ≡ value_fields head.now ++ drop VALUE_AT (bytes_of page.old) }
    ensures reads { IsValueHead (bytes_of page.new) head.now }
{
    page.put(0, &head_bytes(head));
}

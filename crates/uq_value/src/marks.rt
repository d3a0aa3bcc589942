//! Numbers made of names, by which most of them are told apart.

ghost use Rattle.std.specs.Prelude.{◌≡◌, ◌<◌, ◌^◌};
ghost use Rattle.uq_value.specs.Internal.NameOrder.{digest as spec_digest};
ghost use Rattle.uq_value.specs.Internal.Table.{mark as spec_mark};

/// 2^64 by the golden ratio: its multiples spread numbers that are counted up over all numbers of 64 bits.
const SPREAD: u64 = 11_400_714_819_323_198_485;

/// The name as a number to the base 257, of which the lowest 64 bits count: names that are counted up rise with it.
#[tactic(auto, unfolding(crate::specs::Internal::NameOrder::digest_onto))]
pub(crate) fn digest(name: &[u8]) -> u64
    ensures { result ≡ spec_digest name.now }
{
    let mut digest = 0u64;
    for byte in name {
        digest = digest.wrapping_mul(257).wrapping_add(u64::from(*byte));
    }
    digest
}

/// What a name of this digest is looked up by in the rows of the index.
#[tactic(auto, unfolding(crate::specs::Internal::Table::mark))]
pub(crate) fn mark(digest: u64) -> u32
    ensures { result ≡ spec_mark digest }
{
    (digest.wrapping_mul(SPREAD) >> 32) as u32
}

//! Lengths and counts: unsigned LEB128 in the shortest spelling.
ghost use Rattle.uq_codec.specs.Varint.{IsVarint};
ghost use Rattle.uq_codec.specs.Internal.Reading.{ReadsLength, ReadsName};
ghost use Rattle.uq_codec.specs.Internal.Writing.{Writes};

use std::alloc::AllocError;
use uq_value::MOST_SIZE;

/// No length or count in a stored form is greater: each byte and each part that it counts takes a byte of the value.
const MOST_LENGTH: usize = MOST_SIZE as usize;

/// Appends a length or count.
pub(crate) fn push_length(out: &mut Vec<u8>, n: usize) -> Result<(), AllocError>
    ensures { Writes (λ word. IsVarint word n) out.old.items out.new.items result }
{
    let mut rest = n;
    while rest >= 128 {
        out.push((rest % 128) as u8 + 128)?;
        rest /= 128;
    }
    out.push(rest as u8)?;
    Ok(())
}

/// The length or count that is next, of at most 16,777,152, and the bytes behind it.
pub(crate) fn read_length(bytes: &[u8]) -> Option<(usize, &[u8])>
    ensures { ReadsLength bytes.now result }
{
    // What the groups so far count together, and what one in the next group counts.
    let (mut low, mut weight) = (0, 1);
    let mut rest = bytes;
    while weight <= MOST_LENGTH {
        let [group, behind @ ..] = rest else {
            return None;
        };
        let group = *group as usize;
        if group < 128 {
            if group == 0 && weight > 1 {
                return None;
            }
            let n = low + group * weight;
            return if n > MOST_LENGTH {
                None
            } else {
                Some((n, behind))
            };
        }
        low += (group - 128) * weight;
        weight *= 128;
        rest = behind;
    }
    None
}

/// A length and as many bytes, and the bytes behind them.
pub(crate) fn read_name(bytes: &[u8]) -> Option<(&[u8], &[u8])>
    ensures { ReadsName bytes.now result }
{
    let (len, rest) = read_length(bytes)?;
    rest.split_at_checked(len)
}

//! The parts of lists and objects, as far as their depths go.

ghost use Rattle.std.specs.Prelude.{◌≡◌, ◌<◌, ◌+◌, ◌^◌, ℕ, length, map};
ghost use Rattle.std.specs.List.{All};
ghost use Rattle.uq_value.specs.Depth.{most_depth};
ghost use Rattle.uq_value.specs.Plain.{depth as spec_depth};
ghost use Rattle.uq_value.specs.Internal.Names.{member_depth};
ghost use Rattle.uq_value.specs.Internal.Tally.{IsTally};

use crate::depth_counts::DepthCounts;
use crate::measuring::depth;
use crate::object::Member;
use crate::value::Value;

/// An item of a list, or a member of an object.
pub(crate) trait Part {
    ghost depth_of: { Self → ℕ };

    /// How deep its value is.
    fn depth(&self) -> u32
        ensures { result ≡ depth_of self.now };
}

impl Part for Value {
    ghost depth_of = { spec_depth };

    fn depth(&self) -> u32 {
        depth(self)
    }
}

impl Part for Member {
    ghost depth_of = { member_depth };

    fn depth(&self) -> u32 {
        depth(self.value())
    }
}

/// How many of these parts there are at each depth.
pub(crate) fn count<P: Part>(parts: &[P]) -> DepthCounts
    requires few { length parts.now + 1 < 2 ^ 32 }
    requires shallow { All (λ p. P.depth_of p < most_depth) parts.now }
    ensures { IsTally result.counts (map P.depth_of parts.now) }
{
    let mut counts = DepthCounts::new();
    for part in parts {
        counts.add(part.depth());
    }
    counts
}

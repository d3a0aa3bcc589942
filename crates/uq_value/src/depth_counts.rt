//! How many parts of a list or object there are at each depth, by which its own depth is known after any write.

ghost use Rattle.std.specs.Prelude.{◌<◌, ◌≤◌, []};
ghost use Rattle.uq_value.specs.Depth.{most_depth};
ghost use Rattle.uq_value.specs.Internal.Tally.{IsTally, Adds, Changes, IsDeepest};

use crate::measuring::MOST_DEPTH;

/// So many depths a part can have: each that is less than the greatest depth of a whole.
const DEPTHS: usize = MOST_DEPTH as usize;

/// The number of parts at each depth. There are fewer parts than 2^32, so no count leaves its range.
#[derive(Drop)]
pub(crate) struct DepthCounts {
    counts: [u32; DEPTHS],
}

impl DepthCounts {
    /// Of no parts.
    pub(crate) fn new() -> DepthCounts
        ensures { IsTally result.counts [] }
    {
        DepthCounts {
            counts: [0; DEPTHS],
        }
    }

    /// A part of this depth comes.
    pub(crate) fn add(&mut self, depth: u32)
        requires { depth < most_depth }
        ensures { Adds (IsTally self.old.counts) (IsTally self.new.counts) depth }
    {
        let depth = depth as usize;
        self.counts[depth] = self.counts[depth].saturating_add(1);
    }

    /// A part of one depth has another now.
    pub(crate) fn change(&mut self, before: u32, after: u32)
        requires before { before < most_depth }
        requires after { after < most_depth }
        ensures { Changes (IsTally self.old.counts) (IsTally self.new.counts) before after }
    {
        let (before, after) = (before as usize, after as usize);
        self.counts[before] = self.counts[before].saturating_sub(1);
        self.counts[after] = self.counts[after].saturating_add(1);
    }

    /// The depth of the deepest part, 0 where there is none; no part is deeper than `most`.
    pub(crate) fn deepest(&self, most: u32) -> u32
        requires { most < most_depth }
        ensures bound { result ≤ most }
        ensures deepest { IsDeepest (IsTally self.now.counts) most result }
    {
        let mut depth = most;
        while depth > 0 && self.counts[depth as usize] == 0 {
            depth -= 1;
        }
        depth
    }
}

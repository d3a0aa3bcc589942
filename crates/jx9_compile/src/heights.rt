//! How high the stack is at each op of a function, on all ways to it.

ghost use Rattle.std.specs.Prelude.{◌≡◌, ℕ, ◌+◌, ◌^◌, ◌<◌, ◌≤◌, [], ◌∷◌, length, replicate, IfOk, OnOk, slice_set};
ghost use Rattle.jx9_compile.specs.Heights.{as_high, is_misplaced, seen_after, seen_at, seen_with, still_of};
ghost use Rattle.jx9_compile.specs.Heights.{AreHeights, IsBounded, IsReached, IsSmall, IsTable, Never};
ghost use Rattle.jx9_compile.specs.declared.heights.Seen.TheVariants.{Unseen, Once};

use crate::op::Op;
use std::alloc::Global;
use uq_value::NoMemory;

/// So many values are put on the stack, and so many taken from it, on a way to an op. The difference is the height of the
/// stack, which may be below 0.
#[derive(Clone, Copy)]
pub(crate) struct Height {
    put: u128,
    taken: u128,
}

/// What is known of the heights at an op.
#[derive(Clone, Copy)]
pub(crate) enum Seen {
    /// No way to it is known.
    Unseen,
    /// All known ways to it have this height.
    Once(Height),
    /// Two known ways to it have different heights.
    Twice,
}

impl Height {
    /// Whether the stack is as high on both ways.
    fn is_as_high_as(self, other: Height) -> bool
        requires small { self.put + self.taken < 2 ^ 80 }
        requires other_small { other.put + other.taken < 2 ^ 80 }
        ensures { result ≡ as_high self other }
    {
        self.put + other.taken == other.put + self.taken
    }
}

impl Seen {
    /// What is known behind an op, by what is known at it.
    fn after(self, op: &Op) -> Seen
        requires { IsSmall self }
        ensures after { result ≡ seen_after self op.now }
        ensures bounded { (n still : ℕ) → IsBounded n (still + 1) self → IsBounded n still result }
    {
        match self {
            Seen::Unseen => Seen::Unseen,
            Seen::Once(height) => Seen::Once(Height {
                put: height.put + u128::from(op.puts()),
                taken: height.taken + u128::from(op.takes()),
            }),
            Seen::Twice => Seen::Twice,
        }
    }

    /// What is known with these heights besides, where that is more.
    fn with(self, other: Seen) -> Option<Seen>
        requires small { IsSmall self }
        requires other_small { IsSmall other }
        ensures { result ≡ seen_with self other }
    {
        match other {
            Seen::Unseen => None,
            Seen::Once(height) => match self {
                Seen::Unseen => Some(other),
                Seen::Once(known) => {
                    if known.is_as_high_as(height) {
                        None
                    } else {
                        Some(Seen::Twice)
                    }
                }
                Seen::Twice => None,
            },
            Seen::Twice => match self {
                Seen::Twice => None,
                _ => Some(Seen::Twice),
            },
        }
    }

    /// Whether the heights at an op are two, or too low, or it goes on behind the last op.
    pub(crate) fn is_misplaced(self, op: &Op, is_last: bool) -> bool
        requires { IsSmall self }
        ensures { result ≡ is_misplaced self op.now is_last }
    {
        match self {
            Seen::Unseen => false,
            Seen::Once(height) => {
                height.put < height.taken + u128::from(op.takes()) || (op.goes_on() && is_last)
            }
            Seen::Twice => true,
        }
    }
}

/// The table of the heights at all ops, and the ops that are still to be followed. Each is followed whenever more becomes
/// known of it, so at most twice.
#[derive(Drop)]
struct Heights {
    table: Vec<Seen>,
    work: Vec<u32>,
}

impl Heights {
    /// So many ops, at the first of which the stack is empty.
    fn new(alloc: Global, ops: usize) -> Result<Heights, NoMemory>
        requires { 0 < ops }
        ensures table { IfOk result (λ h. h.table.items ≡ slice_set (replicate ops Unseen) 0 (Once (record { put = 0; taken = 0 }))) }
        ensures work { IfOk result (λ h. h.work.items ≡ 0 ∷ []) }
    {
        let mut table = vec![in alloc; Seen::Unseen; ops]?;
        table[0] = Seen::Once(Height { put: 0, taken: 0 });
        let work = vec![in alloc; 0u32]?;
        Ok(Heights { table, work })
    }

    /// Takes in that the heights at an op, if it is one, are these.
    fn reach(&mut self, to: Option<u32>, seen: Seen) -> Result<(), NoMemory>
        requires small { IsSmall seen }
        requires all_small { (at : ℕ) → IsSmall (seen_at self.old.table.items at) }
        ensures { OnOk result (IsReached self.old.table.items self.old.work.items self.new.table.items self.new.work.items to seen) }
    {
        let Some(to) = to else {
            return Ok(());
        };
        if to as usize >= self.table.len() {
            return Ok(());
        }
        if let Some(more) = self.table[to as usize].with(seen) {
            self.table[to as usize] = more;
            self.work.push(to)?;
        }
        Ok(())
    }

    /// Follows an op to those that may come next.
    fn follow(&mut self, ops: &[Op], at: u32) -> Result<(), NoMemory>
        requires few { length ops.now < 2 ^ 32 }
        requires within { at < length ops.now }
        requires table { IsTable ops.now (λ left. left ≡ at) self.old.table.items self.old.work.items }
        requires bounded { IsBounded (length ops.now) (still_of self.old.table.items self.old.work.items + 1) (seen_at self.old.table.items at) }
        ensures table { OnOk result (IsTable ops.now Never self.new.table.items self.new.work.items) }
        ensures still { OnOk result (still_of self.new.table.items self.new.work.items ≤ still_of self.old.table.items self.old.work.items) }
    {
        let op = &ops[at as usize];
        let seen = self.table[at as usize].after(op);
        self.reach(op.next(at), seen)?;
        self.reach(op.jump(), seen)?;
        Ok(())
    }
}

/// The heights at the ops of a function.
pub(crate) fn heights_of(alloc: Global, ops: &[Op]) -> Result<Vec<Seen>, NoMemory>
    requires some { 0 < length ops.now }
    requires few { length ops.now < 2 ^ 32 }
    ensures { IfOk result (λ table. AreHeights ops.now table.items) }
{
    let mut heights = Heights::new(alloc, ops.len())?;
    while let Some(at) = heights.work.pop() {
        heights.follow(ops, at)?;
    }
    let Heights { table, work: _ } = heights;
    Ok(table)
}

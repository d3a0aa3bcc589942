//! Members' places in rows of slots. A mark of the name leads to one row, so that a name is mostly found by a look at a
//! few bytes; of names whose row is full nothing is kept here.

ghost use Rattle.std.specs.Prelude.{◌≡◌, ◌≤◌, ◌<◌, ◌+◌, ◌==◌, [], length, slice_set, OnOk, OnErr, IfOk, MatchOption};
ghost use Rattle.uq_value.specs.Data.{IsDistinct};
ghost use Rattle.uq_value.specs.Internal.Names.{names, IsFound};
ghost use Rattle.uq_value.specs.Internal.Table.{row as spec_row, AreWithin, HasNone, IsFree, IsFull, no_place};

use crate::error::NoMemory;
use crate::object::Member;
use std::alloc::Global;

/// So many slots a row has.
const ROW: usize = 8;

/// What stands in a slot in place of a member's place.
const NO_PLACE: u32 = u32::MAX;

/// A member's place, and the mark of its name.
#[derive(Clone, Copy)]
pub(crate) struct Slot {
    mark: u32,
    at: u32,
}

/// A free slot, and the mark of the name that it is for.
#[derive(Clone, Copy)]
pub(crate) struct Room {
    slot: usize,
    mark: u32,
}

/// Rows of slots, one behind the other.
#[derive(Drop)]
pub(crate) struct NameTable {
    slots: Vec<Slot>,
}

impl NameTable {
    /// Without a row.
    pub(crate) fn new(alloc: Global) -> NameTable
        ensures { result.slots.items ≡ [] }
    {
        NameTable {
            slots: Vec::new(alloc),
        }
    }

    /// Rows of free slots, between twice and four times as many slots as members.
    pub(crate) fn for_members(alloc: Global, members: &[Member]) -> Result<NameTable, NoMemory>
        ensures long { IfOk result (λ t. 8 ≤ length t.slots.items) }
        ensures within { IfOk result (λ t. AreWithin 0 t.slots.items) }
    {
        let mut count = ROW;
        while count / 2 <= members.len() {
            count *= 2;
        }
        let free = Slot {
            mark: 0,
            at: NO_PLACE,
        };
        let mut slots = Vec::new(alloc);
        slots.resize(count, free)?;
        Ok(NameTable { slots })
    }

    /// The same slots, in memory of their own.
    pub(crate) fn copy(&self, alloc: Global) -> Result<NameTable, NoMemory>
        ensures { IfOk result (λ t. t.slots.items ≡ self.now.slots.items) }
    {
        Ok(NameTable {
            slots: Vec::from_slice(alloc, self.slots.as_slice())?,
        })
    }

    /// Whether there is no row.
    pub(crate) fn is_empty(&self) -> bool
        ensures { result ≡ (length self.now.slots.items == 0) }
    {
        self.slots.is_empty()
    }

    /// Whether half of the slots or more would be taken by so many members.
    pub(crate) fn is_tight(&self, members: usize) -> bool {
        members >= self.slots.len() / 2
    }

    /// Where the row begins that a mark leads to.
    #[tactic(auto, unfolding(crate::specs::Internal::Table::row))]
    fn row(&self, mark: u32) -> usize
        requires { 8 ≤ length self.now.slots.items }
        ensures row { result ≡ spec_row (length self.now.slots.items) mark }
        ensures bound { result + 8 ≤ length self.now.slots.items }
    {
        (mark as usize & (self.slots.len() / ROW - 1)) * ROW
    }

    /// The place of the member of this name, where its row has it.
    pub(crate) fn find(&self, members: &[Member], mark: u32, name: &[u8]) -> Option<usize>
        requires long { 8 ≤ length self.now.slots.items }
        requires within { AreWithin (length (names members.now)) self.now.slots.items }
        requires distinct { IsDistinct (names members.now) }
        ensures { MatchOption result (HasNone (names members.now) self.now.slots.items mark name.now) (IsFound (names members.now) name.now) }
    {
        let first = self.row(mark);
        for slot in first..first + ROW {
            let found = self.slots[slot];
            if found.mark != mark || found.at == NO_PLACE {
                continue;
            }
            let at = found.at as usize;
            if members[at].name() == name {
                return Some(at);
            }
        }
        None
    }

    /// A free slot of the row that a mark leads to.
    pub(crate) fn room(&self, mark: u32) -> Option<Room>
        requires { 8 ≤ length self.now.slots.items }
        ensures { MatchOption result (IsFull self.now.slots.items mark) (λ r. (r.mark ≡ mark) × IsFree self.now.slots.items mark r.slot) }
    {
        let first = self.row(mark);
        for slot in first..first + ROW {
            if self.slots[slot].at == NO_PLACE {
                return Some(Room { slot, mark });
            }
        }
        None
    }

    /// Puts the place of a member into a free slot. There is none for a place that doesn't have 32 bits: before there
    /// are so many members, memory ends.
    pub(crate) fn fill(&mut self, room: Room, at: usize) -> Result<(), NoMemory>
        requires { room.slot < length self.old.slots.items }
        ensures ok { OnOk result ((at < no_place) × (self.new.slots.items ≡ slice_set self.old.slots.items room.slot (record { mark = room.mark; at = at }))) }
        ensures unchanged { OnErr result (self.new.slots.items ≡ self.old.slots.items) }
    {
        if at >= NO_PLACE as usize {
            return Err(NoMemory);
        }
        self.slots[room.slot] = Slot {
            mark: room.mark,
            at: at as u32,
        };
        Ok(())
    }
}

//! The index of an object's names, by which one of many is found in about log n steps: most in a row of the table, and
//! those whose row is full by a search in blocks.

ghost use Rattle.std.specs.Prelude.{◌≡◌, ◌≤◌, ◌<◌, ◌+◌, ◌++◌, [], ◌∷◌, length, take, IfOk, IfErr, OnOk, OnErr};
ghost use Rattle.uq_value.specs.Data.{IsDistinct};
ghost use Rattle.uq_value.specs.Internal.NameOrder.{digest as spec_digest};
ghost use Rattle.uq_value.specs.Internal.Index.{IsIndexOf, KeepsIndex, Indexes, BelongsAt, Lacks, LacksBeside};
ghost use Rattle.uq_value.specs.Internal.Names.{names, IsFound};
ghost use Rattle.uq_value.specs.Internal.Table.{mark_of};
ghost use Rattle.uq_value.specs.Places.{place_of};

use crate::blocks::{NameBlocks, Place};
use crate::error::NoMemory;
use crate::kept::FEW;
use crate::marks::{digest, mark};
use crate::object::Member;
use crate::table::{NameTable, Room};
use std::alloc::Global;

/// Where the place of a new member belongs.
#[derive(Clone, Copy)]
pub(crate) enum Spot {
    /// There is no index yet.
    Nowhere,
    /// In a row of the table.
    Row(Room),
    /// In the blocks.
    Beside(Place),
}

/// The places of members: in rows of a table, and where a row is full, beside them in blocks.
#[derive(Drop)]
pub(crate) struct NameIndex {
    table: NameTable,
    beside: NameBlocks,
}

/// The place of the member of this name, looked for one after the other.
pub(crate) fn find_in_order(members: &[Member], name: &[u8]) -> Result<usize, Spot>
    ensures found { IfOk result (IsFound (names members.now) name.now) }
    ensures missing { OnErr result (place_of name.now (names members.now) ≡ length (names members.now)) }
{
    for at in 0..members.len() {
        if members[at].name() == name {
            return Ok(at);
        }
    }
    Err(Spot::Nowhere)
}

impl NameIndex {
    /// An index that has not begun: the first members are looked for one after the other.
    pub(crate) fn new(alloc: Global) -> NameIndex
        ensures { result.table.slots.items ≡ [] }
    {
        NameIndex {
            table: NameTable::new(alloc),
            beside: NameBlocks::new(alloc),
        }
    }

    /// The same index, in memory of its own.
    pub(crate) fn copy(&self, alloc: Global) -> Result<NameIndex, NoMemory>
        ensures { IfOk result (λ i. KeepsIndex self.now i) }
    {
        Ok(NameIndex {
            table: self.table.copy(alloc)?,
            beside: self.beside.copy(alloc)?,
        })
    }

    /// The place of the member of this name, or where that would belong.
    pub(crate) fn find(&self, members: &[Member], name: &[u8]) -> Result<usize, Spot>
        requires index { IsIndexOf (names members.now) self.now }
        requires distinct { IsDistinct (names members.now) }
        ensures found { IfOk result (IsFound (names members.now) name.now) }
        ensures lacks { IfErr result (λ s. Lacks (names members.now) name.now self.now s) }
    {
        if self.table.is_empty() {
            find_in_order(members, name)
        } else {
            self.search(members, name)
        }
    }

    fn search(&self, members: &[Member], name: &[u8]) -> Result<usize, Spot>
        requires index { Indexes self.now (names members.now) }
        requires distinct { IsDistinct (names members.now) }
        ensures found { IfOk result (IsFound (names members.now) name.now) }
        ensures missing { OnErr result (place_of name.now (names members.now) ≡ length (names members.now)) }
        ensures belongs { IfErr result (BelongsAt self.now (names members.now) name.now) }
    {
        let mark = mark(digest(name));
        match self.table.find(members, mark, name) {
            Some(at) => Ok(at),
            None => self.spot(members, mark, name),
        }
    }

    /// Where the place of a member of this name belongs, or the place that is beside the table.
    fn spot(&self, members: &[Member], mark: u32, name: &[u8]) -> Result<usize, Spot>
        requires index { Indexes self.now (names members.now) }
        requires distinct { IsDistinct (names members.now) }
        requires mark { mark ≡ mark_of name.now }
        ensures found { IfOk result (IsFound (names members.now) name.now) }
        ensures belongs { IfErr result (BelongsAt self.now (names members.now) name.now) }
        ensures lacks { OnErr result (LacksBeside self.now (names members.now) name.now) }
    {
        match self.table.room(mark) {
            Some(room) => Err(Spot::Row(room)),
            None => match self.beside.search(members, name) {
                Ok(at) => Ok(at),
                Err(place) => Err(Spot::Beside(place)),
            },
        }
    }

    /// Adds the place of a new member, which comes behind these. An index begins once there are many members, and has
    /// twice as many slots from time to time.
    pub(crate) fn add(
        &mut self,
        alloc: Global,
        members: &[Member],
        name: &[u8],
        spot: Spot,
    ) -> Result<(), NoMemory>
        requires index { IsIndexOf (names members.now) self.old }
        requires distinct { IsDistinct (names members.now) }
        requires lacks { Lacks (names members.now) name.now self.old spot }
        ensures ok { OnOk result (IsIndexOf (names members.now ++ name.now ∷ []) self.new) }
        ensures unchanged { OnErr result (IsIndexOf (names members.now) self.new) }
    {
        if self.table.is_empty() && members.len() < FEW {
            return Ok(());
        }
        if self.table.is_empty() || self.table.is_tight(members.len()) {
            return self.renew(alloc, members, name);
        }
        self.enter(alloc, members, name, spot)
    }

    /// Makes an index of more slots, with the new member's place.
    fn renew(&mut self, alloc: Global, members: &[Member], name: &[u8]) -> Result<(), NoMemory>
        requires distinct { IsDistinct (names members.now) }
        requires missing { place_of name.now (names members.now) ≡ length (names members.now) }
        ensures ok { OnOk result (Indexes self.new (names members.now ++ name.now ∷ [])) }
        ensures unchanged { OnErr result (self.new ≡ self.old) }
    {
        let mut index = NameIndex::of(alloc, members)?;
        match index.spot(members, mark(digest(name)), name) {
            Ok(_) => Ok(()),
            Err(spot) => {
                index.enter(alloc, members, name, spot)?;
                *self = index;
                Ok(())
            }
        }
    }

    /// Adds the place of a new member, which comes behind these.
    fn enter(
        &mut self,
        alloc: Global,
        members: &[Member],
        name: &[u8],
        spot: Spot,
    ) -> Result<(), NoMemory>
        requires index { Indexes self.old (names members.now) }
        requires belongs { BelongsAt self.old (names members.now) name.now spot }
        ensures ok { OnOk result (Indexes self.new (names members.now ++ name.now ∷ [])) }
        ensures unchanged { OnErr result (Indexes self.new (names members.now)) }
    {
        match spot {
            Spot::Nowhere => Ok(()),
            Spot::Row(room) => self.table.fill(room, members.len()),
            Spot::Beside(place) => self.beside.enter(alloc, members, name, place),
        }
    }

    /// An index of these members.
    fn of(alloc: Global, members: &[Member]) -> Result<NameIndex, NoMemory>
        requires { IsDistinct (names members.now) }
        ensures { IfOk result (λ i. Indexes i (names members.now)) }
    {
        let mut index = NameIndex {
            table: NameTable::for_members(alloc, members)?,
            beside: NameBlocks::new(alloc),
        };
        for at in 0..members.len() {
            index.add_next(alloc, members, at)?;
        }
        Ok(index)
    }

    /// Adds the place of one of these members, where those of all before it are there.
    fn add_next(&mut self, alloc: Global, members: &[Member], at: usize) -> Result<(), NoMemory>
        requires within { at < length members.now }
        requires distinct { IsDistinct (names members.now) }
        requires index { Indexes self.old (take at (names members.now)) }
        ensures { OnOk result (Indexes self.new (take (at + 1) (names members.now))) }
    {
        let before = &members[..at];
        let name = members[at].name();
        match self.spot(before, mark(digest(name)), name) {
            Ok(_) => Ok(()),
            Err(spot) => self.enter(alloc, before, name, spot),
        }
    }
}

//! Objects, and writes within them.
ghost use Rattle.std.specs.Prelude.{◌≡◌, ◌≤◌, ◌<◌, ◌+◌, [], ◌∷◌, ◌++◌, length, map, min, ◌-◌, ◌^◌, slice_get, option_copied, option_map, IfSome, IfOk, IfErr, OnOk, OnErr, Ok};
ghost use Rattle.uq_value.specs.Faults.{Refuses};
ghost use Rattle.uq_value.specs.Put.{limited, named};
ghost use Rattle.uq_value.specs.Internal.Writing.{put_at, name_at, object_beside_next};
ghost use Rattle.uq_value.specs.declared.value.Value.{Value};
ghost use Rattle.uq_value.specs.Internal.Names.{name_of, names, member_depth};
ghost use Rattle.uq_value.specs.Internal.Kept.{plain_member};
ghost use Rattle.uq_value.specs.Internal.Beside.{size_of, depth_of, CountsAre, NamesAre, KeepsCounts, LacksAt};
ghost use Rattle.uq_value.specs.Data.{object, members_of, IsDistinct};
ghost use Rattle.uq_value.specs.Size.{data_size, text_size, most_size};
ghost use Rattle.uq_value.specs.Depth.{data_depth, most_depth};
ghost use Rattle.uq_value.specs.IsValue.{IsValue, MembersAreSound};
ghost use Rattle.uq_value.specs.Plain.{members as spec_members, plain, depth as spec_depth};
ghost use Rattle.uq_value.specs.Truth.{is_empty as spec_is_empty};
ghost use Rattle.uq_value.specs.Same.{data_same};
ghost use Rattle.uq_value.specs.Reading.{find_member};

use crate::comparing::alike;
use crate::copying::copy;
use crate::error::{NoMemory, ValueFault};
use crate::kept::Kept;
use crate::measuring::{MOST_DEPTH, MOST_SIZE, depth, is_value, leb_size, name_size, size};
use crate::names::Spot;
use crate::step::Step;
use crate::value::Value;
use crate::writing::write;
use std::alloc::Global;
use std::marker::Model;

/// A member of an object.
#[cycle(value)]
#[derive(Drop)]
pub struct Member {
    name: Vec<u8>,
    value: Value,
}

impl Member {
    pub(crate) fn name(&self) -> &[u8]
        ensures { result.now ≡ name_of self.now }
    {
        self.name.as_slice()
    }

    pub(crate) fn value(&self) -> &Value
        ensures { result.now ≡ self.now.value }
    {
        &self.value
    }

    pub(crate) fn set_value(&mut self, value: Value)
        ensures { self.new ≡ record self.old { value = value } }
    {
        self.value = value;
    }
}

/// Members in order of first insertion, with distinct names. Contracts see the list of their names and plain data.
#[cycle(value)]
#[derive(Drop)]
pub struct Object {
    members: Vec<Member>,
    kept: Kept,
}

impl Model for Object {
    ghost use Rattle.uq_value.specs.Data.{Pairs};
    ghost use Rattle.uq_value.specs.Internal.Codes.{members_code};

    ghost Value = { Pairs };

    ghost coded = { members_code };

    ghost use Rattle.uq_value.specs.Internal.Kept.{object_view, IsObject, object_rank};

    ghost view = { object_view };

    ghost invariant = { IsObject };

    ghost size = { object_rank };

    ghost use Rattle.uq_value.specs.Internal.Falls.{object_falls};

    ghost size_decreases = { λ a h. object_falls a.members.items };
}

impl Object {
    /// An object without members, which takes no memory yet.
    pub fn new(alloc: Global) -> Object
        ensures { result ≡ [] }
    {
        Object {
            members: Vec::new(alloc),
            kept: Kept::new(),
        }
    }

    /// The number of members.
    pub fn len(&self) -> usize
        ensures { result ≡ length self.now }
    {
        self.members.len()
    }

    /// Whether there is no member.
    pub fn is_empty(&self) -> bool
        ensures { result ≡ spec_is_empty self.now }
    {
        self.members.is_empty()
    }

    /// The name and value of the member at a place from 0 on, in order of first insertion. The name fits in a text.
    pub fn member(&self, at: usize) -> Option<(&[u8], &Value)>
        ensures member { option_map (λ m. (m.0.now, m.1.now)) result ≡ slice_get (spec_members self.now) at }
        ensures fits { IfSome result (λ m. text_size m.0.now ≤ most_size) }
    {
        match sqlite_items::at(self.members.as_slice(), at) {
            Some(m) => {
                let name = m.name();
                Some((name, &m.value))
            }
            None => None,
        }
    }

    /// The member of this name.
    pub(crate) fn find(&self, name: &[u8]) -> Option<&Value>
        ensures { option_copied result ≡ find_member name.now self.now }
    {
        match self.kept.find(self.members.as_slice(), name) {
            Ok(at) => Some(&self.members[at].value),
            Err(_) => None,
        }
    }

    /// Whether the two have the same members in the same order.
    #[cycle(alike)]
    pub(crate) fn alike(&self, other: &Object) -> bool
        ensures { result ≡ data_same (object self.now) (object other.now) }
    {
        if self.members.len() != other.members.len() {
            return false;
        }
        for at in 0..self.members.len() {
            let (mine, theirs) = (&self.members[at], &other.members[at]);
            if mine.name() != theirs.name() {
                return false;
            }
            if !alike(&mine.value, &theirs.value) {
                return false;
            }
        }
        true
    }

    #[cycle(copy)]
    pub(crate) fn copy(&self, alloc: Global) -> Result<Object, NoMemory>
        ensures { IfOk result (λ o. o ≡ self.now) }
    {
        let mut members = Vec::with_capacity(alloc, self.members.len())?;
        for m in &self.members {
            let name = owned(alloc, m.name())?;
            let value = copy(alloc, &m.value)?;
            members.push(Member { name, value })?;
        }
        let kept = self.kept.copy(alloc)?;
        Ok(Object { members, kept })
    }

    /// Writes from the member of this name on, or adds that as the last one.
    #[cycle(write)]
    pub(crate) fn write_member(
        &mut self,
        alloc: Global,
        name: &[u8],
        rest: &[Step],
        new: Value,
        room: u64,
    ) -> Result<(), ValueFault>
        requires shallow { length rest.now + spec_depth new < most_depth }
        requires small { room ≤ most_size }
        ensures ok { OnOk result (put_at room (named name.now) rest.now new (Value.Object self.old) ≡ Ok (Value.Object self.new)) }
        ensures refused { IfErr result (Refuses (put_at room (named name.now) rest.now new (Value.Object self.old))) }
        ensures unchanged { OnErr result (self.new ≡ self.old) }
    {
        match self.kept.find(self.members.as_slice(), name) {
            Ok(at) => self.write_at(alloc, at, rest, new, room),
            Err(spot) => {
                let beside = self.size_beside_next() + name_size(name);
                let mut value = Value::Null;
                write(alloc, &mut value, rest, new, room.saturating_sub(beside))?;
                is_value(&value);
                let (size, depth) = (beside + size(&value), depth(&value));
                let name = owned(alloc, name)?;
                add(&mut self.members, &mut self.kept, alloc, name, spot, value)?;
                self.kept.add(size, depth);
                Ok(())
            }
        }
    }

    /// Writes from the value of a member that is there on.
    #[cycle(write)]
    fn write_at(
        &mut self,
        alloc: Global,
        at: usize,
        rest: &[Step],
        new: Value,
        room: u64,
    ) -> Result<(), ValueFault>
        requires within { at < length self.old }
        requires shallow { length rest.now + spec_depth new < most_depth }
        requires small { room ≤ most_size }
        ensures ok { OnOk result (put_at room (named (name_at self.old at)) rest.now new (Value.Object self.old) ≡ Ok (Value.Object self.new)) }
        ensures refused { IfErr result (Refuses (put_at room (named (name_at self.old at)) rest.now new (Value.Object self.old))) }
        ensures unchanged { OnErr result (self.new ≡ self.old) }
    {
        let child = &mut self.members[at].value;
        let (size_before, depth_before) = (size(child), depth(child));
        write(
            alloc,
            child,
            rest,
            new,
            room.saturating_sub(self.kept.size() - size_before),
        )?;
        is_value(child);
        let (size_after, depth_after) = (size(child), depth(child));
        let size = self.kept.size() - size_before + size_after;
        self.kept.mend(
            alloc,
            self.members.as_slice(),
            size,
            depth_before,
            depth_after,
        );
        Ok(())
    }

    /// The object of these members. Refused is first one that would be `TooDeep`, then one that would be `TooLarge`.
    pub(crate) fn from_members(members: Vec<Member>, kept: Kept) -> Result<Object, ValueFault>
        requires distinct { IsDistinct (names members.items) }
        requires index { NamesAre kept (names members.items) }
        requires counts { CountsAre kept (map member_depth members.items) }
        ensures ok { IfOk result (λ o. limited (Value.Object (map plain_member members.items)) ≡ Ok (Value.Object o)) }
        ensures refused { IfErr result (Refuses (limited (Value.Object (map plain_member members.items)))) }
    {
        let (size, depth) = measured(members.as_slice());
        if depth > MOST_DEPTH {
            return Err(ValueFault::TooDeep);
        }
        if size > MOST_SIZE {
            return Err(ValueFault::TooLarge);
        }
        let kept = kept.with_numbers(size, depth);
        Ok(Object { members, kept })
    }

    /// The size with one member more, but for that member's own.
    fn size_beside_next(&self) -> u64
        ensures size { result ≡ object_beside_next self.now }
        ensures small { result ≤ most_size + 10 }
    {
        let count = self.members.len();
        self.kept.size() - leb_size(count) + leb_size(count + 1)
    }

    /// An object is a value: a caller's proof learns it from this call, which does nothing.
    pub fn is_value(&self)
        ensures { IsValue (object self.now) }
    {
        let _ = &self.members;
    }

    pub(crate) fn size(&self) -> u64
        ensures size { result ≡ data_size (object self.now) }
        ensures fits { data_size (object self.now) ≤ most_size }
    {
        self.kept.size()
    }

    pub(crate) fn depth(&self) -> u32
        ensures depth { result ≡ data_depth (object self.now) }
        ensures fits { data_depth (object self.now) ≤ most_depth }
    {
        self.kept.depth()
    }
}

/// The name in memory of its own.
fn owned(alloc: Global, name: &[u8]) -> Result<Vec<u8>, NoMemory>
    ensures { IfOk result (λ v. v.items ≡ name.now) }
{
    Ok(Vec::from_slice(alloc, name)?)
}

/// Adds a member of another name, whose entry in the index belongs there.
pub(crate) fn add(
    members: &mut Vec<Member>,
    kept: &mut Kept,
    alloc: Global,
    name: Vec<u8>,
    spot: Spot,
    value: Value,
) -> Result<(), NoMemory>
    requires index { NamesAre kept.old (names members.old.items) }
    requires distinct { IsDistinct (names members.old.items) }
    requires lacks { LacksAt kept.old (names members.old.items) name.items spot }
    ensures ok { OnOk result (map plain_member members.new.items ≡ map plain_member members.old.items ++ (name.items, plain value) ∷ []) }
    ensures unchanged { OnErr result (members.new.items ≡ members.old.items) }
    ensures depths { OnOk result (map member_depth members.new.items ≡ map member_depth members.old.items ++ spec_depth value ∷ []) }
    ensures index { NamesAre kept.new (names members.new.items) }
    ensures size { size_of kept.new ≡ size_of kept.old }
    ensures depth { depth_of kept.new ≡ depth_of kept.old }
    ensures counts { KeepsCounts kept.old kept.new }
{
    // the member then has its place, whatever becomes of the index
    members.try_reserve(1)?;
    kept.add_name(alloc, members.as_slice(), name.as_slice(), spot)?;
    let member = Member { name, value };
    members.push(member)?;
    Ok(())
}

/// The size and depth that an object of these members has. A size above 2^64 - 1 counts as that.
fn measured(members: &[Member]) -> (u64, u32)
    ensures size { result.0 ≡ min (data_size (object (map plain_member members.now))) (2 ^ 64 - 1) }
    ensures depth { result.1 ≡ data_depth (object (map plain_member members.now)) }
    ensures sound { MembersAreSound (members_of (map plain_member members.now)) }
{
    let mut whole = 1 + leb_size(members.len());
    let mut deepest = 0;
    for m in members {
        is_value(&m.value);
        whole = whole.saturating_add(name_size(m.name()) + size(&m.value));
        deepest = depth(&m.value).max(deepest);
    }
    (whole, deepest + 1)
}

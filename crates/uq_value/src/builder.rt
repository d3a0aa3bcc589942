//! Objects from members that come one after the other.

ghost use Rattle.std.specs.Prelude.{◌≡◌, [], IfOk, IfErr, OnOk, OnErr, Ok};
ghost use Rattle.uq_value.specs.Data.{names_of, IsDistinct};
ghost use Rattle.uq_value.specs.Faults.{Refuses};
ghost use Rattle.uq_value.specs.Plain.{plain};
ghost use Rattle.uq_value.specs.Places.{place_of};
ghost use Rattle.uq_value.specs.Put.{limited, with_member};
ghost use Rattle.uq_value.specs.declared.value.Value.{Value};

use crate::error::{NoMemory, ValueFault};
use crate::kept::Kept;
use crate::object::{Member, Object, add};
use crate::value::Value;
use std::alloc::Global;
use std::marker::Model;

/// Members on the way to an object, of any number and size, with distinct names. Each is found in about as many steps
/// as the logarithm of their number has. Contracts see the list of their names and plain data.
#[derive(Drop)]
pub struct ObjectBuilder {
    members: Vec<Member>,
    kept: Kept,
    alloc: Global,
}

impl Model for ObjectBuilder {
    ghost use Rattle.uq_value.specs.Data.{Pairs};
    ghost use Rattle.uq_value.specs.Internal.Codes.{members_code};
    ghost use Rattle.uq_value.specs.Internal.Building.{builder_view, IsBuilder};

    ghost Value = { Pairs };

    ghost coded = { members_code };

    ghost view = { builder_view };

    ghost invariant = { IsBuilder };
}

impl ObjectBuilder {
    /// A builder without members, which takes no memory yet.
    pub fn new(alloc: Global) -> ObjectBuilder
        ensures { result ≡ [] }
    {
        ObjectBuilder {
            members: Vec::new(alloc),
            kept: Kept::new(),
            alloc,
        }
    }

    /// Sets the member of this name, whose bytes are the builder's from now on: one that is there keeps its place, and a
    /// new one comes last. The answer is its place: that of a new one is the number of members before.
    pub fn set(&mut self, name: Vec<u8>, value: Value) -> Result<usize, NoMemory>
        ensures place { IfOk result (λ at. at ≡ place_of name.items (names_of self.old)) }
        ensures ok { OnOk result (self.new ≡ with_member name.items (plain value) self.old) }
        ensures distinct { OnOk result (IsDistinct (names_of self.new)) }
        ensures unchanged { OnErr result (self.new ≡ self.old) }
    {
        match self.kept.find(self.members.as_slice(), name.as_slice()) {
            Ok(at) => {
                self.members[at].set_value(value);
                Ok(at)
            }
            Err(spot) => {
                let at = self.members.len();
                add(
                    &mut self.members,
                    &mut self.kept,
                    self.alloc,
                    name,
                    spot,
                    value,
                )?;
                Ok(at)
            }
        }
    }

    /// The object of these members. Refused is first one that would be `TooDeep`, then one that would be `TooLarge`.
    pub fn finish(self, _alloc: Global) -> Result<Object, ValueFault>
        ensures ok { IfOk result (λ o. limited (Value.Object self) ≡ Ok (Value.Object o)) }
        ensures refused { IfErr result (Refuses (limited (Value.Object self))) }
    {
        let ObjectBuilder { members, kept, .. } = self;
        Object::from_members(members, kept)
    }
}

//! Writes, planned: their refusals in order, and what the store that they make holds.

ghost use Rattle.std.specs.Prelude.{◌≡◌, Ok, Err, IfOk, IfErr};
ghost use Rattle.std.specs.FinMap as map;
ghost use Rattle.std.specs.List.{list_all};
ghost use Rattle.uq_model.specs.Change.{Chooses, IsPlanned, room as spec_room};
ghost use Rattle.uq_model.specs.Collections.{found as spec_found, bounded, is_name as spec_is_name, is_name_byte as spec_is_name_byte};
ghost use Rattle.uq_model.specs.Collections.{created, collection_dropped, records_stored, record_replaced, record_dropped, schema_set};
ghost use Rattle.uq_model.specs.Full.{sums, is_over as spec_is_over};
ghost use Rattle.uq_model.specs.Held.{held_in};
ghost use Rattle.uq_model.specs.IsStore.{AreLimits};

use crate::change::{Alteration, Change, Plan, WriteStop};
use crate::collection::Collection;
use crate::held::Held;
use crate::measuring::{collection_bytes, own_bytes, record_bytes, records_bytes};
use crate::records::{batch, is_object, record_of};
use crate::{Limits, Refusal};
use std::alloc::Global;
use uq_value::{Value, copy, is_value, size};

/// The most bytes of a name.
const MOST_NAME: usize = 64;

/// Whether these bytes are a name.
fn is_name(name: &[u8]) -> bool
    ensures { result ≡ spec_is_name name.now }
{
    !name.is_empty() && name.len() <= MOST_NAME && are_name_bytes(name)
}

fn are_name_bytes(bytes: &[u8]) -> bool
    ensures { result ≡ list_all spec_is_name_byte bytes.now }
{
    bytes.iter().all(|c| is_name_byte(*c))
}

/// A letter, a digit or `_`.
fn is_name_byte(c: u8) -> bool
    ensures { result ≡ spec_is_name_byte c }
{
    c.is_ascii_alphanumeric() || c == b'_'
}

/// Whether what a write makes is greater than before, and greater than the limit.
fn is_over(limit: u64, before: u64, after: u64) -> bool
    ensures { result ≡ spec_is_over limit before after }
{
    before < after && limit < after
}

impl Held {
    /// The collection of this name.
    pub fn found(&self, name: &[u8]) -> Result<&Collection, Refusal>
        ensures ok { IfOk result (λ c. spec_found name.now (held_in self.now) ≡ Ok c.now) }
        ensures refused { IfErr result (λ refusal. spec_found name.now (held_in self.now) ≡ Err refusal) }
    {
        if !is_name(name) {
            return Err(Refusal::BadName);
        }
        match self.collections.get(name) {
            Some(collection) => Ok(collection),
            None => Err(Refusal::NoCollection),
        }
    }

    fn has(&self, name: &[u8]) -> bool
        ensures { result ≡ map.contains_key (held_in self.now).collections name.now }
    {
        self.collections.get(name).is_some()
    }

    /// Refuses a write that makes more than there is room for.
    fn room(&self, limits: Limits, entries: u64, bytes: u64) -> Result<(), Refusal>
        ensures { result ≡ spec_room limits (sums (held_in self.now)) (record { entries = entries; bytes = bytes }) }
    {
        let too_many = is_over(limits.entries, self.entries, entries);
        if too_many || is_over(limits.bytes, self.bytes, bytes) {
            return Err(Refusal::Full);
        }
        Ok(())
    }

    /// A collection that comes.
    pub fn creation(&self, alloc: Global, limits: Limits, name: &[u8]) -> Result<Plan, WriteStop>
        requires { AreLimits limits }
        ensures chooses { Chooses name.now (held_in self.now) (bounded limits (created name.now) (held_in self.now)) result }
        ensures planned { IfOk result (IsPlanned name.now (held_in self.now)) }
    {
        if !is_name(name) {
            return Err(WriteStop::Refused(Refusal::BadName));
        }
        if self.has(name) {
            return Err(WriteStop::Refused(Refusal::Exists));
        }
        let entries = self.entries + 1;
        let bytes = self.bytes + own_bytes(name, &Value::Null);
        self.room(limits, entries, bytes)?;
        let own = Vec::from_slice(alloc, name)?;
        Ok(Plan {
            change: Change::Create(own),
            entries,
            bytes,
        })
    }

    /// A collection that goes.
    pub fn dropping(&self, name: &[u8]) -> Result<Plan, WriteStop>
        ensures chooses { Chooses name.now (held_in self.now) (collection_dropped name.now (held_in self.now)) result }
        ensures planned { IfOk result (IsPlanned name.now (held_in self.now)) }
    {
        match self.found(name) {
            Err(refusal) => Err(WriteStop::Refused(refusal)),
            Ok(collection) => Ok(Plan {
                change: Change::DropCollection,
                entries: self.entries - 1 - collection.records.len() as u64,
                bytes: self.bytes - collection_bytes(name, collection),
            }),
        }
    }

    /// Records that come.
    pub fn storing(
        &self,
        alloc: Global,
        limits: Limits,
        name: &[u8],
        objects: &[Value],
    ) -> Result<Plan, WriteStop>
        requires { AreLimits limits }
        ensures chooses { Chooses name.now (held_in self.now)
            (bounded limits (records_stored name.now objects.now) (held_in self.now)) result }
        ensures planned { IfOk result (IsPlanned name.now (held_in self.now)) }
    {
        let collection = match self.found(name) {
            Ok(collection) => collection,
            Err(refusal) => return Err(WriteStop::Refused(refusal)),
        };
        let records = match batch(alloc, collection.next, objects) {
            Ok(records) => records,
            Err(stop) => return Err(stop),
        };
        let count = records.len() as u64;
        let next = collection.next + count;
        let entries = self.entries + count;
        let more = records_bytes(name, records.as_slice());
        let bytes = self.bytes.saturating_add(more);
        self.room(limits, entries, bytes)?;
        Ok(Plan {
            change: Change::Alter(Alteration::Append(records, next)),
            entries,
            bytes,
        })
    }

    /// An object that comes in the place of a record.
    pub fn replacing(
        &self,
        alloc: Global,
        limits: Limits,
        name: &[u8],
        id: u64,
        object: &Value,
    ) -> Result<Plan, WriteStop>
        requires { AreLimits limits }
        ensures chooses { Chooses name.now (held_in self.now)
            (bounded limits (record_replaced name.now id object.now) (held_in self.now)) result }
        ensures planned { IfOk result (IsPlanned name.now (held_in self.now)) }
    {
        let collection = match self.found(name) {
            Ok(collection) => collection,
            Err(refusal) => return Err(WriteStop::Refused(refusal)),
        };
        let Some(old) = collection.records.get(id) else {
            return Err(WriteStop::Refused(Refusal::NoRecord));
        };
        let made = match record_of(alloc, id, object) {
            Ok(made) => made,
            Err(stop) => return Err(stop),
        };
        let bytes = self.bytes + size(&made) - size(old);
        self.room(limits, self.entries, bytes)?;
        Ok(Plan {
            change: Change::Alter(Alteration::Replace(id, made)),
            entries: self.entries,
            bytes,
        })
    }

    /// A record that goes.
    pub fn removing(&self, name: &[u8], id: u64) -> Result<Plan, WriteStop>
        ensures chooses { Chooses name.now (held_in self.now) (record_dropped name.now id (held_in self.now)) result }
        ensures planned { IfOk result (IsPlanned name.now (held_in self.now)) }
    {
        let collection = match self.found(name) {
            Ok(collection) => collection,
            Err(refusal) => return Err(WriteStop::Refused(refusal)),
        };
        let Some(old) = collection.records.get(id) else {
            return Err(WriteStop::Refused(Refusal::NoRecord));
        };
        Ok(Plan {
            change: Change::Alter(Alteration::Remove(id)),
            entries: self.entries - 1,
            bytes: self.bytes - record_bytes(name, old),
        })
    }

    /// A schema that comes.
    pub fn describing(
        &self,
        alloc: Global,
        limits: Limits,
        name: &[u8],
        schema: &Value,
    ) -> Result<Plan, WriteStop>
        requires { AreLimits limits }
        ensures chooses { Chooses name.now (held_in self.now)
            (bounded limits (schema_set name.now schema.now) (held_in self.now)) result }
        ensures planned { IfOk result (IsPlanned name.now (held_in self.now)) }
    {
        let collection = match self.found(name) {
            Ok(collection) => collection,
            Err(refusal) => return Err(WriteStop::Refused(refusal)),
        };
        if !is_object(schema) {
            return Err(WriteStop::Refused(Refusal::NotObject));
        }
        is_value(schema);
        let bytes = self.bytes + size(schema) - size(&collection.schema);
        self.room(limits, self.entries, bytes)?;
        let own = copy(alloc, schema)?;
        Ok(Plan {
            change: Change::Alter(Alteration::SetSchema(own)),
            entries: self.entries,
            bytes,
        })
    }
}

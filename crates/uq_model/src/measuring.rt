//! What collections and records take of a store's bytes.

ghost use Rattle.std.specs.Prelude.{◌≡◌, ℕ, ◌+◌, ◌-◌, ◌≤◌, ◌^◌, length, min, sum_by};
ghost use Rattle.std.specs.FinMap as map;
ghost use Rattle.uq_value.specs.Plain.{size as spec_size};
ghost use Rattle.uq_model.specs.Full.{record_bytes as spec_record_bytes};
ghost use Rattle.uq_model.specs.Full.{collection_bytes as spec_collection_bytes};

use crate::collection::Collection;
use crate::tables::ById;
use uq_value::{Value, size};

/// What a collection takes beside its name and its schema.
const COLLECTION_BYTES: u64 = 34;

/// What a record takes beside the name of its collection and its object.
const RECORD_BYTES: u64 = 27;

/// What a record takes.
pub(crate) fn record_bytes(name: &[u8], object: &Value) -> u64
    requires { length name.now ≤ 64 }
    ensures { (id : ℕ) → result ≡ spec_record_bytes name.now (id, object.now) }
{
    RECORD_BYTES + name.len() as u64 + size(object)
}

/// What these records take. More than 2^64 - 1 counts as that.
pub(crate) fn records_bytes(name: &[u8], records: &[(u64, Value)]) -> u64
    requires { length name.now ≤ 64 }
    ensures { result ≡ min (sum_by (spec_record_bytes name.now) records.now) (2 ^ 64 - 1) }
{
    let mut bytes = 0u64;
    for entry in records {
        bytes = bytes.saturating_add(record_bytes(name, &entry.1));
    }
    bytes
}

/// What a collection takes without its records.
pub(crate) fn own_bytes(name: &[u8], schema: &Value) -> u64
    requires { length name.now ≤ 64 }
    ensures { result ≡ 34 + length name.now + spec_size schema.now }
{
    COLLECTION_BYTES + name.len() as u64 + size(schema)
}

/// What a collection takes with its records. More than 2^64 - 1 counts as that.
pub(crate) fn collection_bytes(name: &[u8], collection: &Collection) -> u64
    requires { length name.now ≤ 64 }
    ensures { result ≡ min (spec_collection_bytes (name.now, collection.now)) (2 ^ 64 - 1) }
{
    let own = own_bytes(name, &collection.schema);
    own.saturating_add(collection.records.bytes(name))
}

impl ById<Value> {
    /// What these values take as the records of a collection. More than 2^64 - 1 counts as that.
    fn bytes(&self, name: &[u8]) -> u64
        requires { length name.now ≤ 64 }
        ensures { result ≡ min (sum_by (spec_record_bytes name.now) (map.entries self.now)) (2 ^ 64 - 1) }
    {
        let mut bytes = 0u64;
        for (_, value) in self.tree.iter() {
            bytes = bytes.saturating_add(record_bytes(name, value));
        }
        bytes
    }
}

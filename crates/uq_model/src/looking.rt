//! What is told of the collections in memory.

ghost use Rattle.std.specs.Prelude.{◌≡◌, IfOk};
ghost use Rattle.std.specs.Option.{IfSome};
ghost use Rattle.uq_model.specs.Base.{IsInfo, IsIdFrom};
ghost use Rattle.uq_model.specs.Collections.{collection_info, id_at_or_after, record_at, schema_at};
ghost use Rattle.uq_model.specs.Held.{held_in};

use crate::CollectionInfo;
use crate::held::Held;
use std::alloc::Global;
use uq_value::{NoMemory, Value, copy};

impl Held {
    /// How many records a collection has, and its next id.
    pub fn info(&self, name: &[u8]) -> Option<CollectionInfo>
        ensures info { result ≡ collection_info name.now (held_in self.now) }
        ensures bounds { IfSome result IsInfo }
    {
        match self.collections.get(name) {
            Some(collection) => Some(CollectionInfo {
                count: collection.records.len() as u64,
                next_id: collection.next,
            }),
            None => None,
        }
    }

    /// The least id of a record that is there and at least `id`.
    pub fn at_or_after(&self, name: &[u8], id: u64) -> Option<u64>
        ensures found { result ≡ id_at_or_after name.now id (held_in self.now) }
        ensures bounds { IfSome result (IsIdFrom id) }
    {
        match self.collections.get(name) {
            Some(collection) => collection.records.at_or_after(id),
            None => None,
        }
    }

    /// A copy of the record of this id.
    pub fn record(&self, alloc: Global, name: &[u8], id: u64) -> Result<Option<Value>, NoMemory>
        ensures { IfOk result (λ found. found ≡ record_at name.now id (held_in self.now)) }
    {
        let Some(collection) = self.collections.get(name) else {
            return Ok(None);
        };
        let Some(record) = collection.records.get(id) else {
            return Ok(None);
        };
        Ok(Some(copy(alloc, record)?))
    }

    /// A copy of the schema of a collection.
    pub fn schema(&self, alloc: Global, name: &[u8]) -> Result<Option<Value>, NoMemory>
        ensures { IfOk result (λ found. found ≡ schema_at name.now (held_in self.now)) }
    {
        let Some(collection) = self.collections.get(name) else {
            return Ok(None);
        };
        Ok(Some(copy(alloc, &collection.schema)?))
    }
}

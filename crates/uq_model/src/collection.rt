//! Collections of records.

ghost use Rattle.std.specs.Prelude.{◌≡◌, IfOk};

use crate::tables::ById;
use std::alloc::Global;
use uq_value::{NoMemory, Value, copy};

/// What is told of a collection.
#[derive(Clone, Copy, Debug, PartialEq, Eq)]
pub struct CollectionInfo {
    /// The number of its records.
    pub count: u64,
    /// The id of the record that is stored next.
    pub next_id: u64,
}

/// A collection: its records by id, each an object whose last member is `__id`.
#[derive(Drop)]
pub struct Collection {
    /// Above every id that was given in the collection's life.
    pub next: u64,
    /// Null until one is set, then an object.
    pub schema: Value,
    pub records: ById<Value>,
}

impl Collection {
    ghost use Rattle.uq_model.specs.Collections.{new_collection};

    /// One without records, whose ids begin at 0. It takes no memory yet.
    pub fn new(alloc: Global) -> Collection
        ensures { result ≡ new_collection }
    {
        Collection {
            next: 0,
            schema: Value::Null,
            records: ById::new(alloc),
        }
    }

    /// The same collection, in memory of its own.
    pub fn copy(&self, alloc: Global) -> Result<Collection, NoMemory>
        ensures { IfOk result (λ c. c ≡ self.now) }
    {
        let schema = copy(alloc, &self.schema)?;
        let records = self.records.copy(alloc)?;
        Ok(Collection {
            next: self.next,
            schema,
            records,
        })
    }
}

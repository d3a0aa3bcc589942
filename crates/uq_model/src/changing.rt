//! Planned writes, made.

ghost use Rattle.std.specs.Prelude.{◌≡◌, OnOk};
ghost use Rattle.uq_model.specs.Change.{altered, altered_collections, changed_collections};
ghost use Rattle.uq_model.specs.Collections.{with_records};

use crate::change::{Alteration, Change};
use crate::collection::Collection;
use crate::tables::{ById, ByName};
use std::alloc::Global;
use uq_value::{NoMemory, Value};

/// Makes a change of the collections, or a part of it where memory is wanting.
pub(crate) fn change_collections(
    alloc: Global,
    collections: &mut ByName<Collection>,
    name: &[u8],
    change: Change,
) -> Result<(), NoMemory>
    ensures { OnOk result (collections.new ≡ changed_collections name.now change collections.old) }
{
    match change {
        Change::Create(own) => collections.insert(own, Collection::new(alloc)),
        Change::DropCollection => {
            let _ = collections.remove(name);
            Ok(())
        }
        Change::Alter(alteration) => alter_collection(alloc, collections, name, alteration),
    }
}

/// Alters the collection of this name, where there is one. It is taken out for that time.
fn alter_collection(
    alloc: Global,
    collections: &mut ByName<Collection>,
    name: &[u8],
    alteration: Alteration,
) -> Result<(), NoMemory>
    ensures { OnOk result (collections.new ≡ altered_collections name.now alteration collections.old) }
{
    if let Some(mut collection) = collections.replace(name, Collection::new(alloc)) {
        collection.alter(alteration)?;
        let _ = collections.replace(name, collection);
    }
    Ok(())
}

impl Collection {
    /// Makes an alteration, or a part of it where memory is wanting.
    fn alter(&mut self, alteration: Alteration) -> Result<(), NoMemory>
        ensures { OnOk result (self.new ≡ altered alteration self.old) }
    {
        match alteration {
            Alteration::Append(records, next) => {
                self.next = next;
                insert_records(&mut self.records, records)
            }
            Alteration::Replace(id, record) => self.records.insert(id, record),
            Alteration::Remove(id) => {
                let _ = self.records.remove(id);
                Ok(())
            }
            Alteration::SetSchema(schema) => {
                self.schema = schema;
                Ok(())
            }
        }
    }
}

fn insert_records(records: &mut ById<Value>, more: Vec<(u64, Value)>) -> Result<(), NoMemory>
    ensures { OnOk result (records.new ≡ with_records more.items records.old) }
{
    for (id, record) in more {
        records.insert(id, record)?;
    }
    Ok(())
}

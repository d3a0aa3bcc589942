//! What a script runs over: one session on a store, with its collections.
ghost use Rattle.std.specs.Prelude.{◌≡◌, ℕ, ◌≤◌, Option, Some, None, Err, IfOk};
ghost use Rattle.std.specs.Option.{IfSome};
ghost use Rattle.uq_model.specs.declared.cause.BaseStop.{BaseStop};
ghost use Rattle.uq_model.specs.Store.{Store};
ghost use Rattle.uq_model.specs.Session.{Session, begins, commits, rolls_back};
ghost use Rattle.uq_model.specs.Collections.{creates, drops_collection, stores_records, replaces_record, drops_record, sets_schema};
ghost use Rattle.uq_model.specs.Collections.{collection_info, id_at_or_after, record_at, schema_at};
ghost use Rattle.uq_model.specs.Collections.{Gives, of_create, of_drop_collection, of_store, of_replace, of_drop_record, of_set_schema};
ghost use Rattle.uq_model.specs.Base.{Shown, Does, Writes, Looks, IsSaved, IsSavedOrPresent, IsInfo, IsIdFrom};
ghost use Rattle.uq_model.specs.Base.{IsLatest, CountsNow, LeavesSaved, TellsSession};
ghost use Rattle.uq_model.specs.IsStore.{AreLimits};

use crate::{BaseStop, CollectionInfo, Done};
use uq_value::Value;

/// One session on a store, which scripts read and write by its collections.
///
/// After `Disk`, `Corrupt` or `Memory` the base is closed by that cause, and every further call answers `Closed` with
/// it. A refusal of `Done` leaves all as before.
pub trait Base {
    /// What contracts see of it.
    ghost shows: { Self → Shown };

    /// What each call keeps of what lies behind it.
    ghost keeps: { Self → Self → Type 0 };

    /// Begins a transaction, where none is begun.
    fn begin(&mut self) -> Result<(), BaseStop>
        ensures does { Does begins IsSaved (shows self.old) (shows self.new) result }
        ensures keeps { keeps self.old self.new }
        ensures room { result ≡ Err BaseStop.Memory → ⊥ };

    /// Saves what is there, and answers whether a transaction was begun.
    fn commit(&mut self) -> Result<bool, BaseStop>
        ensures does { Does commits IsSavedOrPresent (shows self.old) (shows self.new) result }
        ensures keeps { keeps self.old self.new }
        ensures room { result ≡ Err BaseStop.Memory → ⊥ };

    /// Goes back to what was saved, where a transaction is begun.
    fn rollback(&mut self) -> Result<(), BaseStop>
        ensures does { Does rolls_back IsSaved (shows self.old) (shows self.new) result }
        ensures keeps { keeps self.old self.new }
        ensures room { result ≡ Err BaseStop.Memory → ⊥ };

    /// What there is to tell of a collection, None where there is none of this name.
    fn collection(&mut self, name: &[u8]) -> Result<Option<CollectionInfo>, BaseStop>
        ensures does { Looks (collection_info name.now) (shows self.old) (shows self.new) result }
        ensures bounds { IfOk result (λ found. IfSome found IsInfo) }
        ensures keeps { keeps self.old self.new };

    /// Makes a collection without records, whose ids begin at 0.
    fn create(&mut self, name: &[u8]) -> Result<Done, BaseStop>
        ensures does { Writes (creates name.now) (shows self.old) (shows self.new) result }
        ensures refusals { IfOk result (Gives of_create) }
        ensures keeps { keeps self.old self.new };

    /// Drops a collection with its records.
    fn drop_collection(&mut self, name: &[u8]) -> Result<Done, BaseStop>
        ensures does { Does (drops_collection name.now) IsSaved (shows self.old) (shows self.new) result }
        ensures refusals { IfOk result (Gives of_drop_collection) }
        ensures keeps { keeps self.old self.new };

    /// The least id of a record that is there and at least `id`.
    fn at_or_after(&mut self, name: &[u8], id: u64) -> Result<Option<u64>, BaseStop>
        ensures does { Looks (id_at_or_after name.now id) (shows self.old) (shows self.new) result }
        ensures bounds { IfOk result (λ found. IfSome found (IsIdFrom id)) }
        ensures keeps { keeps self.old self.new };

    /// The record of this id.
    fn fetch_record(&mut self, name: &[u8], id: u64) -> Result<Option<Value>, BaseStop>
        ensures does { Looks (record_at name.now id) (shows self.old) (shows self.new) result }
        ensures keeps { keeps self.old self.new };

    /// Stores objects as records with the next ids, in order, all of them or none.
    fn store_records(&mut self, name: &[u8], objects: &[Value]) -> Result<Done, BaseStop>
        ensures does { Writes (stores_records name.now objects.now) (shows self.old) (shows self.new) result }
        ensures refusals { IfOk result (Gives of_store) }
        ensures keeps { keeps self.old self.new };

    /// Puts an object in the place of a record that is there, which keeps its id.
    fn replace_record(&mut self, name: &[u8], id: u64, object: &Value) -> Result<Done, BaseStop>
        ensures does { Writes (replaces_record name.now id object.now) (shows self.old) (shows self.new) result }
        ensures refusals { IfOk result (Gives of_replace) }
        ensures keeps { keeps self.old self.new };

    /// Drops a record, whose id is not given again.
    fn drop_record(&mut self, name: &[u8], id: u64) -> Result<Done, BaseStop>
        ensures does { Does (drops_record name.now id) IsSaved (shows self.old) (shows self.new) result }
        ensures refusals { IfOk result (Gives of_drop_record) }
        ensures keeps { keeps self.old self.new };

    /// The schema of a collection, which is null until one is set; None where there is no such collection.
    fn schema(&mut self, name: &[u8]) -> Result<Option<Value>, BaseStop>
        ensures does { Looks (schema_at name.now) (shows self.old) (shows self.new) result }
        ensures keeps { keeps self.old self.new };

    /// Keeps an object as the schema of a collection. No record is held against it.
    fn set_schema(&mut self, name: &[u8], schema: &Value) -> Result<Done, BaseStop>
        ensures does { Writes (sets_schema name.now schema.now) (shows self.old) (shows self.new) result }
        ensures refusals { IfOk result (Gives of_set_schema) }
        ensures keeps { keeps self.old self.new };

    /// Since this moment there is no other.
    ghost only_now: { (it : Self) → IsLatest (shows it) };

    /// This moment is one of those since an earlier one.
    ghost counts_now: { (it : Self) → CountsNow (shows it) };

    /// Where it is not closed, a stop leaves what was saved.
    ghost saved_stays: { (it : Self) → LeavesSaved (shows it) };

    /// Its limits are such as a store may have.
    ghost limits_are: { (it : Self) → AreLimits (shows it).limits };

    /// Each session that it tells is one on stores within the limits of names, sizes and ids.
    ghost session_is: { (it : Self) → TellsSession (shows it) };

    ghost keeps_itself: { (it : Self) → keeps it it };

    ghost keeps_on: { (a b c : Self) → keeps a b → keeps b c → keeps a c };
}

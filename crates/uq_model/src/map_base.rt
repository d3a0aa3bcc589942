//! A base in memory.

ghost use Rattle.std.specs.Prelude.{◌≡◌, false, is_some};
ghost use Rattle.uq_model.specs.IsStore.{AreLimits};

use crate::change::{Plan, WriteStop};
use crate::held::Held;
use crate::{Base, BaseStop, Cause, CollectionInfo, Done, Limits};
use std::alloc::Global;
use std::mem;
use uq_value::{NoMemory, Value};

/// A base on std's ordered maps, whose store has no keys. A call takes about as many steps as the logarithm of what is
/// there has, and as the size of what it touches. The first accepted write of a transaction also copies the store,
/// which a rollback gives back.
#[derive(Drop)]
pub struct MapBase {
    limits: Limits,
    /// What is there now.
    present: Held,
    /// What was saved, from the first accepted write of a transaction on.
    saved: Option<Held>,
    begun: bool,
    /// By what it was closed. The present store then counts for nothing.
    closed: Option<Cause>,
    alloc: Global,

    ghost limited: { AreLimits limits },
    ghost settled: { begun ≡ false → is_some saved ≡ false },
}

impl MapBase {
    ghost use Rattle.std.specs.Prelude.{true, None, Some, IfOk, OnOk, OnErr};
    ghost use Rattle.uq_model.specs.Base.{Does, IsSaved};
    ghost use Rattle.uq_model.specs.Change.{Chooses, IsPlanned, changed};
    ghost use Rattle.uq_model.specs.Collections.{Checked, writes};
    ghost use Rattle.uq_model.specs.Held.{held_in};
    ghost use Rattle.uq_model.specs.Map.{shown_by, session_in, saved_by, open_or_closed, HasSaved};
    ghost use Rattle.uq_model.specs.Session.{opened};
    ghost use Rattle.uq_model.specs.Store.{Store, empty};

    /// The empty store, with no transaction begun.
    pub fn new(alloc: Global, limits: Limits) -> MapBase
        requires { AreLimits limits }
        ensures session { session_in result ≡ opened empty }
        ensures limits { (shown_by result).limits ≡ limits }
        ensures closed { (shown_by result).closed ≡ None }
    {
        MapBase {
            limits,
            present: Held::new(alloc),
            saved: None,
            begun: false,
            closed: None,
            alloc,
        }
    }

    /// Refuses where it is closed.
    fn check_open(&self) -> Result<(), BaseStop>
        ensures { result ≡ open_or_closed self.now.closed }
    {
        match self.closed {
            Some(first) => Err(BaseStop::Closed { first }),
            None => Ok(()),
        }
    }

    /// Makes a write that was planned, or answers why not.
    fn write(&mut self, name: &[u8], planned: Result<Plan, WriteStop>) -> Result<Done, BaseStop>
        requires open { self.old.closed ≡ None }
        requires planned { IfOk planned (IsPlanned name.now (held_in self.old.present)) }
        ensures { (checked : Checked Store) → Chooses name.now (held_in self.old.present) checked planned
            → Does (writes checked) IsSaved (shown_by self.old) (shown_by self.new) result }
    {
        let plan = match planned {
            Ok(plan) => plan,
            Err(WriteStop::Refused(refusal)) => return Ok(Done::No(refusal)),
            Err(WriteStop::Memory) => {
                self.closed = Some(Cause::Memory);
                return Err(BaseStop::Memory);
            }
        };
        match self.make(name, plan) {
            Ok(()) => Ok(Done::Yes),
            Err(_) => {
                self.closed = Some(Cause::Memory);
                Err(BaseStop::Memory)
            }
        }
    }

    /// Makes a write in a transaction, which it begins where none is begun. Where memory is wanting, what is there now
    /// may be lost, and not what was saved.
    fn make(&mut self, name: &[u8], plan: Plan) -> Result<(), NoMemory>
        requires { IsPlanned name.now (held_in self.old.present) plan }
        ensures made { OnOk result (held_in self.new.present ≡ changed name.now plan.change (held_in self.old.present)) }
        ensures begun { OnOk result (self.new.begun ≡ true) }
        ensures saved { saved_by self.new.saved self.new.present ≡ saved_by self.old.saved self.old.present }
        ensures limits { self.new.limits ≡ self.old.limits }
        ensures closed { self.new.closed ≡ self.old.closed }
    {
        self.keep_saved()?;
        let present = mem::replace(&mut self.present, Held::new(self.alloc));
        self.present = present.changed(self.alloc, name, plan)?;
        Ok(())
    }

    /// Begins a transaction with what a rollback gives back.
    fn keep_saved(&mut self) -> Result<(), NoMemory>
        ensures saved { OnOk result (HasSaved self.new.saved (saved_by self.old.saved self.old.present)) }
        ensures begun { OnOk result (self.new.begun ≡ true) }
        ensures present { self.new.present ≡ self.old.present }
        ensures unchanged { OnErr result (self.new.saved ≡ self.old.saved) }
        ensures limits { self.new.limits ≡ self.old.limits }
        ensures closed { self.new.closed ≡ self.old.closed }
    {
        if self.saved.is_none() {
            let saved = self.present.copy(self.alloc)?;
            self.saved = Some(saved);
        }
        self.begun = true;
        Ok(())
    }
}

impl Base for MapBase {
    ghost use Rattle.std.specs.Prelude.{⊤};
    ghost use Rattle.uq_model.specs.Map.{shown_by, saved_is, session_is};

    ghost shows = { shown_by };

    ghost keeps = { λ old new. ⊤ };

    ghost only_now = { λ it store left. left };

    ghost counts_now = { λ it t store le left. left };

    ghost saved_stays = { saved_is };

    ghost limits_are = { λ it. it.limited };

    ghost session_is = { session_is };

    ghost keeps_itself = { λ it. tt };

    ghost keeps_on = { λ a b c first second. tt };

    fn begin(&mut self) -> Result<(), BaseStop> {
        self.check_open()?;
        self.begun = true;
        Ok(())
    }

    fn commit(&mut self) -> Result<bool, BaseStop> {
        self.check_open()?;
        if !self.begun {
            return Ok(false);
        }
        self.saved = None;
        self.begun = false;
        Ok(true)
    }

    fn rollback(&mut self) -> Result<(), BaseStop> {
        self.check_open()?;
        if let Some(saved) = self.saved.take() {
            self.present = saved;
        }
        self.begun = false;
        Ok(())
    }

    fn collection(&mut self, name: &[u8]) -> Result<Option<CollectionInfo>, BaseStop> {
        self.check_open()?;
        Ok(self.present.info(name))
    }

    fn create(&mut self, name: &[u8]) -> Result<Done, BaseStop> {
        self.check_open()?;
        let planned = self.present.creation(self.alloc, self.limits, name);
        self.write(name, planned)
    }

    fn drop_collection(&mut self, name: &[u8]) -> Result<Done, BaseStop> {
        self.check_open()?;
        let planned = self.present.dropping(name);
        self.write(name, planned)
    }

    fn at_or_after(&mut self, name: &[u8], id: u64) -> Result<Option<u64>, BaseStop> {
        self.check_open()?;
        Ok(self.present.at_or_after(name, id))
    }

    fn fetch_record(&mut self, name: &[u8], id: u64) -> Result<Option<Value>, BaseStop> {
        self.check_open()?;
        match self.present.record(self.alloc, name, id) {
            Ok(found) => Ok(found),
            Err(_) => {
                self.closed = Some(Cause::Memory);
                Err(BaseStop::Memory)
            }
        }
    }

    fn store_records(&mut self, name: &[u8], objects: &[Value]) -> Result<Done, BaseStop> {
        self.check_open()?;
        let planned = self.present.storing(self.alloc, self.limits, name, objects);
        self.write(name, planned)
    }

    fn replace_record(&mut self, name: &[u8], id: u64, object: &Value) -> Result<Done, BaseStop> {
        self.check_open()?;
        let planned = self
            .present
            .replacing(self.alloc, self.limits, name, id, object);
        self.write(name, planned)
    }

    fn drop_record(&mut self, name: &[u8], id: u64) -> Result<Done, BaseStop> {
        self.check_open()?;
        let planned = self.present.removing(name, id);
        self.write(name, planned)
    }

    fn schema(&mut self, name: &[u8]) -> Result<Option<Value>, BaseStop> {
        self.check_open()?;
        match self.present.schema(self.alloc, name) {
            Ok(found) => Ok(found),
            Err(_) => {
                self.closed = Some(Cause::Memory);
                Err(BaseStop::Memory)
            }
        }
    }

    fn set_schema(&mut self, name: &[u8], schema: &Value) -> Result<Done, BaseStop> {
        self.check_open()?;
        let planned = self
            .present
            .describing(self.alloc, self.limits, name, schema);
        self.write(name, planned)
    }
}

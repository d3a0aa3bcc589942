//! A base that tells nothing, and fails at some call.

ghost use Rattle.std.specs.Prelude.{◌≡◌, Err, IfOk};
ghost use Rattle.uq_model.specs.Base.{Does, IsSaved, IsSavedOrPresent};
ghost use Rattle.uq_model.specs.Session.{Call};
ghost use Rattle.uq_model.specs.Store.{Store};
ghost use Rattle.uq_model.specs.declared.cause.BaseStop.{BaseStop};
ghost use Rattle.jx9_vm.specs.Untold.{untold};

use uq_model::{Base, BaseStop, Cause, CollectionInfo, Done};
use uq_value::Value;

/// Answers so many calls as if nothing were there, and fails at the next one.
#[derive(Drop)]
pub(crate) struct FailingBase {
    answers: u64,
    closed: Option<Cause>,
    faults: u64,
}

impl FailingBase {
    pub(crate) fn new(answers: u64) -> FailingBase {
        FailingBase {
            answers,
            closed: None,
            faults: 0,
        }
    }

    fn answer<T: Drop>(&mut self, value: T) -> Result<T, BaseStop>
        ensures saved { (call : Call Store T) → Does call IsSaved (untold self.old.closed self.old.faults) (untold self.new.closed self.new.faults) result }
        ensures commits { (call : Call Store T) → Does call IsSavedOrPresent (untold self.old.closed self.old.faults) (untold self.new.closed self.new.faults) result }
        ensures given { IfOk result (λ v. v ≡ value) }
        ensures room { result ≡ Err BaseStop.Memory → ⊥ }
    {
        if let Some(first) = self.closed {
            return Err(BaseStop::Closed { first });
        }
        match self.answers.checked_sub(1) {
            Some(left) => {
                self.answers = left;
                Ok(value)
            }
            None => {
                self.faults = self.faults.saturating_add(1);
                self.closed = Some(Cause::Disk);
                Err(BaseStop::Disk)
            }
        }
    }
}

impl Base for FailingBase {
    ghost use Rattle.std.specs.Prelude.{⊤};
    ghost use Rattle.jx9_vm.specs.Untold.{untold, small_limits};

    ghost shows = { λ it. untold it.closed it.faults };

    ghost keeps = { λ old new. ⊤ };

    ghost only_now = { λ it store left. left };

    ghost counts_now = { λ it t store le left. left };

    ghost saved_stays = { λ it s store told not_closed left. absurd told };

    ghost limits_are = { λ it. small_limits };

    ghost session_is = { λ it s told. absurd told };

    ghost keeps_itself = { λ it. tt };

    ghost keeps_on = { λ a b c first second. tt };

    fn begin(&mut self) -> Result<(), BaseStop> {
        self.answer(())
    }

    fn commit(&mut self) -> Result<bool, BaseStop> {
        self.answer(false)
    }

    fn rollback(&mut self) -> Result<(), BaseStop> {
        self.answer(())
    }

    fn collection(&mut self, _name: &[u8]) -> Result<Option<CollectionInfo>, BaseStop> {
        self.answer(None)
    }

    fn create(&mut self, _name: &[u8]) -> Result<Done, BaseStop> {
        self.answer(Done::Yes)
    }

    fn drop_collection(&mut self, _name: &[u8]) -> Result<Done, BaseStop> {
        self.answer(Done::Yes)
    }

    fn at_or_after(&mut self, _name: &[u8], _id: u64) -> Result<Option<u64>, BaseStop> {
        self.answer(None)
    }

    fn fetch_record(&mut self, _name: &[u8], _id: u64) -> Result<Option<Value>, BaseStop> {
        self.answer(None)
    }

    fn store_records(&mut self, _name: &[u8], _objects: &[Value]) -> Result<Done, BaseStop> {
        self.answer(Done::Yes)
    }

    fn replace_record(
        &mut self,
        _name: &[u8],
        _id: u64,
        _object: &Value,
    ) -> Result<Done, BaseStop> {
        self.answer(Done::Yes)
    }

    fn drop_record(&mut self, _name: &[u8], _id: u64) -> Result<Done, BaseStop> {
        self.answer(Done::Yes)
    }

    fn schema(&mut self, _name: &[u8]) -> Result<Option<Value>, BaseStop> {
        self.answer(None)
    }

    fn set_schema(&mut self, _name: &[u8], _schema: &Value) -> Result<Done, BaseStop> {
        self.answer(Done::Yes)
    }
}

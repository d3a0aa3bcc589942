//! Begin, commit, rollback and close. None of them takes memory.
use crate::{Kv, KvFault};
use uq_model::Cause;
use uq_outside::Disk;

impl<'d, D: Disk> Kv<'d, D> {
    ghost use Rattle.std.specs.Prelude.{◌≡◌, ◌↔◌, [], ◌∷◌, true, false, Some, Err, OnOk, IfOk};
    ghost use Rattle.uq_facts.specs.Causes.{AtErr, Rose};
    ghost use Rattle.uq_model.specs.Session.{Session, begins, commits, rolls_back};
    ghost use Rattle.uq_model.specs.declared.cause.Cause.{Cause};
    ghost use Rattle.uq_kv.specs.Calls.{FailsBy, succeeds};
    ghost use Rattle.uq_kv.specs.Holds.{LeavesNow};
    ghost use Rattle.uq_kv.specs.Kv.{Does, HasCauses, KeepsKv, LeavesSaved, LeavesSavedOrPresent, Tells, closed_of, disk_of, is_begun_of};
    ghost use Rattle.uq_kv.specs.Stored.{Stored};

    /// Begins a transaction, where none is begun.
    pub fn begin(&mut self) -> Result<(), KvFault>
        ensures does { Does D.Disk (λ done. done) (succeeds begins) self.old self.new result }
        ensures faults { FailsBy [] result }
        ensures begun { OnOk result (is_begun_of D.Disk self.new ≡ true) }
        ensures disk { disk_of D.Disk self.new ≡ disk_of D.Disk self.old }
        ensures stop { LeavesSaved D.Disk self.old self.new }
        ensures keeps { KeepsKv D.Disk self.old self.new }
        ensures cause { HasCauses D.Disk self.old self.new result }
    {
        self.check_open()?;
        self.pager.begin();
        Ok(())
    }

    /// Saves what is there, all of it or nothing at whatever moment it is stopped. Answers whether a transaction was
    /// begun; with none begun it makes no call of the disk.
    pub fn commit(&mut self) -> Result<bool, KvFault>
        ensures does { Does D.Disk (λ done. done) (succeeds commits) self.old self.new result }
        ensures faults { FailsBy (KvFault.Disk ∷ []) result }
        ensures whether { IfOk result (λ done. done ≡ is_begun_of D.Disk self.old) }
        ensures begun { OnOk result (is_begun_of D.Disk self.new ≡ false) }
        ensures idle { is_begun_of D.Disk self.old ≡ false → disk_of D.Disk self.new ≡ disk_of D.Disk self.old }
        // A stop within leaves what is saved or what is there, and after Ok what is there alone.
        ensures stop { LeavesSavedOrPresent D.Disk self.old (disk_of D.Disk self.new) }
        ensures durable { OnOk result ((s : Session Stored) → Tells D.Disk self.old s → LeavesNow D.Disk (disk_of D.Disk self.new).now s.present) }
        ensures keeps { KeepsKv D.Disk self.old self.new }
        ensures cause { HasCauses D.Disk self.old self.new result }
    {
        self.check_open()?;
        match self.pager.commit() {
            Ok(done) => {
                self.saved = self.header;
                Ok(done)
            }
            Err(_) => {
                self.closed = Some(Cause::Disk);
                Err(KvFault::Disk)
            }
        }
    }

    /// Goes back to what is saved, where a transaction is begun.
    pub fn rollback(&mut self) -> Result<(), KvFault>
        ensures does { Does D.Disk (λ done. done) (succeeds rolls_back) self.old self.new result }
        ensures faults { FailsBy [] result }
        ensures begun { OnOk result (is_begun_of D.Disk self.new ≡ false) }
        ensures disk { disk_of D.Disk self.new ≡ disk_of D.Disk self.old }
        ensures stop { LeavesSaved D.Disk self.old self.new }
        ensures keeps { KeepsKv D.Disk self.old self.new }
        ensures cause { HasCauses D.Disk self.old self.new result }
    {
        self.check_open()?;
        match self.pager.rollback() {
            Ok(()) => {
                self.header = self.saved;
                Ok(())
            }
            Err(_) => unreachable!(),
        }
    }

    /// Commits what is begun, and ends the store. Answers whether a transaction was begun, and gives the disk back.
    pub fn close(mut self) -> (Result<bool, KvFault>, &'d mut D)
        ensures same_reference { result.1.ghost_name ≡ (disk_of D.Disk self.entry).ghost_name }
        ensures faults { FailsBy (KvFault.Disk ∷ []) result.0 }
        ensures whether { IfOk result.0 (λ done. done ≡ is_begun_of D.Disk self.entry) }
        ensures closed { (first : Cause) → (result.0 ≡ Err (KvFault.Closed first)) ↔ (closed_of D.Disk self.entry ≡ Some first) }
        ensures unmoved { (first : Cause) → closed_of D.Disk self.entry ≡ Some first → result.1.now ≡ (disk_of D.Disk self.entry).now }
        ensures idle { is_begun_of D.Disk self.entry ≡ false → result.1.now ≡ (disk_of D.Disk self.entry).now }
        ensures stop { LeavesSavedOrPresent D.Disk self.entry result.1 }
        ensures durable { OnOk result.0 ((s : Session Stored) → Tells D.Disk self.entry s → LeavesNow D.Disk result.1.now s.present) }
        ensures disk { AtErr KvFault.Disk result.0 (Rose (D.faults (disk_of D.Disk self.entry).now) (D.faults result.1.now)) }
    {
        let answer = self.commit();
        (answer, self.into_disk())
    }
}

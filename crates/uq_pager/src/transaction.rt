//! Begin, commit and rollback. None of them takes memory.
ghost use Rattle.uq_pager.specs.declared.error.PagerFault.{PagerFault};

use crate::{Pager, PagerFault};
use uq_outside::Disk;

impl<'d, D: Disk> Pager<'d, D> {
    ghost use Rattle.std.specs.Prelude.{◌≡◌, true, false, Err, IsOk, IfOk, OnOk, OnErr};
    ghost use Rattle.std.specs.Option.{ForSome, option_map};
    ghost use Rattle.uq_facts.specs.Causes.{HasCauseAt};
    ghost use Rattle.uq_outside.specs.Since.{LeavesOnly};
    ghost use Rattle.uq_pager.specs.Paged.{Commits, RecoversToOne, begun, committed, rolled_back};
    ghost use Rattle.uq_pager.specs.Pager.{HoldsTheSame, IsSound, KeepsPager, cache_of, paged};

    /// Begins a transaction, where none is begun.
    pub fn begin(&mut self)
        requires sound { IsSound D.Disk self.old }
        ensures told { paged D.Disk self.new ≡ option_map begun (paged D.Disk self.old) }
        ensures begun { self.new.is_begun ≡ true }
        ensures sound { IsSound D.Disk self.new }
        ensures count { self.new.count ≡ self.old.count }
        ensures asked { self.new.asked ≡ self.old.asked }
        ensures disk { self.new.disk ≡ self.old.disk }
        ensures keeps { KeepsPager D.Disk self.old self.new }
        ensures held { HoldsTheSame D.Disk self.old self.new }
    {
        self.is_begun = true;
    }

    /// Makes the present pages the committed ones, all or none of them at whatever moment it is stopped. Answers
    /// whether a transaction was begun; with none begun it makes no call of the disk.
    pub fn commit(&mut self) -> Result<bool, PagerFault>
        requires sound { IsSound D.Disk self.old }
        ensures whether { IfOk result (λ done. done ≡ self.old.is_begun) }
        ensures told { OnOk result (paged D.Disk self.new ≡ option_map committed (paged D.Disk self.old)) }
        ensures begun { OnOk result (self.new.is_begun ≡ false) }
        ensures count { OnOk result (self.new.count ≡ self.old.count) }
        ensures idle { self.old.is_begun ≡ false → self.new.disk ≡ self.old.disk }
        // A stop within leaves the committed pages or the present ones, and after Ok the present ones alone.
        ensures stop { ForSome (paged D.Disk self.old) (λ it. LeavesOnly D.Disk self.old.disk.now self.new.disk.now (RecoversToOne it.committed it.present)) }
        ensures durable { OnOk result (ForSome (paged D.Disk self.old) (λ it. Commits D.Disk self.new.disk.now it.present)) }
        ensures same_reference { self.new.disk.ghost_name ≡ self.old.disk.ghost_name }
        ensures asked { self.new.asked ≡ self.old.asked }
        ensures cache { cache_of D.Disk self.new ≡ cache_of D.Disk self.old }
        ensures kind { OnErr result (result ≡ Err PagerFault.Disk) }
        ensures sound { OnOk result (IsSound D.Disk self.new) }
        ensures ended { OnErr result (self.new.is_sound ≡ false) }
        ensures cause { HasCauseAt PagerFault.Disk (D.faults self.old.disk.now) (D.faults self.new.disk.now) result }
    {
        if !self.is_begun {
            return Ok(false);
        }
        let count = self.count;
        let batch = self.changes.take();
        // Until the batch is in place, nothing is told.
        self.count = self.saved;
        self.is_sound = false;
        match self.journal.commit_batch(self.disk, self.saved, &batch) {
            Ok(()) => {}
            Err(_) => return Err(PagerFault::Disk),
        }
        self.saved = count;
        self.count = count;
        self.is_begun = false;
        self.is_sound = true;
        Ok(true)
    }

    /// Drops what was changed: the committed pages are the present ones again.
    pub fn rollback(&mut self) -> Result<(), PagerFault>
        requires sound { IsSound D.Disk self.old }
        ensures ok { IsOk result }
        ensures told { paged D.Disk self.new ≡ option_map rolled_back (paged D.Disk self.old) }
        ensures begun { self.new.is_begun ≡ false }
        ensures sound { IsSound D.Disk self.new }
        ensures asked { self.new.asked ≡ self.old.asked }
        ensures disk { self.new.disk ≡ self.old.disk }
        ensures cache { cache_of D.Disk self.new ≡ cache_of D.Disk self.old }
    {
        self.changes.clear();
        self.count = self.saved;
        self.is_begun = false;
        Ok(())
    }
}

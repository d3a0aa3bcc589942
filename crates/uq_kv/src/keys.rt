//! Keys are stored and fetched.
use crate::closing::close_by;
use crate::limits::{check_key, check_value};
use crate::writing::{Added, Put, append, look_up, remove_key, write};
use crate::{Kv, KvFault, Space};
use std::alloc::Global;
use uq_outside::Disk;

impl<'d, D: Disk> Kv<'d, D> {
    ghost use Rattle.std.specs.Prelude.{◌≡◌, ◌∷◌, None, true, OnOk};
    ghost use Rattle.uq_pager.specs.Keeps.{KeepsDisk};
    ghost use Rattle.uq_kv.specs.Calls.{FailsBy, appends, deletes, fetches, stops, stores};
    ghost use Rattle.uq_kv.specs.Lengths.{RefusesKeys, RefusesLengths, entry_checked, key_checked};
    ghost use Rattle.uq_kv.specs.Kv.{Does, HasCauses, KeepsKv, LeavesSaved, Reads, closed_of, disk_of, is_begun_of, limits_of};

    /// Stores data under a key, in place of what was there, and begins a transaction where none is begun.
    ///
    /// Refusals, in this order: `EmptyKey`; `KeyTooLong`, above 1,024 bytes; `ValueTooLong`, above 2^24 bytes; `Full`,
    /// where the write makes entries or bytes greater than before and greater than their limit.
    pub fn store(
        &mut self,
        alloc: Global,
        space: Space,
        key: &[u8],
        value: &[u8],
    ) -> Result<(), KvFault>
        ensures does { Does D.Disk (λ done. done) (stores (limits_of D.Disk self.old) space key.now value.now) self.old self.new result }
        ensures lengths { closed_of D.Disk self.old ≡ None → RefusesLengths (entry_checked key.now value.now) result }
        ensures faults { FailsBy (KvFault.EmptyKey ∷ KvFault.KeyTooLong ∷ KvFault.ValueTooLong ∷ KvFault.Full ∷ stops) result }
        ensures begun { OnOk result (is_begun_of D.Disk self.new ≡ true) }
        // Told or not, a stop within leaves files that recover to what a stop before could leave.
        ensures kept { KeepsDisk D.Disk (disk_of D.Disk self.old) (disk_of D.Disk self.new) }
        ensures stop { LeavesSaved D.Disk self.old self.new }
        ensures keeps { KeepsKv D.Disk self.old self.new }
        ensures cause { HasCauses D.Disk self.old self.new result }
    {
        self.check_open()?;
        check_key(key)?;
        check_value(value)?;
        match write(
            alloc,
            &mut self.pager,
            &mut self.header,
            &self.limits,
            space,
            key,
            value,
        ) {
            Ok(Put::Done) => {
                self.pager.begin();
                Ok(())
            }
            Ok(Put::Full) => Err(KvFault::Full),
            Err(fault) => Err(close_by(&mut self.closed, fault)),
        }
    }

    /// Puts bytes behind the data of a key, which has none where it is not there, and begins a transaction where
    /// none is begun.
    ///
    /// Refusals, in this order: `EmptyKey`; `KeyTooLong`, above 1,024 bytes; `ValueTooLong`, where the data would
    /// have more than 2^24 bytes; `Full`, where the write makes entries or bytes greater than before and greater
    /// than their limit.
    pub fn append(
        &mut self,
        alloc: Global,
        space: Space,
        key: &[u8],
        more: &[u8],
    ) -> Result<(), KvFault>
        ensures does { Does D.Disk (λ done. done) (appends (limits_of D.Disk self.old) space key.now more.now) self.old self.new result }
        ensures lengths { closed_of D.Disk self.old ≡ None → RefusesKeys (key_checked key.now) result }
        ensures faults { FailsBy (KvFault.EmptyKey ∷ KvFault.KeyTooLong ∷ KvFault.ValueTooLong ∷ KvFault.Full ∷ stops) result }
        ensures begun { OnOk result (is_begun_of D.Disk self.new ≡ true) }
        // Told or not, a stop within leaves files that recover to what a stop before could leave.
        ensures kept { KeepsDisk D.Disk (disk_of D.Disk self.old) (disk_of D.Disk self.new) }
        ensures stop { LeavesSaved D.Disk self.old self.new }
        ensures keeps { KeepsKv D.Disk self.old self.new }
        ensures cause { HasCauses D.Disk self.old self.new result }
    {
        self.check_open()?;
        check_key(key)?;
        match append(
            alloc,
            &mut self.pager,
            &mut self.header,
            &self.limits,
            space,
            key,
            more,
        ) {
            Ok(Added::Done) => {
                self.pager.begin();
                Ok(())
            }
            Ok(Added::TooLong) => Err(KvFault::ValueTooLong),
            Ok(Added::Full) => Err(KvFault::Full),
            Err(fault) => Err(close_by(&mut self.closed, fault)),
        }
    }

    /// Takes the entry of a key out, and begins a transaction where none is begun.
    ///
    /// Refusals, in this order: `EmptyKey`; `KeyTooLong`, above 1,024 bytes; `NotFound`.
    pub fn delete(&mut self, alloc: Global, space: Space, key: &[u8]) -> Result<(), KvFault>
        ensures does { Does D.Disk (λ done. done) (deletes space key.now) self.old self.new result }
        ensures lengths { closed_of D.Disk self.old ≡ None → RefusesLengths (key_checked key.now) result }
        ensures faults { FailsBy (KvFault.EmptyKey ∷ KvFault.KeyTooLong ∷ KvFault.NotFound ∷ stops) result }
        ensures begun { OnOk result (is_begun_of D.Disk self.new ≡ true) }
        ensures kept { KeepsDisk D.Disk (disk_of D.Disk self.old) (disk_of D.Disk self.new) }
        ensures stop { LeavesSaved D.Disk self.old self.new }
        ensures keeps { KeepsKv D.Disk self.old self.new }
        ensures cause { HasCauses D.Disk self.old self.new result }
    {
        self.check_open()?;
        check_key(key)?;
        match remove_key(alloc, &mut self.pager, &mut self.header, space, key) {
            Ok(true) => {
                self.pager.begin();
                Ok(())
            }
            Ok(false) => Err(KvFault::NotFound),
            Err(fault) => Err(close_by(&mut self.closed, fault)),
        }
    }

    /// The data of a key.
    ///
    /// Refusals, in this order: `EmptyKey`; `KeyTooLong`, above 1,024 bytes; `NotFound`.
    pub fn fetch(&mut self, alloc: Global, space: Space, key: &[u8]) -> Result<Vec<u8>, KvFault>
        ensures does { Does D.Disk (λ data_found. data_found.items) (fetches space key.now) self.old self.new result }
        ensures lengths { closed_of D.Disk self.old ≡ None → RefusesLengths (key_checked key.now) result }
        ensures faults { FailsBy (KvFault.EmptyKey ∷ KvFault.KeyTooLong ∷ KvFault.NotFound ∷ stops) result }
        ensures reads { Reads D.Disk self.old self.new }
        ensures stop { LeavesSaved D.Disk self.old self.new }
        ensures keeps { KeepsKv D.Disk self.old self.new }
        ensures cause { HasCauses D.Disk self.old self.new result }
    {
        self.check_open()?;
        check_key(key)?;
        match look_up(alloc, &mut self.pager, &self.header, space, key) {
            Ok(Some(found)) => Ok(found),
            Ok(None) => Err(KvFault::NotFound),
            Err(fault) => Err(close_by(&mut self.closed, fault)),
        }
    }
}

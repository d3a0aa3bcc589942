//! A cursor over the user's keys.
ghost use Rattle.std.specs.Option.{ForSome};
ghost use Rattle.uq_kv.specs.Users.{IsOfKeys};

use crate::closing::close_by;
use crate::limits::check_key;
use crate::walking::{
    first_key, is_there, key_before, key_behind, last_key, present_key, there_key,
};
use crate::writing::{find_stored, remove};
use crate::{Kv, KvFault};
use std::alloc::Global;
use uq_outside::Disk;

/// A place among the user's keys: at a key, whether that is there or not, or at none.
///
/// It knows nothing of the store: what it is at is looked up by each call. A key that is deleted stays its
/// key, and the walk goes on from there.
#[derive(Drop)]
pub struct Cursor {
    // The key as it is stored, behind the byte of its space.
    pub(crate) stored: Option<Vec<u8>>,

    ghost users: { ForSome stored (λ key. IsOfKeys key.items) },
}

impl Cursor {
    ghost use Rattle.std.specs.Prelude.{◌≡◌, None, IfOk};
    ghost use Rattle.uq_kv.specs.Cursor.{IsMoved, MovesTo, key_of, stored_of};

    /// A cursor at no key.
    pub fn new() -> Cursor
        ensures { key_of result ≡ None }
    {
        Cursor { stored: None }
    }

    // Goes to the stored key that was found. A refusal by a call's own rules unsets it.
    fn go(&mut self, found: Result<Vec<u8>, KvFault>) -> Result<(), KvFault>
        requires { IfOk found (λ key. IsOfKeys key.items) }
        ensures moved { IsMoved (stored_of self.old) (stored_of self.new) result }
        ensures to { MovesTo found result (stored_of self.new) }
    {
        match found {
            Ok(stored) => {
                self.stored = Some(stored);
                Ok(())
            }
            Err(fault) => {
                if !fault.is_stop() {
                    self.stored = None;
                }
                Err(fault)
            }
        }
    }
}

impl<'d, D: Disk> Kv<'d, D> {
    ghost use Rattle.std.specs.Prelude.{◌≡◌, ◌∷◌, None, Some, true, IfOk, OnOk};
    ghost use Rattle.std.specs.Option.{option_map};
    ghost use Rattle.uq_pager.specs.Keeps.{KeepsDisk};
    ghost use Rattle.uq_kv.specs.Calls.{FailsBy, stops};
    ghost use Rattle.uq_kv.specs.Cursor.{Finds, Goes, IsMoved, NextFrom, PrevFrom, data_at, deletes_at, is_valid, key_at, key_of, place_of, seeks, sought, stored_of};
    ghost use Rattle.uq_kv.specs.Lengths.{RefusesLengths, key_checked};
    ghost use Rattle.uq_kv.specs.Kv.{Does, HasCauses, KeepsKv, LeavesSaved, Reads, closed_of, disk_of, is_begun_of};
    ghost use Rattle.uq_kv.specs.Stored.{stored_key};
    ghost use Rattle.uq_kv.specs.Users.{FirstOf, LastOf};
    ghost use Rattle.uq_kv.specs.declared.space.Space.TheVariants as Space;

    // The stored key of a key, where that is there.
    fn seek_key(&mut self, alloc: Global, key: &[u8]) -> Result<Vec<u8>, KvFault>
        ensures does { Does D.Disk (λ stored. stored.items) (seeks key.now) self.old self.new result }
        ensures key { IfOk result (λ stored. stored.items ≡ stored_key Space.Keys key.now) }
        ensures lengths { closed_of D.Disk self.old ≡ None → RefusesLengths (key_checked key.now) result }
        ensures faults { FailsBy (KvFault.EmptyKey ∷ KvFault.KeyTooLong ∷ KvFault.NotFound ∷ stops) result }
        ensures reads { Reads D.Disk self.old self.new }
        ensures stop { LeavesSaved D.Disk self.old self.new }
        ensures keeps { KeepsKv D.Disk self.old self.new }
        ensures cause { HasCauses D.Disk self.old self.new result }
    {
        self.check_open()?;
        check_key(key)?;
        match present_key(alloc, &mut self.pager, &self.header, key) {
            Ok(Some(found)) => Ok(found),
            Ok(None) => Err(KvFault::NotFound),
            Err(fault) => Err(close_by(&mut self.closed, fault)),
        }
    }

    // The first stored key of the user.
    fn first_entry(&mut self, alloc: Global) -> Result<Vec<u8>, KvFault>
        ensures finds { Finds D.Disk (λ key. key.items) FirstOf self.old self.new result }
        ensures users { IfOk result (λ key. IsOfKeys key.items) }
        ensures faults { FailsBy (KvFault.NoEntry ∷ stops) result }
        ensures reads { Reads D.Disk self.old self.new }
        ensures stop { LeavesSaved D.Disk self.old self.new }
        ensures keeps { KeepsKv D.Disk self.old self.new }
        ensures cause { HasCauses D.Disk self.old self.new result }
    {
        self.check_open()?;
        match first_key(alloc, &mut self.pager, &self.header) {
            Ok(Some(found)) => Ok(found),
            Ok(None) => Err(KvFault::NoEntry),
            Err(fault) => Err(close_by(&mut self.closed, fault)),
        }
    }

    // The last one.
    fn last_entry(&mut self, alloc: Global) -> Result<Vec<u8>, KvFault>
        ensures finds { Finds D.Disk (λ key. key.items) LastOf self.old self.new result }
        ensures users { IfOk result (λ key. IsOfKeys key.items) }
        ensures faults { FailsBy (KvFault.NoEntry ∷ stops) result }
        ensures reads { Reads D.Disk self.old self.new }
        ensures stop { LeavesSaved D.Disk self.old self.new }
        ensures keeps { KeepsKv D.Disk self.old self.new }
        ensures cause { HasCauses D.Disk self.old self.new result }
    {
        self.check_open()?;
        match last_key(alloc, &mut self.pager, &self.header) {
            Ok(Some(found)) => Ok(found),
            Ok(None) => Err(KvFault::NoEntry),
            Err(fault) => Err(close_by(&mut self.closed, fault)),
        }
    }

    // The next one behind that of the cursor.
    fn next_entry(&mut self, alloc: Global, c: &Cursor) -> Result<Vec<u8>, KvFault>
        ensures finds { Finds D.Disk (λ key. key.items) (NextFrom (stored_of c.now)) self.old self.new result }
        ensures users { IfOk result (λ key. IsOfKeys key.items) }
        ensures faults { FailsBy (KvFault.NoEntry ∷ stops) result }
        ensures reads { Reads D.Disk self.old self.new }
        ensures stop { LeavesSaved D.Disk self.old self.new }
        ensures keeps { KeepsKv D.Disk self.old self.new }
        ensures cause { HasCauses D.Disk self.old self.new result }
    {
        self.check_open()?;
        let Some(stored) = &c.stored else {
            return Err(KvFault::NoEntry);
        };
        match key_behind(alloc, &mut self.pager, &self.header, stored) {
            Ok(Some(found)) => Ok(found),
            Ok(None) => Err(KvFault::NoEntry),
            Err(fault) => Err(close_by(&mut self.closed, fault)),
        }
    }

    // The last one before that of the cursor.
    fn prev_entry(&mut self, alloc: Global, c: &Cursor) -> Result<Vec<u8>, KvFault>
        ensures finds { Finds D.Disk (λ key. key.items) (PrevFrom (stored_of c.now)) self.old self.new result }
        ensures users { IfOk result (λ key. IsOfKeys key.items) }
        ensures faults { FailsBy (KvFault.NoEntry ∷ stops) result }
        ensures reads { Reads D.Disk self.old self.new }
        ensures stop { LeavesSaved D.Disk self.old self.new }
        ensures keeps { KeepsKv D.Disk self.old self.new }
        ensures cause { HasCauses D.Disk self.old self.new result }
    {
        self.check_open()?;
        let Some(stored) = &c.stored else {
            return Err(KvFault::NoEntry);
        };
        match key_before(alloc, &mut self.pager, &self.header, stored) {
            Ok(Some(found)) => Ok(found),
            Ok(None) => Err(KvFault::NoEntry),
            Err(fault) => Err(close_by(&mut self.closed, fault)),
        }
    }

    /// Goes to a key that is there.
    ///
    /// Refusals, in this order: `EmptyKey`; `KeyTooLong`, above 1,024 bytes; `NotFound`. Each of them unsets the cursor.
    pub fn cursor_seek(&mut self, alloc: Global, c: &mut Cursor, key: &[u8]) -> Result<(), KvFault>
        ensures does { Does D.Disk (λ done. done) (sought key.now) self.old self.new result }
        ensures at { OnOk result (key_of c.new ≡ Some key.now) }
        ensures moved { IsMoved (key_of c.old) (key_of c.new) result }
        ensures lengths { closed_of D.Disk self.old ≡ None → RefusesLengths (key_checked key.now) result }
        ensures faults { FailsBy (KvFault.EmptyKey ∷ KvFault.KeyTooLong ∷ KvFault.NotFound ∷ stops) result }
        ensures reads { Reads D.Disk self.old self.new }
        ensures stop { LeavesSaved D.Disk self.old self.new }
        ensures keeps { KeepsKv D.Disk self.old self.new }
        ensures cause { HasCauses D.Disk self.old self.new result }
    {
        let found = self.seek_key(alloc, key);
        c.go(found)
    }

    /// Goes to the first key in walk order. `NoEntry` where there is none, which unsets the cursor.
    pub fn cursor_first(&mut self, alloc: Global, c: &mut Cursor) -> Result<(), KvFault>
        ensures goes { Goes D.Disk FirstOf self.old self.new (place_of c.new) result }
        ensures moved { IsMoved (key_of c.old) (key_of c.new) result }
        ensures faults { FailsBy (KvFault.NoEntry ∷ stops) result }
        ensures reads { Reads D.Disk self.old self.new }
        ensures stop { LeavesSaved D.Disk self.old self.new }
        ensures keeps { KeepsKv D.Disk self.old self.new }
        ensures cause { HasCauses D.Disk self.old self.new result }
    {
        let found = self.first_entry(alloc);
        c.go(found)
    }

    /// Goes to the last key in walk order. `NoEntry` where there is none, which unsets the cursor.
    pub fn cursor_last(&mut self, alloc: Global, c: &mut Cursor) -> Result<(), KvFault>
        ensures goes { Goes D.Disk LastOf self.old self.new (place_of c.new) result }
        ensures moved { IsMoved (key_of c.old) (key_of c.new) result }
        ensures faults { FailsBy (KvFault.NoEntry ∷ stops) result }
        ensures reads { Reads D.Disk self.old self.new }
        ensures stop { LeavesSaved D.Disk self.old self.new }
        ensures keeps { KeepsKv D.Disk self.old self.new }
        ensures cause { HasCauses D.Disk self.old self.new result }
    {
        let found = self.last_entry(alloc);
        c.go(found)
    }

    /// Goes to the next key behind its own, whether that is there or not.
    ///
    /// `NoEntry` where there is none or the cursor is unset, which unsets it.
    pub fn cursor_next(&mut self, alloc: Global, c: &mut Cursor) -> Result<(), KvFault>
        ensures goes { Goes D.Disk (NextFrom (place_of c.old)) self.old self.new (place_of c.new) result }
        ensures moved { IsMoved (key_of c.old) (key_of c.new) result }
        ensures faults { FailsBy (KvFault.NoEntry ∷ stops) result }
        ensures reads { Reads D.Disk self.old self.new }
        ensures stop { LeavesSaved D.Disk self.old self.new }
        ensures keeps { KeepsKv D.Disk self.old self.new }
        ensures cause { HasCauses D.Disk self.old self.new result }
    {
        let found = self.next_entry(alloc, c);
        c.go(found)
    }

    /// Goes to the last key before its own, whether that is there or not.
    ///
    /// `NoEntry` where there is none or the cursor is unset, which unsets it.
    pub fn cursor_prev(&mut self, alloc: Global, c: &mut Cursor) -> Result<(), KvFault>
        ensures goes { Goes D.Disk (PrevFrom (place_of c.old)) self.old self.new (place_of c.new) result }
        ensures moved { IsMoved (key_of c.old) (key_of c.new) result }
        ensures faults { FailsBy (KvFault.NoEntry ∷ stops) result }
        ensures reads { Reads D.Disk self.old self.new }
        ensures stop { LeavesSaved D.Disk self.old self.new }
        ensures keeps { KeepsKv D.Disk self.old self.new }
        ensures cause { HasCauses D.Disk self.old self.new result }
    {
        let found = self.prev_entry(alloc, c);
        c.go(found)
    }

    /// Whether the key of the cursor is there. It is not where the cursor is unset.
    pub fn cursor_valid(&mut self, _alloc: Global, c: &Cursor) -> Result<bool, KvFault>
        ensures does { Does D.Disk (λ there. there) (is_valid (place_of c.now)) self.old self.new result }
        ensures faults { FailsBy stops result }
        ensures reads { Reads D.Disk self.old self.new }
        ensures stop { LeavesSaved D.Disk self.old self.new }
        ensures keeps { KeepsKv D.Disk self.old self.new }
        ensures cause { HasCauses D.Disk self.old self.new result }
    {
        self.check_open()?;
        let Some(stored) = &c.stored else {
            return Ok(false);
        };
        match is_there(&mut self.pager, &self.header, stored) {
            Ok(there) => Ok(there),
            Err(fault) => Err(close_by(&mut self.closed, fault)),
        }
    }

    /// The key of the cursor. `NoEntry` where the cursor is unset or its key is not there.
    pub fn cursor_key(&mut self, alloc: Global, c: &Cursor) -> Result<Vec<u8>, KvFault>
        ensures does { Does D.Disk (λ key. key.items) (key_at (place_of c.now)) self.old self.new result }
        ensures key { IfOk result (λ key. key_of c.now ≡ Some key.items) }
        ensures faults { FailsBy (KvFault.NoEntry ∷ stops) result }
        ensures reads { Reads D.Disk self.old self.new }
        ensures stop { LeavesSaved D.Disk self.old self.new }
        ensures keeps { KeepsKv D.Disk self.old self.new }
        ensures cause { HasCauses D.Disk self.old self.new result }
    {
        self.check_open()?;
        let Some(stored) = &c.stored else {
            return Err(KvFault::NoEntry);
        };
        match there_key(alloc, &mut self.pager, &self.header, stored) {
            Ok(Some(key)) => Ok(key),
            Ok(None) => Err(KvFault::NoEntry),
            Err(fault) => Err(close_by(&mut self.closed, fault)),
        }
    }

    /// The data of the cursor's key. `NoEntry` where the cursor is unset or its key is not there.
    pub fn cursor_data(&mut self, alloc: Global, c: &Cursor) -> Result<Vec<u8>, KvFault>
        ensures does { Does D.Disk (λ data_found. data_found.items) (data_at (place_of c.now)) self.old self.new result }
        ensures faults { FailsBy (KvFault.NoEntry ∷ stops) result }
        ensures reads { Reads D.Disk self.old self.new }
        ensures stop { LeavesSaved D.Disk self.old self.new }
        ensures keeps { KeepsKv D.Disk self.old self.new }
        ensures cause { HasCauses D.Disk self.old self.new result }
    {
        self.check_open()?;
        let Some(stored) = &c.stored else {
            return Err(KvFault::NoEntry);
        };
        match find_stored(alloc, &mut self.pager, &self.header, stored) {
            Ok(Some(found)) => Ok(found),
            Ok(None) => Err(KvFault::NoEntry),
            Err(fault) => Err(close_by(&mut self.closed, fault)),
        }
    }

    /// Takes the entry of the cursor's key out, which stays its key, and begins a transaction where none is begun.
    ///
    /// `NoEntry` where the cursor is unset or its key is not there.
    pub fn cursor_delete(&mut self, alloc: Global, c: &Cursor) -> Result<(), KvFault>
        ensures does { Does D.Disk (λ done. done) (deletes_at (place_of c.now)) self.old self.new result }
        ensures faults { FailsBy (KvFault.NoEntry ∷ stops) result }
        ensures begun { OnOk result (is_begun_of D.Disk self.new ≡ true) }
        ensures kept { KeepsDisk D.Disk (disk_of D.Disk self.old) (disk_of D.Disk self.new) }
        ensures stop { LeavesSaved D.Disk self.old self.new }
        ensures keeps { KeepsKv D.Disk self.old self.new }
        ensures cause { HasCauses D.Disk self.old self.new result }
    {
        self.check_open()?;
        let Some(stored) = &c.stored else {
            return Err(KvFault::NoEntry);
        };
        match remove(alloc, &mut self.pager, &mut self.header, stored) {
            Ok(true) => {
                self.pager.begin();
                Ok(())
            }
            Ok(false) => Err(KvFault::NoEntry),
            Err(fault) => Err(close_by(&mut self.closed, fault)),
        }
    }

    /// Unsets the cursor. The store is not asked.
    pub fn cursor_reset(&mut self, c: &mut Cursor)
        ensures unset { key_of c.new ≡ None }
        ensures same { self.new ≡ self.old }
    {
        c.stored = None;
    }
}

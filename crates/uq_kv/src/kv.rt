//! A store over a disk.
ghost use Rattle.std.specs.Prelude.{◌≡◌, ◌≤◌, true, None};
ghost use Rattle.uq_page.specs.Header.{IsInUse};
ghost use Rattle.uq_model.specs.declared.limits.TheConstants.{MOST_BYTES, MOST_ENTRIES};

use crate::KvFault;
use uq_model::{Cause, Limits};
use uq_outside::Disk;
use uq_page::{Header, Pages};
use uq_pager::Pager;

/// Keys with their data over a disk, with one transaction at a time.
///
/// A call that answers `Disk`, `Corrupt` or `Memory` closes the store.
#[derive(Drop)]
pub struct Kv<'d, D: Disk> {
    pub(crate) pager: Pager<'d, D>,
    pub(crate) limits: Limits,
    /// The header of the committed pages, where there is one.
    pub(crate) saved: Header,
    /// The header of the pages that there are now.
    pub(crate) header: Header,
    /// By what it was closed.
    pub(crate) closed: Option<Cause>,

    // Until it is closed, no call of the pager has failed.
    ghost sound: { closed ≡ None → pager.is_sound ≡ true },
    ghost in_use: { IsInUse header },
    ghost saved_in_use: { IsInUse saved },
    ghost entries: { limits.entries ≤ MOST_ENTRIES },
    ghost bytes: { limits.bytes ≤ MOST_BYTES },
}

impl<'d, D: Disk> Kv<'d, D> {
    ghost use Rattle.std.specs.Prelude.{◌≡◌, ◌↔◌, IsOk, IfErr, None};
    ghost use Rattle.std.specs.Option.{ForSome};
    ghost use Rattle.std.specs.FinMap.{len};
    ghost use Rattle.uq_outside.specs.Since.{IsSettled};
    ghost use Rattle.uq_hash.specs.Map.{bytes_in};
    ghost use Rattle.uq_model.specs.Session.{Session};
    ghost use Rattle.uq_model.specs.declared.cause.Cause.{Cause};
    ghost use Rattle.uq_kv.specs.Holds.{LeavesNow};
    ghost use Rattle.uq_kv.specs.Kv.{Tells, closed_of, disk_of};
    ghost use Rattle.uq_kv.specs.Stored.{Stored};

    /// Whether it is still open.
    pub(crate) fn check_open(&self) -> Result<(), KvFault>
        ensures open { IsOk result ↔ (self.now.closed ≡ None) }
        ensures closed { IfErr result (λ fault. (first : Cause) × (self.now.closed ≡ Some first) × (fault ≡ KvFault.Closed first)) }
    {
        match self.closed {
            Some(first) => Err(KvFault::Closed { first }),
            None => Ok(()),
        }
    }

    /// How many entries are there, where the store is not closed.
    pub fn entries(&self) -> u64
        ensures { (s : Session Stored) → Tells D.Disk self.now s → result ≡ len s.present }
    {
        if self.pager.count() == 0 {
            return 0;
        }
        self.header.entries
    }

    /// How many bytes their stored keys and data have, where the store is not closed.
    pub fn bytes(&self) -> u64
        ensures { (s : Session Stored) → Tells D.Disk self.now s → result ≡ bytes_in s.present }
    {
        if self.pager.count() == 0 {
            return 0;
        }
        self.header.bytes
    }

    /// Gives the disk back. What was not committed is gone.
    pub fn into_disk(self) -> &'d mut D
        ensures same_reference { result.ghost_name ≡ (disk_of D.Disk self.entry).ghost_name }
        ensures disk { result.now ≡ (disk_of D.Disk self.entry).now }
        // Until it is closed, nothing is pending on the disk.
        ensures rest { closed_of D.Disk self.entry ≡ None → ForSome (D.content result.now) (IsSettled D.Disk result.now) }
        // A stop now leaves what is saved, and nothing else.
        ensures saved { (s : Session Stored) → Tells D.Disk self.entry s → LeavesNow D.Disk result.now s.saved }
    {
        let Kv {
            pager,
            limits: _,
            saved: _,
            header: _,
            closed: _,
        } = self;
        pager.into_disk()
    }
}

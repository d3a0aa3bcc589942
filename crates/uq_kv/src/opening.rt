//! How a store is opened, in two steps: what is done on the disk, and the store over it.
//!
//! A refused opening that keeps the borrow of the disk can't say what it left of the disk. `recover` says so on every
//! answer, and `Kv::over` is never refused.
ghost use Rattle.uq_page.specs.Header.{IsInUse};

use crate::recovering::recover;
use crate::{Kv, OpenFault};
use std::alloc::Global;
use uq_model::{Limits, MOST_BYTES, MOST_ENTRIES};
use uq_outside::Disk;
use uq_page::Header;
use uq_pager::Pager;

/// What was found on a disk: all of a store but the disk.
#[derive(Drop)]
pub struct Ready {
    pub(crate) pager: uq_pager::Ready,
    pub(crate) header: Header,
    ghost in_use: { IsInUse header },
}

impl<'d, D: Disk> Kv<'d, D> {
    ghost use Rattle.std.specs.Prelude.{◌≡◌, ◌≤◌, false, None, IfOk, OnOk};
    ghost use Rattle.std.specs.Option.{ForSome};
    ghost use Rattle.uq_facts.specs.Causes.{AtErr};
    ghost use Rattle.uq_journal.specs.Calls.{KeepsRecovered};
    ghost use Rattle.uq_model.specs.Session.{opened};
    ghost use Rattle.uq_kv.specs.Holds.{HasShape, HoldsNone, RecoversTo};
    ghost use Rattle.uq_kv.specs.Kv.{Tells, closed_of, disk_of, is_begun_of, limits_of};
    ghost use Rattle.uq_kv.specs.Opening.{Finds, IsLeftBy};
    ghost use Rattle.uq_kv.specs.Stored.{Stored};

    /// A store over a disk that was just recovered. It makes no call of the disk.
    pub fn over(disk: &'d mut D, ready: Ready, limits: Limits) -> Kv<'d, D>
        requires rest { IsLeftBy D.Disk ready disk.old }
        requires entries { limits.entries ≤ MOST_ENTRIES }
        requires bytes { limits.bytes ≤ MOST_BYTES }
        ensures same_reference { (disk_of D.Disk result).ghost_name ≡ disk.entry.ghost_name }
        ensures disk { (disk_of D.Disk result).now ≡ disk.old }
        ensures told { (stored : Stored) → Finds D.Disk ready disk.old stored → Tells D.Disk result (opened stored) }
        ensures open { closed_of D.Disk result ≡ None }
        ensures begun { is_begun_of D.Disk result ≡ false }
        ensures limits { limits_of D.Disk result ≡ limits }
    {
        let Ready { pager, header } = ready;
        Kv {
            pager: Pager::over(disk, pager),
            limits,
            saved: header,
            header,
            closed: None,
        }
    }

    /// Opens the files: `recover`, and the store over what it found. Two empty files hold the empty store.
    pub fn open(alloc: Global, disk: &'d mut D, limits: Limits) -> Result<Kv<'d, D>, OpenFault>
        requires entries { limits.entries ≤ MOST_ENTRIES }
        requires bytes { limits.bytes ≤ MOST_BYTES }
        ensures same_reference { IfOk result (λ kv. (disk_of D.Disk kv).ghost_name ≡ disk.entry.ghost_name) }
        ensures told { IfOk result (λ kv. ForSome (D.content disk.old) (λ start. (stored : Stored) → RecoversTo stored start → Tells D.Disk kv (opened stored))) }
        ensures shape { OnOk result (ForSome (D.content disk.old) HasShape) }
        ensures not_database { AtErr OpenFault.NotDatabase result (HoldsNone D.Disk disk.old) }
        ensures open { IfOk result (λ kv. closed_of D.Disk kv ≡ None) }
        ensures begun { IfOk result (λ kv. is_begun_of D.Disk kv ≡ false) }
        ensures limits { IfOk result (λ kv. limits_of D.Disk kv ≡ limits) }
        ensures stop { IfOk result (λ kv. KeepsRecovered D.Disk disk.old (disk_of D.Disk kv).now) }
        ensures quiet { IfOk result (λ kv. D.faults (disk_of D.Disk kv).now ≡ D.faults disk.old) }
    {
        let ready = recover(alloc, disk)?;
        Ok(Kv::over(disk, ready, limits))
    }
}

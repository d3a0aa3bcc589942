//! How a pager is opened, in two steps: what is done on the disk, and the pager over it.
//!
//! A refused opening that keeps the borrow of the disk can't say what it left of the disk. `recover` says so on every
//! answer, and `Pager::over` is never refused.
ghost use Rattle.std.specs.Prelude.{◌≡◌, ◌≤◌, ◌^◌, ◌*◌, ◌<◌, false, true, Some, None, IfOk, OnOk, length, MatchOption};
ghost use Rattle.std.specs.Option.{ForSome, option_map};
ghost use Rattle.uq_facts.specs.Causes.{AtErr, HasCauseAt};
ghost use Rattle.uq_outside.specs.Stops.{ToldAlike};
ghost use Rattle.uq_page.specs.declared.layout.TheConstants.{PAGE_SIZE};
ghost use Rattle.uq_journal.specs.Calls.{HoldsRecovered, KeepsFilesAtGate, KeepsMainWhereClosed, KeepsRecovered};
ghost use Rattle.uq_journal.specs.Calls.{recovered_pages};
ghost use Rattle.uq_journal.specs.Journals.{originals_kept};
ghost use Rattle.uq_pager.specs.Changes.{batch_of};
ghost use Rattle.uq_pager.specs.Opening.{IsNoDatabase, RecoversToCount, RestsAt};
ghost use Rattle.uq_pager.specs.Paged.{pages_on};
ghost use Rattle.uq_pager.specs.declared.error.PagerFault.{PagerFault};

use crate::changes::Changes;
use crate::{Pager, PagerFault};
use lru::LruCache;
use std::alloc::Global;
use std::num::NonZeroUsize;
use uq_journal::{Journal, JournalFault};
use uq_outside::{Disk, FileNo};
use uq_page::{PAGE_SIZE, Page};

/// What was found on a disk: all of a pager but the disk.
#[derive(Drop)]
pub struct Ready {
    journal: Journal,
    saved: u32,
    clean: LruCache<u32, Page>,
    changes: Changes,
    ghost none: { originals_kept journal ≡ 0 },
    ghost nothing_clean: { length clean.entries ≡ 0 },
    ghost nothing_changed: { length (batch_of changes) ≡ 0 },
}

// How many pages a file of this length has, where it is a whole number of them below 2^32.
fn whole_pages(len: u64) -> Option<u32>
    ensures { MatchOption result ((count : _) → count < 2 ^ 32 → len ≡ PAGE_SIZE * count → ⊥) (λ count. len ≡ PAGE_SIZE * count) }
{
    let size = PAGE_SIZE as u64;
    if len % size != 0 {
        return None;
    }
    u32::try_from(len / size).ok()
}

/// Recovers the files, and says what a pager over them begins with. At most `cache` clean pages will be held, from 64
/// to 65,536.
pub fn recover<D: Disk>(alloc: Global, disk: &mut D, cache: u32) -> Result<Ready, PagerFault>
    requires low { 64 ≤ cache }
    requires high { cache ≤ 65536 }
    ensures ready { IfOk result (λ ready. RestsAt D.Disk disk.new ready.saved) }
    ensures main { OnOk result (HoldsRecovered D.Disk disk.old disk.new) }
    ensures pages { IfOk result (λ ready. ForSome (D.content disk.old) (RecoversToCount ready.saved)) }
    ensures told { OnOk result (ForSome (D.content disk.old) (λ start. pages_on D.Disk disk.new ≡ recovered_pages start)) }
    ensures cache { IfOk result (λ ready. ready.clean.cap ≡ cache) }
    ensures not_database { AtErr PagerFault.NotDatabase result (ForSome (D.content disk.old) IsNoDatabase) }
    ensures alike { ToldAlike (D.content disk.old) (D.content disk.new) }
    ensures closed { KeepsMainWhereClosed D.Disk disk.old disk.new }
    ensures gate { KeepsFilesAtGate D.Disk disk.old disk.new }
    ensures stop { KeepsRecovered D.Disk disk.old disk.new }
    ensures cause { HasCauseAt PagerFault.Disk (D.faults disk.old) (D.faults disk.new) result }
{
    let Some(most) = NonZeroUsize::new(cache as usize) else {
        unreachable!()
    };
    let clean = match LruCache::sparse(alloc, most) {
        Ok(clean) => clean,
        Err(_) => return Err(PagerFault::Memory),
    };
    let journal = match Journal::open(disk) {
        Ok(journal) => journal,
        Err(JournalFault::NotJournal) => return Err(PagerFault::NotDatabase),
        Err(JournalFault::Disk(_)) => return Err(PagerFault::Disk),
    };
    let len = match disk.length(FileNo::Main) {
        Ok(len) => len,
        Err(_) => return Err(PagerFault::Disk),
    };
    match whole_pages(len) {
        Some(saved) => Ok(Ready {
            journal,
            saved,
            clean,
            changes: Changes::new(alloc),
        }),
        None => Err(PagerFault::NotDatabase),
    }
}

impl Ready {
    ghost use Rattle.std.specs.Prelude.{OnErr, Err, slice_get};
    ghost use Rattle.uq_page.specs.Page.{bytes_of};
    ghost use Rattle.uq_journal.specs.Calls.{IsStill};
    ghost use Rattle.uq_pager.specs.Ready.{RestsReady};

    /// How many pages there are.
    pub fn count(&self) -> u32
        ensures { result ≡ self.now.saved }
    {
        self.saved
    }

    /// Copies page `no` from the disk that was recovered.
    pub fn read_page<D: Disk>(
        &self,
        disk: &mut D,
        no: u32,
        into: &mut Page,
    ) -> Result<(), PagerFault>
        requires rest { RestsReady D.Disk disk.old self.now }
        requires there { no < self.now.saved }
        ensures page { OnOk result (ForSome (pages_on D.Disk disk.old) (λ pages. slice_get pages no ≡ Some (bytes_of into.new))) }
        ensures rest { RestsReady D.Disk disk.new self.now }
        ensures still { IsStill D.Disk disk.old disk.new }
        ensures kind { OnErr result (result ≡ Err PagerFault.Disk) }
        ensures cause { HasCauseAt PagerFault.Disk (D.faults disk.old) (D.faults disk.new) result }
    {
        let mut bytes = [0; PAGE_SIZE];
        match disk.read(FileNo::Main, PAGE_SIZE as u64 * no as u64, &mut bytes) {
            Ok(()) => {
                *into = Page::from_bytes(bytes);
                Ok(())
            }
            Err(_) => Err(PagerFault::Disk),
        }
    }
}

impl<'d, D: Disk> Pager<'d, D> {
    ghost use Rattle.uq_pager.specs.Opening.{just_opened};
    ghost use Rattle.uq_pager.specs.Pager.{IsSound, cache_of, held_numbers, paged};

    /// A pager over a disk that was just recovered. It makes no call of the disk.
    pub fn over(disk: &'d mut D, ready: Ready) -> Pager<'d, D>
        requires { RestsAt D.Disk disk.old ready.saved }
        ensures same_reference { result.disk.ghost_name ≡ disk.entry.ghost_name }
        ensures disk { result.disk.now ≡ disk.old }
        ensures told { paged D.Disk result ≡ option_map just_opened (pages_on D.Disk disk.old) }
        ensures sound { IsSound D.Disk result }
        ensures count { result.count ≡ ready.saved }
        ensures begun { result.is_begun ≡ false }
        ensures asked { result.asked ≡ 0 }
        ensures cache { cache_of D.Disk result ≡ ready.clean.cap }
        ensures held { length (held_numbers D.Disk result) ≡ 0 }
    {
        Pager {
            disk,
            journal: ready.journal,
            saved: ready.saved,
            count: ready.saved,
            clean: ready.clean,
            changes: ready.changes,
            is_begun: false,
            is_sound: true,
            asked: 0,
        }
    }

    /// Opens the files: `recover`, and the pager over what it found. At most `cache` clean pages are held, from 64 to
    /// 65,536.
    pub fn open(alloc: Global, disk: &'d mut D, cache: u32) -> Result<Pager<'d, D>, PagerFault>
        requires low { 64 ≤ cache }
        requires high { cache ≤ 65536 }
        ensures same_reference { IfOk result (λ pager. pager.disk.ghost_name ≡ disk.entry.ghost_name) }
        ensures told { IfOk result (λ pager. ForSome (D.content disk.old) (λ start. paged D.Disk pager ≡ option_map just_opened (recovered_pages start))) }
        ensures pages { IfOk result (λ pager. ForSome (D.content disk.old) (RecoversToCount pager.count)) }
        ensures not_database { AtErr PagerFault.NotDatabase result (ForSome (D.content disk.old) IsNoDatabase) }
        ensures sound { IfOk result (IsSound D.Disk) }
        ensures begun { IfOk result (λ pager. pager.is_begun ≡ false) }
        ensures cache { IfOk result (λ pager. cache_of D.Disk pager ≡ cache) }
        ensures stop { IfOk result (λ pager. KeepsRecovered D.Disk disk.old pager.disk.now) }
        ensures quiet { IfOk result (λ pager. D.faults pager.disk.now ≡ D.faults disk.old) }
    {
        let ready = recover(alloc, disk, cache)?;
        Ok(Pager::over(disk, ready))
    }
}

//! A pager.
ghost use Rattle.std.specs.Prelude.{◌≡◌, true, false, length, Some};
ghost use Rattle.std.specs.Option.{ForSome, option_map};
ghost use Rattle.std.specs.Map.{keys_of};
ghost use Rattle.uq_journal.specs.Calls.{IsAtRest};
ghost use Rattle.uq_journal.specs.Journals.{originals_kept};
ghost use Rattle.uq_journal.specs.Pages.{pages_of};
ghost use Rattle.uq_journal.specs.Recovered.{Ascends};
ghost use Rattle.uq_pager.specs.Batch.{Ascends-prop, after};
ghost use Rattle.uq_pager.specs.Changes.{batch_of};
ghost use Rattle.uq_pager.specs.Clean.{AreApart, AreBelow, AreOf};
ghost use Rattle.uq_pager.specs.Paged.{pages_on};

use crate::changes::Changes;
use lru::LruCache;
use uq_journal::Journal;
use uq_outside::Disk;
use uq_page::Page;

/// Pages of a main file, with one transaction at a time.
#[derive(Drop)]
pub struct Pager<'d, D: Disk> {
    pub(crate) disk: &'d mut D,
    pub(crate) journal: Journal,
    /// How many pages are committed.
    pub(crate) saved: u32,
    /// How many pages there are.
    pub(crate) count: u32,
    /// Committed pages that no one changed, the most recently used first.
    pub(crate) clean: LruCache<u32, Page>,
    /// What the transaction changed.
    pub(crate) changes: Changes,
    pub(crate) is_begun: bool,
    pub(crate) is_sound: bool,
    pub(crate) asked: u64,

    // No batch is open.
    ghost none: { originals_kept journal ≡ 0 },
    ghost ascending: { Ascends 0 saved (keys_of (batch_of changes)) } by { Ascends-prop 0 saved (keys_of (batch_of changes)) },
    ghost counted: { count ≡ after saved (keys_of (batch_of changes)) },
    // Where none is begun, nothing is changed.
    ghost idle: { is_begun ≡ false → length (batch_of changes) ≡ 0 },
    ghost apart: { AreApart (batch_of changes) clean.entries },
    ghost below: { AreBelow saved clean.entries },
    // Until a call fails, the disk is at rest, and the clean pages are those of the main file.
    ghost rest: { is_sound ≡ true → ForSome (D.Disk.content disk.now) (IsAtRest D.Disk disk.now) },
    ghost pages: { is_sound ≡ true → ForSome (D.Disk.content disk.now) (λ files. option_map length (pages_of files.main) ≡ Some saved) },
    ghost right: { is_sound ≡ true → ForSome (pages_on D.Disk disk.now) (λ pages. AreOf pages clean.entries) },
}

impl<'d, D: Disk> Pager<'d, D> {
    ghost use Rattle.std.specs.Prelude.{◌+◌, ◌≤◌, nat_eq};
    ghost use Rattle.std.specs.List.{IsDistinct};
    ghost use Rattle.uq_pager.specs.Pager.{IsCommitted, cache_of, held_numbers, paged};

    /// Whether a transaction is begun.
    pub fn is_begun(&self) -> bool
        ensures begun { result ≡ self.now.is_begun }
        ensures told { ForSome (paged D.Disk self.now) (λ paged. result ≡ paged.begun) }
        // A stop now leaves the committed pages.
        ensures committed { IsCommitted D.Disk self.now }
    {
        self.is_begun
    }

    /// How many pages are held: the clean ones, of which there are at most as many as the cache is to hold, and the
    /// changed ones.
    pub fn held(&self) -> u32
        ensures held { result ≡ length (held_numbers D.Disk self.now) }
        ensures once { IsDistinct nat_eq (held_numbers D.Disk self.now) }
        ensures clean { length self.now.clean.entries ≤ cache_of D.Disk self.now }
    {
        // No page is held twice, so there are no more than pages.
        let count = self.count as usize;
        let held = self.clean.len() + self.changes.len();
        let few = held <= count;
        prove!(few);
        held as u32
    }

    /// Gives the disk back. What was not committed is gone. A caller that lent the disk knows it then; of one whose pager
    /// is dropped in its place the contracts say nothing.
    pub fn into_disk(self) -> &'d mut D
        ensures same_reference { result.ghost_name ≡ self.entry.disk.ghost_name }
        ensures disk { result.now ≡ self.entry.disk.now }
    {
        let Pager {
            disk,
            journal,
            saved: _,
            count: _,
            clean,
            changes,
            is_begun: _,
            is_sound: _,
            asked: _,
        } = self;
        drop(journal);
        drop(clean);
        drop(changes);
        disk
    }
}

//! A pager as a list of pages.

ghost use Rattle.std.specs.Prelude.{◌≡◌, ◌≢◌, ℕ, None};
ghost use Rattle.uq_pager.specs.Clean.{clean_of};

use crate::Pager;
use lru::LruCache;
use uq_outside::{Disk, FileNo};
use uq_page::{PAGE_SIZE, Page, Pages, PagesFault};

// A page, as places in a file count it.
const PAGE_BYTES: u64 = PAGE_SIZE as u64;

// Gives up the clean page with this number, if it is held.
fn forget(clean: &mut LruCache<u32, Page>, no: u32)
    ensures gone { clean_of no clean.new.entries ≡ None }
    ensures others { (k : ℕ) → k ≢ no → clean_of k clean.new.entries ≡ clean_of k clean.old.entries }
    ensures cache { clean.new.cap ≡ clean.old.cap }
{
    if clean.len() > 0 {
        clean.pop(&no);
    }
}

impl<'d, D: Disk> Pager<'d, D> {
    ghost use Rattle.std.specs.Prelude.{◌≡◌, ◌<◌, IsTrue, true, false, slice_get, Some, None};
    ghost use Rattle.std.specs.Option.{ForSome};
    ghost use Rattle.uq_page.specs.Page.{bytes_of};
    ghost use Rattle.uq_page.specs.declared.error.PagesFault.{PagesFault};
    ghost use Rattle.uq_pager.specs.Pager.{Fetches, HoldsTheSame, IsSound, SameButHeld, is_held, present};

    // Copies a page that is held. Answers whether it is.
    fn copy_held(&mut self, no: u32, into: &mut Page) -> bool
        requires there { no < self.old.count }
        ensures held { result ≡ is_held D.Disk self.old no }
        ensures page { IsTrue result → ForSome (present D.Disk self.old) (λ pages. slice_get pages no ≡ Some (bytes_of into.new)) }
        ensures not { result ≡ false → into.new ≡ into.old }
        ensures same { HoldsTheSame D.Disk self.old self.new }
        ensures rest { SameButHeld D.Disk self.old self.new }
        ensures asked { self.new.asked ≡ self.old.asked }
        ensures clean { result ≡ false → self.new.clean ≡ self.old.clean }
    {
        if let Some(page) = self.changes.find(no) {
            *into = *page;
            return true;
        }
        if let Some(page) = self.clean.peek(&no) {
            *into = *page;
            self.clean.promote(&no);
            return true;
        }
        false
    }

    // Reads a page that is not held, and holds it.
    fn fetch(&mut self, no: u32, into: &mut Page) -> Result<(), PagesFault>
        requires sound { IsSound D.Disk self.old }
        requires there { no < self.old.count }
        requires away { is_held D.Disk self.old no ≡ false }
        ensures { Fetches D.Disk PagesFault.Failed no self.old self.new into.old into.new result }
    {
        let mut bytes = [0; PAGE_SIZE];
        match self
            .disk
            .read(FileNo::Main, PAGE_BYTES * no as u64, &mut bytes)
        {
            Ok(()) => {}
            Err(_) => {
                self.is_sound = false;
                return Err(PagesFault::Failed);
            }
        }
        let page = Page::from_bytes(bytes);
        match self.clean.put(no, page) {
            Ok(_) => {
                *into = page;
                Ok(())
            }
            Err(_) => Err(PagesFault::Memory),
        }
    }
}

impl<'d, D: Disk> Pages for Pager<'d, D> {
    ghost use Rattle.std.specs.Prelude.{◌≡◌, ◌+◌, ◌-◌, ◌^◌, ◌<◌, [], ◌∷◌, ◌++◌, true, false, Some, min, IfOk, IsOk, OnOk, OnErr, slice_get, slice_set};
    ghost use Rattle.std.specs.Option.{ForSome, option_map};
    ghost use Rattle.uq_facts.specs.Causes.{AtErr, UnlessErr};
    ghost use Rattle.uq_page.specs.Page.{bytes_of};
    ghost use Rattle.uq_page.specs.Pages.{HasPagesCause};
    ghost use Rattle.uq_pager.specs.Pager.{HoldsTheSame, IsSound, KeepsHeld, KeepsPager, OnlyReads, is_held, present};
    ghost use Rattle.uq_pager.specs.PagerLaws.{keeps_pager, keeps_pager_on, reads_pager, reads_pager_on, size_is, whole};

    ghost pages = { present D.Disk };

    ghost size = { λ it. it.count };

    ghost asked = { λ it. it.asked };

    ghost faults = { λ it. D.Disk.faults it.disk.now };

    ghost is_sound = { λ it. it.is_sound };

    ghost keeps = { KeepsPager D.Disk };

    ghost only_reads = { OnlyReads D.Disk };

    ghost size_is = { size_is D.Disk.own };

    ghost whole = { whole D.Disk.own };

    ghost keeps_itself = { keeps_pager D.Disk.own (record { only_now = D.Disk.only_now; counts_now = D.Disk.counts_now }) };

    ghost keeps_on = { keeps_pager_on D.Disk.own (record { only_now = D.Disk.only_now; counts_now = D.Disk.counts_now }) };

    ghost reads_itself = { reads_pager D.Disk.own (record { only_now = D.Disk.only_now; counts_now = D.Disk.counts_now }) };

    ghost reads_on = { reads_pager_on D.Disk.own (record { only_now = D.Disk.only_now; counts_now = D.Disk.counts_now }) };

    ghost reads_keep = { λ a b reads. reads.keeps };

    fn count(&self) -> u32 {
        self.count
    }

    /// A page that is held is copied, and no call is made of the disk. Another takes one read of the disk.
    fn read_page(&mut self, no: u32, into: &mut Page) -> Result<(), PagesFault>
        requires sound { self.old.is_sound ≡ true }
        requires there { no < self.old.count }
        ensures page { OnOk result (ForSome (present D.Disk self.old) (λ pages. slice_get pages no ≡ Some (bytes_of into.new))) }
        ensures into { AtErr PagesFault.Memory result (into.new ≡ into.old) }
        ensures same { UnlessErr PagesFault.Failed result (present D.Disk self.new ≡ present D.Disk self.old) }
        ensures size { self.new.count ≡ self.old.count }
        ensures asked { self.new.asked ≡ min (self.old.asked + 1) (2 ^ 64 - 1) }
        ensures reads { OnlyReads D.Disk self.old self.new }
        ensures keeps { KeepsPager D.Disk self.old self.new }
        ensures cause { HasPagesCause PagesFault.Failed (D.faults self.old.disk.now) (D.faults self.new.disk.now) self.new.is_sound result }

        // And what is held.
        ensures held { OnOk result (is_held D.Disk self.new no ≡ true) }
        ensures kept { KeepsHeld D.Disk self.old self.new }
        ensures hit { is_held D.Disk self.old no ≡ true → IsOk result }
        ensures hit_disk { is_held D.Disk self.old no ≡ true → self.new.disk ≡ self.old.disk }
        ensures hit_held { is_held D.Disk self.old no ≡ true → HoldsTheSame D.Disk self.old self.new }
        ensures miss { is_held D.Disk self.old no ≡ false → D.reads self.new.disk.now ≡ min (D.reads self.old.disk.now + 1) (2 ^ 64 - 1) }
    {
        self.asked = self.asked.saturating_add(1);
        if self.copy_held(no, into) {
            return Ok(());
        }
        self.fetch(no, into)
    }

    /// Begins a transaction where none is begun, and moves no other page.
    fn write_page(&mut self, no: u32, page: &Page) -> Result<(), PagesFault>
        requires sound { self.old.is_sound ≡ true }
        requires there { no < self.old.count }
        ensures ok { OnOk result (present D.Disk self.new ≡ option_map (λ pages. slice_set pages no (bytes_of page.now)) (present D.Disk self.old)) }
        ensures refused { AtErr PagesFault.Memory result (present D.Disk self.new ≡ present D.Disk self.old) }
        ensures size { self.new.count ≡ self.old.count }
        ensures asked { self.new.asked ≡ self.old.asked }
        ensures keeps { KeepsPager D.Disk self.old self.new }
        ensures cause { HasPagesCause PagesFault.Failed (D.faults self.old.disk.now) (D.faults self.new.disk.now) self.new.is_sound result }

        // And what is held and begun. No call is made of the disk.
        ensures begun { OnOk result (self.new.is_begun ≡ true) }
        ensures not_begun { OnErr result (self.new.is_begun ≡ self.old.is_begun) }
        ensures disk { self.new.disk ≡ self.old.disk }
        ensures held { OnOk result (is_held D.Disk self.new no ≡ true) }
        ensures kept { KeepsHeld D.Disk self.old self.new }
    {
        match self.changes.put(no, page) {
            Ok(()) => {}
            Err(_) => return Err(PagesFault::Memory),
        }
        forget(&mut self.clean, no);
        self.is_begun = true;
        Ok(())
    }

    /// Begins a transaction where none is begun, and moves no other page.
    fn grow(&mut self, page: &Page) -> Result<u32, PagesFault>
        requires sound { self.old.is_sound ≡ true }
        requires room { self.old.count < 2 ^ 32 - 1 }
        ensures number { IfOk result (λ no. no ≡ self.old.count) }
        ensures ok { OnOk result (present D.Disk self.new ≡ option_map (λ pages. pages ++ bytes_of page.now ∷ []) (present D.Disk self.old)) }
        ensures refused { AtErr PagesFault.Memory result (present D.Disk self.new ≡ present D.Disk self.old) }
        ensures size { OnOk result (self.new.count ≡ self.old.count + 1) }
        ensures size_err { OnErr result (self.new.count ≡ self.old.count) }
        ensures asked { self.new.asked ≡ self.old.asked }
        ensures keeps { KeepsPager D.Disk self.old self.new }
        ensures cause { HasPagesCause PagesFault.Failed (D.faults self.old.disk.now) (D.faults self.new.disk.now) self.new.is_sound result }

        // And what is held and begun. No call is made of the disk.
        ensures begun { OnOk result (self.new.is_begun ≡ true) }
        ensures not_begun { OnErr result (self.new.is_begun ≡ self.old.is_begun) }
        ensures disk { self.new.disk ≡ self.old.disk }
        ensures held { OnOk result (is_held D.Disk self.new self.old.count ≡ true) }
        ensures kept { KeepsHeld D.Disk self.old self.new }
    {
        let no = self.count;
        match self.changes.put(no, page) {
            Ok(()) => {}
            Err(_) => return Err(PagesFault::Memory),
        }
        self.count = no + 1;
        self.is_begun = true;
        Ok(no)
    }
}

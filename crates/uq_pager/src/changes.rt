//! The pages that a transaction changed. They stay in order of their first change, and a map finds them by their
//! numbers, so that a change moves no other page; the commit brings them into order.
ghost use Rattle.std.specs.Prelude.{◌≡◌, ◌+◌, ◌<◌, ◌++◌, ◌∷◌, take};
ghost use Rattle.std.specs.BTreeMap.{IsOrdered, btree_map_len, keys};
ghost use Rattle.std.specs.List.Sorted.{IsStrictlySortedBy, IsStrictlySortedBy-prop};
ghost use Rattle.std.specs.Ordering.{nat_cmp};
ghost use Rattle.uq_journal.specs.Recovered.{changes};
ghost use Rattle.uq_pager.specs.Places.{Places, in_order};

use std::alloc::Global;
use std::collections::BTreeMap;
use std::mem;
use uq_journal::Dirty;
use uq_page::{NoMemory, Page};

/// The changed pages, and the place of each number among them.
#[derive(Drop)]
pub(crate) struct Changes {
    alloc: Global,
    pages: Vec<Dirty>,
    places: BTreeMap<u32, usize>,
    ghost placed: { Places 0 pages.items places.entries },
    ghost ordered: { IsOrdered nat_cmp places } by { IsStrictlySortedBy-prop nat_cmp (keys places) },
}

// Puts the page that comes next in order, with the number `no`, from its place `from` to the place `at`.
fn put_in_place(
    pages: &mut Vec<Dirty>,
    places: &mut BTreeMap<u32, usize>,
    at: usize,
    no: u32,
    from: usize,
)
    requires placed { Places at pages.old.items ((no, from) ∷ places.old.entries) }
    requires ordered { IsStrictlySortedBy nat_cmp (no ∷ keys places.old) }
    ensures placed { Places (at + 1) pages.new.items places.new.entries }
    ensures ordered { IsOrdered nat_cmp places.new }
    ensures len { btree_map_len places.new ≡ btree_map_len places.old }
    ensures batch { changes (take (at + 1) pages.new.items) ++ in_order pages.new.items places.new.entries ≡ changes (take at pages.old.items) ++ in_order pages.old.items ((no, from) ∷ places.old.entries) }
{
    if from == at {
        return;
    }
    let moved = pages[at].no;
    pages.swap(at, from);
    if let Some(place) = places.get_mut(&moved) {
        *place = from;
    }
}

// Brings the pages into the order of their numbers. There are fewer swaps than pages, since each puts one in place.
fn bring_into_order(pages: &mut Vec<Dirty>, places: &mut BTreeMap<u32, usize>)
    requires placed { Places 0 pages.old.items places.old.entries }
    requires ordered { IsOrdered nat_cmp places.old }
    ensures { changes pages.new.items ≡ in_order pages.old.items places.old.entries }
{
    let mut at = 0;
    while let Some((no, from)) = places.pop_first() {
        put_in_place(pages, places, at, no, from);
        at += 1;
    }
}

impl Changes {
    ghost use Rattle.std.specs.Prelude.{◌≡◌, [], OnOk, OnErr, option_map, length};
    ghost use Rattle.uq_page.specs.Page.{bytes_of};
    ghost use Rattle.uq_journal.specs.Recovered.{changes};
    ghost use Rattle.uq_pager.specs.Places.{entry_of};
    ghost use Rattle.uq_pager.specs.Changes.{batch_of, with_change};

    /// No page is changed.
    pub(crate) fn new(alloc: Global) -> Changes
        ensures { batch_of result ≡ [] }
    {
        Changes {
            alloc,
            pages: Vec::new(alloc),
            places: BTreeMap::new(alloc),
        }
    }

    /// How many pages are changed.
    pub(crate) fn len(&self) -> usize
        ensures { result ≡ length (batch_of self.now) }
    {
        self.places.len()
    }

    /// The changed page with this number.
    pub(crate) fn find(&self, no: u32) -> Option<&Page>
        ensures { option_map (λ page. bytes_of page.now) result ≡ entry_of no (batch_of self.now) }
    {
        match self.places.get(&no) {
            Some(at) => Some(&self.pages[*at].page),
            None => None,
        }
    }

    /// Makes `page` the changed page with this number.
    pub(crate) fn put(&mut self, no: u32, page: &Page) -> Result<(), NoMemory>
        ensures ok { OnOk result (batch_of self.new ≡ with_change no (bytes_of page.now) (batch_of self.old)) }
        ensures err { OnErr result (batch_of self.new ≡ batch_of self.old) }
    {
        match self.places.get(&no).copied() {
            Some(at) => {
                self.pages[at].page = *page;
                Ok(())
            }
            None => self.add(no, page),
        }
    }

    /// Gives up the changed pages, in order of their numbers.
    pub(crate) fn take(&mut self) -> Vec<Dirty>
        ensures batch { changes result.items ≡ batch_of self.old }
        ensures empty { batch_of self.new ≡ [] }
    {
        let none = Changes::new(self.alloc);
        let Changes {
            alloc: _,
            mut pages,
            mut places,
        } = mem::replace(self, none);
        bring_into_order(&mut pages, &mut places);
        pages
    }

    /// Drops the changed pages.
    pub(crate) fn clear(&mut self)
        ensures { batch_of self.new ≡ [] }
    {
        self.pages.clear();
        self.places.clear();
    }

    // Takes up a page that was not changed so far.
    fn add(&mut self, no: u32, page: &Page) -> Result<(), NoMemory>
        requires { entry_of no self.old.places.entries ≡ None }
        ensures ok { OnOk result (batch_of self.new ≡ with_change no (bytes_of page.now) (batch_of self.old)) }
        ensures err { OnErr result (batch_of self.new ≡ batch_of self.old) }
    {
        let at = self.pages.len();
        let changed = Dirty {
            no,
            first: true,
            page: *page,
        };
        if self.pages.push(changed).is_err() {
            return Err(NoMemory);
        }
        match self.places.insert(no, at) {
            Ok(_) => Ok(()),
            Err(_) => {
                self.pages.pop();
                Err(NoMemory)
            }
        }
    }
}

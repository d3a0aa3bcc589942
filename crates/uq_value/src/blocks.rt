//! Members' places in the order of their names, in blocks: where the rows of the index are full, a member's place is here.

ghost use Rattle.std.specs.Prelude.{◌≡◌, ◌≤◌, ◌<◌, ◌-◌, ◌+◌, ◌++◌, [], ◌∷◌, length, take, drop, IfOk, IfErr, OnOk, OnErr, slice_get, slice_index_or};
ghost use Rattle.uq_value.specs.Data.{IsDistinct};
ghost use Rattle.uq_value.specs.Internal.NameOrder.{digest as spec_digest, is_before as spec_is_before};
ghost use Rattle.uq_value.specs.Internal.Blocks.{entries, label, last_of, rest, with_entry, AllBefore, AllWithin, NoneBefore, Ascending, IsFor, IsSorted, IsFilled, IsPlace, IsEntry, Belongs, Splits, SplitsBlocks, IsMissing, Enters, SameEntries};
ghost use Rattle.uq_value.specs.Internal.Names.{names, IsFound};

use crate::error::NoMemory;
use crate::marks::digest;
use crate::object::Member;
use std::alloc::Global;

/// So many entries a block has at most, and so many are moved at most for a new one.
const MOST_ENTRIES: usize = 512;

/// A member's place, and the digest of its name.
#[derive(Clone, Copy)]
pub(crate) struct Entry {
    digest: u64,
    at: usize,
}

/// Where an entry stands or belongs: so many blocks are in front of its own, and so many entries within that.
#[derive(Clone, Copy)]
pub(crate) struct Place {
    block: usize,
    entry: usize,
}

/// Entries in the order of the names' keys: of their digests, and where those are equal, of their bytes. They are cut
/// into blocks, so that a new one moves few others.
#[derive(Drop)]
pub(crate) struct NameBlocks {
    blocks: Vec<Vec<Entry>>,
}

/// Whether the entry comes before a name of this digest.
fn is_before(entry: &Entry, members: &[Member], digest: u64, name: &[u8]) -> bool
    requires { entry.now.at < length members.now }
    ensures { result ≡ spec_is_before (label (names members.now) entry.now) (digest ∷ name.now) }
{
    if entry.digest != digest {
        return entry.digest < digest;
    }
    members[entry.at].name().cmp(name).is_lt()
}

/// Whether the entry is for the name of this digest.
fn is_for(entry: &Entry, members: &[Member], digest: u64, name: &[u8]) -> bool
    requires { entry.now.at < length members.now }
    ensures { IsFor result (names members.now) entry.now (digest ∷ name.now) }
{
    entry.digest == digest && members[entry.at].name() == name
}

/// How many of the entries come before the name.
fn entries_before(entries: &[Entry], members: &[Member], digest: u64, name: &[u8]) -> usize
    requires within { AllWithin (names members.now) entries.now }
    requires ascending { Ascending (names members.now) entries.now }
    ensures bound { result ≤ length entries.now }
    ensures before { AllBefore (names members.now) (digest ∷ name.now) (take result entries.now) }
    ensures rest { NoneBefore (names members.now) (digest ∷ name.now) (drop result entries.now) }
{
    let (mut low, mut high) = (0, entries.len());
    while low < high {
        let middle = low + (high - low) / 2;
        if is_before(&entries[middle], members, digest, name) {
            low = middle + 1;
        } else {
            high = middle;
        }
    }
    low
}

/// Whether all entries of a block come before the name.
fn is_block_before(block: &[Entry], members: &[Member], digest: u64, name: &[u8]) -> bool
    requires within { AllWithin (names members.now) block.now }
    requires filled { 0 < length block.now }
    ensures { (d : _) → result ≡ spec_is_before (label (names members.now) (last_of block.now d)) (digest ∷ name.now) }
{
    is_before(&block[block.len() - 1], members, digest, name)
}

impl NameBlocks {
    /// Without entries.
    pub(crate) fn new(alloc: Global) -> NameBlocks
        ensures { result.blocks.items ≡ [] }
    {
        NameBlocks {
            blocks: Vec::new(alloc),
        }
    }

    /// The same entries, in memory of its own.
    pub(crate) fn copy(&self, alloc: Global) -> Result<NameBlocks, NoMemory>
        ensures { IfOk result (λ i. IsFilled self.now.blocks.items → SameEntries self.now.blocks.items i.blocks.items) }
    {
        let mut blocks = Vec::with_capacity(alloc, self.blocks.len())?;
        for block in &self.blocks {
            blocks.push(Vec::from_slice(alloc, block.as_slice())?)?;
        }
        Ok(NameBlocks { blocks })
    }

    /// How many of the blocks come before the name as a whole.
    fn blocks_before(&self, members: &[Member], digest: u64, name: &[u8]) -> usize
        requires { IsSorted (names members.now) self.now.blocks.items }
        ensures { SplitsBlocks (names members.now) (digest ∷ name.now) self.now.blocks.items result }
    {
        let (mut low, mut high) = (0, self.blocks.len());
        while low < high {
            let middle = low + (high - low) / 2;
            if is_block_before(self.blocks[middle].as_slice(), members, digest, name) {
                low = middle + 1;
            } else {
                high = middle;
            }
        }
        low
    }

    /// Where the first entry stands that does not come before the name.
    fn place(&self, members: &[Member], digest: u64, name: &[u8]) -> Place
        requires { IsSorted (names members.now) self.now.blocks.items }
        ensures { Splits (names members.now) (digest ∷ name.now) self.now.blocks.items result.block result.entry }
    {
        let block = self.blocks_before(members, digest, name);
        if block == self.blocks.len() {
            return Place { block, entry: 0 };
        }
        let entry = entries_before(self.blocks[block].as_slice(), members, digest, name);
        Place { block, entry }
    }

    /// The entry that stands there.
    fn entry(&self, place: Place) -> Option<Entry>
        requires { IsEntry self.now.blocks.items place.block place.entry }
        ensures { result ≡ slice_get (rest self.now.blocks.items place.block place.entry) 0 }
    {
        if place.block < self.blocks.len() {
            Some(self.blocks[place.block][place.entry])
        } else {
            None
        }
    }

    /// The place of the member of this name, or where its entry would belong.
    pub(crate) fn search(&self, members: &[Member], name: &[u8]) -> Result<usize, Place>
        requires sorted { IsSorted (names members.now) self.now.blocks.items }
        requires distinct { IsDistinct (names members.now) }
        ensures found { IfOk result (IsFound (names members.now) name.now) }
        ensures missing { IfErr result (λ s. IsMissing (names members.now) name.now self.now.blocks.items s.block s.entry) }
    {
        let digest = digest(name);
        let place = self.place(members, digest, name);
        match self.entry(place) {
            Some(entry) => {
                if is_for(&entry, members, digest, name) {
                    Ok(entry.at)
                } else {
                    Err(place)
                }
            }
            None => Err(place),
        }
    }

    /// Adds the entry of a new member, whose place is behind these.
    pub(crate) fn enter(
        &mut self,
        alloc: Global,
        members: &[Member],
        name: &[u8],
        place: Place,
    ) -> Result<(), NoMemory>
        requires sorted { IsSorted (names members.now) self.old.blocks.items }
        requires belongs { Belongs (names members.now) name.now self.old.blocks.items place.block place.entry }
        ensures ok { OnOk result (Enters (names members.now) name.now self.old.blocks.items self.new.blocks.items) }
        ensures unchanged { OnErr result (SameEntries self.old.blocks.items self.new.blocks.items) }
    {
        let entry = Entry {
            digest: digest(name),
            at: members.len(),
        };
        if place.block == self.blocks.len() {
            self.append(alloc, entry)
        } else {
            self.insert(alloc, place, entry)
        }
    }

    /// Adds an entry behind all others.
    fn append(&mut self, alloc: Global, entry: Entry) -> Result<(), NoMemory>
        requires filled { IsFilled self.old.blocks.items }
        ensures ok { OnOk result (entries self.new.blocks.items ≡ entries self.old.blocks.items ++ entry ∷ []) }
        ensures unchanged { OnErr result (entries self.new.blocks.items ≡ entries self.old.blocks.items) }
        ensures filled { IsFilled self.new.blocks.items }
    {
        let count = self.blocks.len();
        if count == 0 || self.blocks[count - 1].len() >= MOST_ENTRIES {
            return self.append_block(alloc, entry);
        }
        self.blocks[count - 1].push(entry)?;
        Ok(())
    }

    fn append_block(&mut self, alloc: Global, entry: Entry) -> Result<(), NoMemory>
        requires filled { IsFilled self.old.blocks.items }
        ensures ok { OnOk result (entries self.new.blocks.items ≡ entries self.old.blocks.items ++ entry ∷ []) }
        ensures unchanged { OnErr result (entries self.new.blocks.items ≡ entries self.old.blocks.items) }
        ensures filled { IsFilled self.new.blocks.items }
    {
        let mut block = Vec::new(alloc);
        block.push(entry)?;
        self.blocks.push(block)?;
        Ok(())
    }

    /// Adds an entry within a block, and cuts that in two where it is then too long.
    fn insert(&mut self, alloc: Global, place: Place, entry: Entry) -> Result<(), NoMemory>
        requires within { place.block < length self.old.blocks.items }
        requires place { IsPlace self.old.blocks.items place.block place.entry }
        requires filled { IsFilled self.old.blocks.items }
        ensures ok { OnOk result (entries self.new.blocks.items ≡ with_entry self.old.blocks.items place.block place.entry entry) }
        ensures unchanged { OnErr result (entries self.new.blocks.items ≡ entries self.old.blocks.items) }
        ensures filled { IsFilled self.new.blocks.items }
    {
        self.blocks[place.block].insert(place.entry, entry)?;
        if self.blocks[place.block].len() > MOST_ENTRIES {
            self.cut(alloc, place.block);
        }
        Ok(())
    }

    /// Cuts a block in two. Where there is no memory for it the block stays as it is.
    fn cut(&mut self, alloc: Global, block: usize)
        requires within { block < length self.old.blocks.items }
        requires long { (b : _) → 1 < length (slice_index_or self.old.blocks.items block b).items }
        requires filled { IsFilled self.old.blocks.items }
        ensures entries { entries self.new.blocks.items ≡ entries self.old.blocks.items }
        ensures filled { IsFilled self.new.blocks.items }
    {
        let long = self.blocks[block].as_slice();
        let half = long.len() / 2;
        let Ok(upper) = Vec::from_slice(alloc, &long[half..]) else {
            return;
        };
        if self.blocks.insert(block + 1, upper).is_ok() {
            self.blocks[block].truncate(half);
        }
    }
}

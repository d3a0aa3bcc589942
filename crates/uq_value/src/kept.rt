//! What a list or object keeps beside its parts: its size and depth, and where it has many parts what finds them.

ghost use Rattle.std.specs.Prelude.{◌≡◌, ◌≤◌, ◌<◌, ◌+◌, ◌^◌, ◌++◌, [], ◌∷◌, ℕ, List, max, map, length, true, IfSome, None, IfOk, IfErr, OnOk, OnErr};
ghost use Rattle.std.specs.Bool.{OnTrue};
ghost use Rattle.std.specs.List.{All};
ghost use Rattle.uq_value.specs.Size.{most_size};
ghost use Rattle.uq_value.specs.Depth.{most_depth};
ghost use Rattle.uq_value.specs.Internal.Tally.{IsTally, deepest_of, Adds, Changes, IsDeepest};
ghost use Rattle.uq_value.specs.Internal.Beside.{numbers_of, size_of, depth_of, Counts, CountsAre, DepthIs, Tells, NamesAre, KeepsCounts, KeepsNames, LacksAt, Mends};
ghost use Rattle.uq_value.specs.declared.kept.Kept.TheVariants.{Alone};
ghost use Rattle.uq_value.specs.Data.{IsDistinct};
ghost use Rattle.uq_value.specs.Internal.Index.{KeepsIndex};
ghost use Rattle.uq_value.specs.Internal.Names.{names, IsFound};

use crate::depth_counts::DepthCounts;
use crate::error::NoMemory;
use crate::measuring::MOST_DEPTH;
use crate::names::{NameIndex, Spot, find_in_order};
use crate::object::Member;
use crate::part::{Part, count};
use std::alloc::Global;

/// So many parts are gone over, and their names compared, one after the other.
pub(crate) const FEW: usize = 32;

/// The size and depth of a list or object.
#[derive(Clone, Copy)]
pub(crate) struct Numbers {
    size: u32,
    depth: u32,
}

/// What a list or object keeps beside its parts. Two words hold it, since most lists and objects are short.
#[derive(Drop)]
pub(crate) enum Kept {
    /// Its size and depth.
    Alone(Numbers),
    /// These, with what serves where there are many parts.
    With(Box<More>),
}

/// What serves where there are many parts: how many there are at each depth, once a write asked for it, and the index
/// of an object's names.
#[derive(Drop)]
pub(crate) struct More {
    numbers: Numbers,
    counts: Option<Box<DepthCounts>>,
    names: NameIndex,
}

impl Numbers {
    /// A part of this depth comes, and the size is this then.
    fn add(&mut self, size: u64, depth: u32)
        requires small { size ≤ most_size }
        requires shallow { depth < most_depth }
        ensures size { self.new.size ≡ size }
        ensures depth { self.new.depth ≡ max self.old.depth (depth + 1) }
    {
        self.size = size as u32;
        self.depth = self.depth.max(depth + 1);
    }
}

impl More {
    /// Of a copy, in which parts are not counted yet.
    fn copy(&self, alloc: Global) -> Result<More, NoMemory>
        ensures numbers { IfOk result (λ m. m.numbers ≡ self.now.numbers) }
        ensures counts { IfOk result (λ m. m.counts ≡ None) }
        ensures names { IfOk result (λ m. KeepsIndex self.now.names m.names) }
    {
        Ok(More {
            numbers: self.numbers,
            counts: None,
            names: self.names.copy(alloc)?,
        })
    }

    /// A part of this depth comes, and the size is this then.
    fn add(&mut self, size: u64, depth: u32)
        requires small { size ≤ most_size }
        requires shallow { depth < most_depth }
        ensures size { self.new.numbers.size ≡ size }
        ensures depth { self.new.numbers.depth ≡ max self.old.numbers.depth (depth + 1) }
        ensures counts { Adds (Counts self.old) (Counts self.new) depth }
        ensures names { self.new.names ≡ self.old.names }
    {
        self.numbers.add(size, depth);
        if let Some(counts) = &mut self.counts {
            counts.add(depth);
        }
    }

    /// A part of one depth has another now.
    fn change(&mut self, before: u32, after: u32)
        requires before { before < most_depth }
        requires after { after < most_depth }
        ensures numbers { self.new.numbers ≡ self.old.numbers }
        ensures counts { Changes (Counts self.old) (Counts self.new) before after }
        ensures names { self.new.names ≡ self.old.names }
    {
        if let Some(counts) = &mut self.counts {
            counts.change(before, after);
        }
    }

    /// The depth of the deepest part, where parts are counted; no part is deeper than `most`.
    fn deepest(&self, most: u32) -> Option<u32>
        requires { most < most_depth }
        ensures bound { IfSome result (λ d. d ≤ most) }
        ensures deepest { IfSome result (IsDeepest (Counts self.now) most) }
    {
        match &self.counts {
            Some(counts) => Some(counts.deepest(most)),
            None => None,
        }
    }
}

impl Kept {
    /// Of a list or object without parts.
    pub(crate) fn new() -> Kept
        ensures size { size_of result ≡ 2 }
        ensures depth { depth_of result ≡ 1 }
        ensures counts { (ds : List ℕ) → CountsAre result ds }
        ensures names { (ns : _) → NamesAre result ns }
    {
        Kept::Alone(Numbers { size: 2, depth: 1 })
    }

    /// Of a copy.
    pub(crate) fn copy(&self, alloc: Global) -> Result<Kept, NoMemory>
        ensures size { IfOk result (λ k. size_of k ≡ size_of self.now) }
        ensures depth { IfOk result (λ k. depth_of k ≡ depth_of self.now) }
        ensures counts { IfOk result (λ k. (ds : List ℕ) → CountsAre k ds) }
        ensures names { IfOk result (λ k. KeepsNames self.now k) }
    {
        match self {
            Kept::Alone(numbers) => Ok(Kept::Alone(*numbers)),
            Kept::With(more) => Ok(Kept::With(Box::new(alloc, more.copy(alloc)?)?)),
        }
    }

    fn numbers(&self) -> Numbers
        ensures { result ≡ numbers_of self.now }
    {
        match self {
            Kept::Alone(numbers) => *numbers,
            Kept::With(more) => more.numbers,
        }
    }

    pub(crate) fn size(&self) -> u64
        ensures { result ≡ size_of self.now }
    {
        u64::from(self.numbers().size)
    }

    pub(crate) fn depth(&self) -> u32
        ensures { result ≡ depth_of self.now }
    {
        self.numbers().depth
    }

    /// These numbers are kept from now on.
    fn set_numbers(&mut self, numbers: Numbers)
        ensures numbers { numbers_of self.new ≡ numbers }
        ensures counts { KeepsCounts self.old self.new }
        ensures names { KeepsNames self.old self.new }
    {
        match self {
            Kept::Alone(alone) => *alone = numbers,
            Kept::With(more) => more.numbers = numbers,
        }
    }

    fn set_size(&mut self, size: u64)
        requires { size ≤ most_size }
        ensures size { size_of self.new ≡ size }
        ensures depth { depth_of self.new ≡ depth_of self.old }
        ensures counts { KeepsCounts self.old self.new }
        ensures names { KeepsNames self.old self.new }
    {
        let depth = self.depth();
        self.set_numbers(Numbers {
            size: size as u32,
            depth,
        });
    }

    fn set_depth(&mut self, depth: u32)
        ensures size { size_of self.new ≡ size_of self.old }
        ensures depth { depth_of self.new ≡ depth }
        ensures counts { KeepsCounts self.old self.new }
        ensures names { KeepsNames self.old self.new }
    {
        let size = self.numbers().size;
        self.set_numbers(Numbers { size, depth });
    }

    /// With these numbers.
    pub(crate) fn with_numbers(self, size: u64, depth: u32) -> Kept
        requires { size ≤ most_size }
        ensures size { size_of result ≡ size }
        ensures depth { depth_of result ≡ depth }
        ensures counts { KeepsCounts self result }
        ensures names { KeepsNames self result }
    {
        let mut kept = self;
        kept.set_numbers(Numbers {
            size: size as u32,
            depth,
        });
        kept
    }

    /// A part of this depth comes, and the size is this then.
    pub(crate) fn add(&mut self, size: u64, depth: u32)
        requires small { size ≤ most_size }
        requires shallow { depth < most_depth }
        ensures size { size_of self.new ≡ size }
        ensures depth { depth_of self.new ≡ max (depth_of self.old) (depth + 1) }
        ensures counts { Adds (CountsAre self.old) (CountsAre self.new) depth }
        ensures names { KeepsNames self.old self.new }
    {
        match self {
            Kept::Alone(numbers) => numbers.add(size, depth),
            Kept::With(more) => more.add(size, depth),
        }
    }

    /// A part of one depth has another now, and the size is this.
    fn note(&mut self, size: u64, before: u32, after: u32)
        requires small { size ≤ most_size }
        requires before { before < most_depth }
        requires after { after < most_depth }
        ensures size { size_of self.new ≡ size }
        ensures depth { depth_of self.new ≡ depth_of self.old }
        ensures counts { Changes (CountsAre self.old) (CountsAre self.new) before after }
        ensures names { KeepsNames self.old self.new }
    {
        self.set_size(size);
        match self {
            Kept::Alone(_) => {}
            Kept::With(more) => more.change(before, after),
        }
    }

    /// Of these parts one of one depth has become another, and the size is this.
    pub(crate) fn mend<P: Part>(
        &mut self,
        alloc: Global,
        parts: &[P],
        size: u64,
        before: u32,
        after: u32,
    )
        requires few { length parts.now + 1 < 2 ^ 32 }
        requires shallow { All (λ p. P.depth_of p < most_depth) parts.now }
        requires small { size ≤ most_size }
        requires before { before < most_depth }
        requires after { after < most_depth }
        requires kept { before + 1 ≤ depth_of self.old }
        ensures size { size_of self.new ≡ size }
        ensures mended { Mends self.old self.new before after (map P.depth_of parts.now) }
        ensures names { KeepsNames self.old self.new }
    {
        if !self.change(size, before, after) {
            self.take_counts(alloc, count(parts), parts.len());
        }
    }

    /// A part of one depth has another now, and the size is this. The answer is whether the depth is known; where not,
    /// the parts have to be gone over.
    fn change(&mut self, size: u64, before: u32, after: u32) -> bool
        requires small { size ≤ most_size }
        requires before { before < most_depth }
        requires after { after < most_depth }
        requires kept { before + 1 ≤ depth_of self.old }
        ensures size { size_of self.new ≡ size }
        ensures depth { OnTrue result (Changes (Tells self.old) (DepthIs self.new) before after) }
        ensures counts { Changes (CountsAre self.old) (CountsAre self.new) before after }
        ensures names { KeepsNames self.old self.new }
    {
        self.note(size, before, after);
        let depth_before = self.depth();
        if after + 1 >= depth_before {
            self.set_depth(after + 1);
            return true;
        }
        if before + 1 < depth_before {
            return true;
        }
        match self.deepest(before) {
            Some(deepest) => {
                self.set_depth(deepest + 1);
                true
            }
            None => false,
        }
    }

    /// The depth of the deepest part, where parts are counted; no part is deeper than `most`.
    fn deepest(&self, most: u32) -> Option<u32>
        requires { most < most_depth }
        ensures bound { IfSome result (λ d. d ≤ most) }
        ensures deepest { IfSome result (IsDeepest (CountsAre self.now) most) }
    {
        match self {
            Kept::Alone(_) => None,
            Kept::With(more) => more.deepest(most),
        }
    }

    /// Takes the depth from parts that were counted, and keeps the counts where there are many and there is memory.
    fn take_counts(&mut self, alloc: Global, counts: DepthCounts, parts: usize)
        ensures size { size_of self.new ≡ size_of self.old }
        ensures depth { (ds : List ℕ) → deepest_of ds < most_depth → IsTally counts.counts ds → DepthIs self.new ds }
        ensures counts { (ds : List ℕ) → IsTally counts.counts ds → CountsAre self.old ds → CountsAre self.new ds }
        ensures names { KeepsNames self.old self.new }
    {
        self.set_depth(counts.deepest(MOST_DEPTH - 1) + 1);
        if parts > FEW {
            self.keep(alloc, counts);
        }
    }

    fn keep(&mut self, alloc: Global, counts: DepthCounts)
        ensures size { size_of self.new ≡ size_of self.old }
        ensures depth { depth_of self.new ≡ depth_of self.old }
        ensures counts { (ds : List ℕ) → IsTally counts.counts ds → CountsAre self.old ds → CountsAre self.new ds }
        ensures names { KeepsNames self.old self.new }
    {
        let Ok(counts) = Box::new(alloc, counts) else {
            return;
        };
        match self {
            Kept::Alone(numbers) => {
                let numbers = *numbers;
                self.begin_counts(alloc, numbers, counts);
            }
            Kept::With(more) => more.counts = Some(counts),
        }
    }

    fn begin_counts(&mut self, alloc: Global, numbers: Numbers, counts: Box<DepthCounts>)
        requires { self.old ≡ Alone numbers }
        ensures size { size_of self.new ≡ size_of self.old }
        ensures depth { depth_of self.new ≡ depth_of self.old }
        ensures counts { (ds : List ℕ) → IsTally counts.value.counts ds → CountsAre self.new ds }
        ensures names { (ns : _) → NamesAre self.new ns }
    {
        let more = More {
            numbers,
            counts: Some(counts),
            names: NameIndex::new(alloc),
        };
        if let Ok(more) = Box::new(alloc, more) {
            *self = Kept::With(more);
        }
    }

    /// The place of the member of this name, or where its entry would belong.
    pub(crate) fn find(&self, members: &[Member], name: &[u8]) -> Result<usize, Spot>
        requires index { NamesAre self.now (names members.now) }
        requires distinct { IsDistinct (names members.now) }
        ensures found { IfOk result (IsFound (names members.now) name.now) }
        ensures lacks { IfErr result (LacksAt self.now (names members.now) name.now) }
    {
        match self {
            Kept::Alone(_) => find_in_order(members, name),
            Kept::With(more) => more.names.find(members, name),
        }
    }

    /// Adds the entry of a new member, which comes behind these.
    pub(crate) fn add_name(
        &mut self,
        alloc: Global,
        members: &[Member],
        name: &[u8],
        spot: Spot,
    ) -> Result<(), NoMemory>
        requires index { NamesAre self.old (names members.now) }
        requires distinct { IsDistinct (names members.now) }
        requires lacks { LacksAt self.old (names members.now) name.now spot }
        ensures ok { OnOk result (NamesAre self.new (names members.now ++ name.now ∷ [])) }
        ensures unchanged { OnErr result (NamesAre self.new (names members.now)) }
        ensures size { size_of self.new ≡ size_of self.old }
        ensures depth { depth_of self.new ≡ depth_of self.old }
        ensures counts { KeepsCounts self.old self.new }
    {
        match self {
            Kept::Alone(numbers) => {
                let numbers = *numbers;
                self.begin(alloc, numbers, members, name, spot)
            }
            Kept::With(more) => more.names.add(alloc, members, name, spot),
        }
    }

    fn begin(
        &mut self,
        alloc: Global,
        numbers: Numbers,
        members: &[Member],
        name: &[u8],
        spot: Spot,
    ) -> Result<(), NoMemory>
        requires alone { self.old ≡ Alone numbers }
        requires distinct { IsDistinct (names members.now) }
        requires lacks { LacksAt self.old (names members.now) name.now spot }
        ensures ok { OnOk result (NamesAre self.new (names members.now ++ name.now ∷ [])) }
        ensures unchanged { OnErr result (NamesAre self.new (names members.now)) }
        ensures size { size_of self.new ≡ size_of self.old }
        ensures depth { depth_of self.new ≡ depth_of self.old }
        ensures counts { (ds : List ℕ) → CountsAre self.new ds }
    {
        if members.len() < FEW {
            return Ok(());
        }
        let mut names = NameIndex::new(alloc);
        names.add(alloc, members, name, spot)?;
        let more = More {
            numbers,
            counts: None,
            names,
        };
        *self = Kept::With(Box::new(alloc, more)?);
        Ok(())
    }
}

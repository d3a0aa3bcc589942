//! Random sequences of all calls against maps that the test keeps.
use crate::{Cursor, Kv, KvFault, MOST_VALUE, Space};
use std::alloc::Global;
use std::cmp::Ordering;
use std::test::Fail;
use uq_hash::hash;
use uq_model::{Limits, MOST_BYTES, MOST_ENTRIES};
use uq_outside::MemDisk;

/// The hash of no bytes.
const BASIS: u32 = 2166136261;

/// So many entries and bytes fit, so that some writes are refused.
const FEW: Limits = Limits {
    entries: 60,
    bytes: 100_000,
};

/// The greatest limits.
const LIMITS: Limits = Limits {
    entries: MOST_ENTRIES,
    bytes: MOST_BYTES,
};

/// How long the data are that are stored, and those that are put behind others.
const SIZES: [usize; 8] = [0, 1, 100, 155, 255, 256, 4_000, 9_000];

/// A sequence of numbers that looks random.
#[derive(Drop)]
struct Dice {
    state: u64,
}

impl Dice {
    fn roll(&mut self, below: usize) -> usize {
        self.state = self
            .state
            .wrapping_mul(6364136223846793005)
            .wrapping_add(1442695040888963407);
        if below == 0 {
            0
        } else {
            (self.state >> 33) as usize % below
        }
    }
}

/// An entry, as the model keeps it.
#[derive(Drop)]
struct Entry {
    space: Space,
    key: Vec<u8>,
    data: Vec<u8>,
    /// Where it is walked, if it is the user's.
    rank: u32,
}

impl Entry {
    fn place(&self) -> (u32, &[u8]) {
        (self.rank, self.key.as_slice())
    }
}

/// What a store and a cursor should be.
#[derive(Drop)]
struct Model {
    saved: Vec<Entry>,
    present: Vec<Entry>,
    begun: bool,
    cursor: Option<Vec<u8>>,
}

fn copy_of(alloc: Global, bytes: &[u8]) -> Result<Vec<u8>, Fail> {
    Ok(Vec::from_slice(alloc, bytes)?)
}

fn copies_of(alloc: Global, entries: &[Entry]) -> Result<Vec<Entry>, Fail> {
    let mut copies = Vec::new(alloc);
    for entry in entries {
        copies.push(Entry {
            space: entry.space,
            key: copy_of(alloc, &entry.key)?,
            data: copy_of(alloc, &entry.data)?,
            rank: entry.rank,
        })?;
    }
    Ok(copies)
}

/// A key of the user is walked by its hash, which begins with the byte of the space.
fn rank_of(key: &[u8]) -> u32 {
    hash(hash(BASIS, b"K"), key).reverse_bits()
}

/// How two of them are walked, by their ranks and bytes.
fn walked(a: (u32, &[u8]), b: (u32, &[u8])) -> Ordering {
    match a.0.cmp(&b.0) {
        Ordering::Equal => a.1.cmp(b.1),
        unequal => unequal,
    }
}

fn find(entries: &[Entry], space: Space, key: &[u8]) -> Option<usize> {
    entries.iter().position(|entry| entry.space == space && entry.key.as_slice() == key)
}

fn data_of<'e>(entries: &'e [Entry], space: Space, key: &[u8]) -> Option<&'e [u8]> {
    for entry in entries {
        if entry.space == space && entry.key.as_slice() == key {
            return Some(entry.data.as_slice());
        }
    }
    None
}

/// The user's key that is walked next behind this one, or before it where `is_back`; the first or the last where
/// there is none to go from.
fn neighbour<'e>(entries: &'e [Entry], from: Option<&[u8]>, is_back: bool) -> Option<&'e [u8]> {
    let (beyond, closer) = if is_back {
        (Ordering::Less, Ordering::Greater)
    } else {
        (Ordering::Greater, Ordering::Less)
    };
    let from = match from {
        Some(key) => Some((rank_of(key), key)),
        None => None,
    };
    let mut best: Option<&'e Entry> = None;
    for entry in entries {
        let is_beyond = match from {
            Some(from) => walked(entry.place(), from) == beyond,
            None => true,
        };
        let is_closer = match best {
            Some(best) => walked(entry.place(), best.place()) == closer,
            None => true,
        };
        if entry.space == Space::Keys && is_beyond && is_closer {
            best = Some(entry);
        }
    }
    match best {
        Some(entry) => Some(entry.key.as_slice()),
        None => None,
    }
}

/// Whether a call answered this key or these data, or this refusal where there are none.
fn is_answer(answer: &Result<Vec<u8>, KvFault>, want: Option<&[u8]>, refusal: KvFault) -> bool {
    match (answer, want) {
        (Ok(found), Some(want)) => found.as_slice() == want,
        (Err(fault), None) => *fault == refusal,
        _ => false,
    }
}

impl Model {
    fn bytes(&self) -> usize {
        let mut bytes = 0usize;
        for entry in &self.present {
            bytes = bytes
                .saturating_add(1)
                .saturating_add(entry.key.len())
                .saturating_add(entry.data.len());
        }
        bytes
    }

    /// Whether a write of data of this length is refused.
    fn is_full(&self, space: Space, key: &[u8], len: usize) -> bool {
        let bytes = self.bytes();
        let (has_more, now) = match data_of(&self.present, space, key) {
            Some(old) => (
                len > old.len(),
                bytes.saturating_sub(old.len()).saturating_add(len),
            ),
            None => (
                true,
                bytes
                    .saturating_add(1)
                    .saturating_add(key.len())
                    .saturating_add(len),
            ),
        };
        let is_new = find(&self.present, space, key).is_none();
        (is_new && self.present.len() >= 60) || (has_more && now > 100_000)
    }

    fn put(&mut self, space: Space, key: Vec<u8>, data: Vec<u8>) -> Result<(), Fail> {
        self.take(space, &key);
        let rank = rank_of(&key);
        self.present.push(Entry {
            space,
            key,
            data,
            rank,
        })?;
        self.begun = true;
        Ok(())
    }

    fn take(&mut self, space: Space, key: &[u8]) -> bool {
        match find(&self.present, space, key) {
            Some(at) => {
                if at < self.present.len() {
                    self.present.remove(at);
                }
                self.begun = true;
                true
            }
            None => false,
        }
    }

    /// Moves the cursor to where a walk should go, and answers whether the store's answer was that.
    fn go(&mut self, answer: Result<(), KvFault>, to: Option<Vec<u8>>) -> bool {
        let is_right = match &to {
            Some(_) => answer == Ok(()),
            None => answer == Err(KvFault::NoEntry),
        };
        self.cursor = to;
        is_right
    }

    fn to(
        &self,
        alloc: Global,
        from: Option<&[u8]>,
        is_back: bool,
    ) -> Result<Option<Vec<u8>>, Fail> {
        match neighbour(&self.present, from, is_back) {
            Some(key) => Ok(Some(copy_of(alloc, key)?)),
            None => Ok(None),
        }
    }

    /// Where a step of the cursor should go.
    fn step_to(&self, alloc: Global, is_back: bool) -> Result<Option<Vec<u8>>, Fail> {
        match &self.cursor {
            Some(from) => self.to(alloc, Some(from), is_back),
            None => Ok(None),
        }
    }
}

/// A key of few, so that they meet again.
fn some_key(alloc: Global, dice: &mut Dice) -> Result<Vec<u8>, Fail> {
    let id = dice.roll(90);
    let mut key = Vec::new(alloc);
    for at in 0..1 + id % 8 * 20 {
        key.push((id.wrapping_mul(7).wrapping_add(at) % 256) as u8)?;
    }
    Ok(key)
}

fn some_data(alloc: Global, dice: &mut Dice) -> Result<Vec<u8>, Fail> {
    let size = SIZES[dice.roll(8) % 8];
    let seed = dice.roll(256);
    let mut data = Vec::new(alloc);
    for at in 0..size {
        data.push(((at % 251).wrapping_add(seed) % 256) as u8)?;
    }
    Ok(data)
}

/// A write or a look at one key, by the store and the model. Answers whether they agree.
fn entry_step(
    alloc: Global,
    kv: &mut Kv<'_, MemDisk>,
    model: &mut Model,
    dice: &mut Dice,
) -> Result<bool, Fail> {
    let space = if dice.roll(3) == 0 {
        Space::Docs
    } else {
        Space::Keys
    };
    let key = some_key(alloc, dice)?;
    match dice.roll(5) {
        0 => {
            let data = some_data(alloc, dice)?;
            let answer = kv.store(alloc, space, &key, &data);
            if model.is_full(space, &key, data.len()) {
                return Ok(answer == Err(KvFault::Full));
            }
            model.put(space, key, data)?;
            Ok(answer == Ok(()))
        }
        1 | 2 => {
            let more = some_data(alloc, dice)?;
            let answer = kv.append(alloc, space, &key, &more);
            let mut data = Vec::new(alloc);
            if let Some(old) = data_of(&model.present, space, &key) {
                data.extend_from_slice(old)?;
            }
            data.extend_from_slice(&more)?;
            if model.is_full(space, &key, data.len()) {
                return Ok(answer == Err(KvFault::Full));
            }
            model.put(space, key, data)?;
            Ok(answer == Ok(()))
        }
        3 => {
            let answer = kv.delete(alloc, space, &key);
            if model.take(space, &key) {
                Ok(answer == Ok(()))
            } else {
                Ok(answer == Err(KvFault::NotFound))
            }
        }
        _ => {
            let answer = kv.fetch(alloc, space, &key);
            Ok(is_answer(
                &answer,
                data_of(&model.present, space, &key),
                KvFault::NotFound,
            ))
        }
    }
}

/// A move of the cursor.
fn move_step(
    alloc: Global,
    kv: &mut Kv<'_, MemDisk>,
    c: &mut Cursor,
    model: &mut Model,
    dice: &mut Dice,
) -> Result<bool, Fail> {
    match dice.roll(6) {
        0 => {
            let to = model.to(alloc, None, false)?;
            Ok(model.go(kv.cursor_first(alloc, c), to))
        }
        1 => {
            let to = model.to(alloc, None, true)?;
            Ok(model.go(kv.cursor_last(alloc, c), to))
        }
        2 => {
            let key = some_key(alloc, dice)?;
            let answer = kv.cursor_seek(alloc, c, &key);
            if find(&model.present, Space::Keys, &key).is_some() {
                model.cursor = Some(key);
                Ok(answer == Ok(()))
            } else {
                model.cursor = None;
                Ok(answer == Err(KvFault::NotFound))
            }
        }
        3 => {
            let to = model.step_to(alloc, true)?;
            Ok(model.go(kv.cursor_prev(alloc, c), to))
        }
        _ => {
            let to = model.step_to(alloc, false)?;
            Ok(model.go(kv.cursor_next(alloc, c), to))
        }
    }
}

/// What the cursor is at.
fn look_step(
    alloc: Global,
    kv: &mut Kv<'_, MemDisk>,
    c: &mut Cursor,
    model: &mut Model,
    dice: &mut Dice,
) -> Result<bool, Fail> {
    let at = match &model.cursor {
        Some(key) => Some(copy_of(alloc, key)?),
        None => None,
    };
    let data = match &at {
        Some(key) => data_of(&model.present, Space::Keys, key),
        None => None,
    };
    match dice.roll(5) {
        0 => Ok(kv.cursor_valid(alloc, c) == Ok(data.is_some())),
        1 => {
            let answer = kv.cursor_key(alloc, c);
            let want = if data.is_some() { at.as_deref() } else { None };
            Ok(is_answer(&answer, want, KvFault::NoEntry))
        }
        2 => Ok(is_answer(&kv.cursor_data(alloc, c), data, KvFault::NoEntry)),
        3 => {
            let answer = kv.cursor_delete(alloc, c);
            let is_gone = match &at {
                Some(key) => model.take(Space::Keys, key),
                None => false,
            };
            if is_gone {
                Ok(answer == Ok(()))
            } else {
                Ok(answer == Err(KvFault::NoEntry))
            }
        }
        _ => {
            if dice.roll(8) == 0 {
                kv.cursor_reset(c);
                model.cursor = None;
            }
            Ok(kv.entries() == model.present.len() as u64 && kv.bytes() == model.bytes() as u64)
        }
    }
}

/// Begin, commit or rollback.
fn turn_step(
    alloc: Global,
    kv: &mut Kv<'_, MemDisk>,
    model: &mut Model,
    dice: &mut Dice,
) -> Result<bool, Fail> {
    match dice.roll(3) {
        0 => {
            model.begun = true;
            Ok(kv.begin() == Ok(()))
        }
        1 => {
            let answer = kv.commit();
            let was = model.begun;
            model.saved = copies_of(alloc, &model.present)?;
            model.begun = false;
            Ok(answer == Ok(was))
        }
        _ => {
            model.present = copies_of(alloc, &model.saved)?;
            model.begun = false;
            Ok(kv.rollback() == Ok(()))
        }
    }
}

/// One call of the store and of the model. Answers whether they agree.
fn step(
    alloc: Global,
    kv: &mut Kv<'_, MemDisk>,
    c: &mut Cursor,
    model: &mut Model,
    dice: &mut Dice,
) -> Result<bool, Fail> {
    match dice.roll(20) {
        0 => turn_step(alloc, kv, model, dice),
        1..=8 => entry_step(alloc, kv, model, dice),
        9..=14 => move_step(alloc, kv, c, model, dice),
        _ => look_step(alloc, kv, c, model, dice),
    }
}

/// Makes so many calls, and answers how many were right before one that was not.
fn calls(
    alloc: Global,
    kv: &mut Kv<'_, MemDisk>,
    c: &mut Cursor,
    model: &mut Model,
    dice: &mut Dice,
    steps: usize,
) -> Result<usize, Fail> {
    let mut right = 0usize;
    for _step in 0..steps {
        if !step(alloc, kv, c, model, dice)? {
            return Ok(right);
        }
        right = right.saturating_add(1);
    }
    Ok(right)
}

/// So many calls of a store over the disk, which is then closed or left.
fn session(
    alloc: Global,
    disk: &mut MemDisk,
    c: &mut Cursor,
    model: &mut Model,
    dice: &mut Dice,
    steps: usize,
) -> Result<usize, Fail> {
    let mut kv = Kv::open(alloc, disk, FEW)?;
    let right = calls(alloc, &mut kv, c, model, dice, steps)?;
    if dice.roll(2) == 0 {
        let (answer, _disk) = kv.close();
        answer?;
        model.saved = copies_of(alloc, &model.present)?;
    } else {
        let _disk = kv.into_disk();
        model.present = copies_of(alloc, &model.saved)?;
    }
    model.begun = false;
    Ok(right)
}

/// So many sessions over one disk, with so many calls in each. Answers how many were right.
fn run(alloc: Global, seed: u64, sessions: usize, steps: usize) -> Result<usize, Fail> {
    let mut disk = MemDisk::new(alloc, b"", b"", &[])?;
    let mut dice = Dice { state: seed };
    let mut c = Cursor::new();
    let mut model = Model {
        saved: Vec::new(alloc),
        present: Vec::new(alloc),
        begun: false,
        cursor: None,
    };
    let mut right = 0usize;
    for _session in 0..sessions {
        right = right.saturating_add(session(
            alloc, &mut disk, &mut c, &mut model, &mut dice, steps,
        )?);
    }
    Ok(right)
}

#[test]
fn five_thousand_calls_are_those_of_maps(rt: HostRuntime) -> Result<(), Fail> {
    assert_eq!(rt; run(rt.alloc(), 42, 1, 5_000)?, 5_000);
    Ok(())
}

#[test]
fn five_thousand_others_are_those_of_maps(rt: HostRuntime) -> Result<(), Fail> {
    assert_eq!(rt; run(rt.alloc(), 7, 1, 5_000)?, 5_000);
    Ok(())
}

#[test]
fn a_store_that_is_opened_again_goes_on(rt: HostRuntime) -> Result<(), Fail> {
    assert_eq!(rt; run(rt.alloc(), 1, 100, 40)?, 4_000);
    Ok(())
}

#[test]
fn data_grow_to_their_limit_and_no_further(rt: HostRuntime) -> Result<(), Fail> {
    let alloc = rt.alloc();
    let mut disk = MemDisk::new(alloc, b"", b"", &[])?;
    let mut kv = Kv::open(alloc, &mut disk, LIMITS)?;
    let most = vec![in alloc; b'v'; MOST_VALUE]?;
    assert!(rt; kv.store(alloc, Space::Keys, b"a", &most[1..]) == Ok(()));
    assert!(rt; kv.append(alloc, Space::Keys, b"a", b"v") == Ok(()));
    assert!(rt; kv.append(alloc, Space::Keys, b"a", b"v") == Err(KvFault::ValueTooLong));
    assert!(rt; kv.append(alloc, Space::Keys, b"a", b"") == Ok(()));
    assert!(rt; kv.bytes() == 2 + MOST_VALUE as u64);
    assert!(rt; kv.fetch(alloc, Space::Keys, b"a")?.as_slice() == most.as_slice());
    Ok(())
}

//! The lines of the input. It is taken in pieces into one buffer, of which each line is a part.
//!
//! ```text
//!          from     to     next
//! | given |  line   | feed  | taken, not looked at or part of a line |
//! ```
ghost use Rattle.std.specs.Prelude.{◌≡◌, ◌≤◌, length};
ghost use Rattle.std.specs.List.{position_or_len};
ghost use Rattle.uq_words.specs.Lines.{is_feed as spec_is_feed, without_return as spec_without_return};

use crate::InputFault;
use std::alloc::Global;
use uq_outside::Source;

/// How many bytes a line has at most.
pub const LONGEST: usize = 1 << 26;

/// How many bytes are asked for at once.
const PIECE: u64 = 1 << 15;

/// The line or the block that was taken last, and what was taken behind it.
#[derive(Drop)]
pub struct Lines {
    pub(crate) bytes: Vec<u8>,
    /// Where the line stands, without a carriage return at its end; or the text of a block.
    from: usize,
    to: usize,
    /// Whether it was kept: it is no longer than it may be.
    pub(crate) kept: bool,
    /// Where the bytes behind it begin.
    pub(crate) next: usize,
    /// How many more bytes may be taken.
    pub(crate) room: u64,
    ghost order: { from ≤ to },
    ghost line: { to ≤ length bytes.items },
    ghost rest: { next ≤ length bytes.items },
}

/// What was taken.
#[derive(Clone, Copy, Debug, PartialEq, Eq)]
pub enum Step {
    /// A line behind which a line feed stands.
    Line,
    /// What stands behind the last line feed. It may be empty, and nothing is left behind it.
    Last,
    /// As many bytes as may be taken, and the line is not at its end.
    TooMuch,
}

impl Lines {
    ghost use Rattle.std.specs.Prelude.{◌≡◌, ◌≤◌, ◌<◌, ◌+◌, [], drop, length, take};
    ghost use Rattle.std.specs.List.{position_or_len};
    ghost use Rattle.std.specs.Option.{option_map};
    ghost use Rattle.uq_words.specs.Lines.{HasNoFeed, is_feed, longest};
    ghost use Rattle.uq_words.specs.Taking.{Cleared, Cuts, Fills, Finds, FindsWithin, Gives, Passes, Shortens, Takes, Trims, left_of, most_of, pending, room_of, text_of};

    /// The lines of an input of which at most so many bytes are taken. No line was taken yet.
    pub fn new(alloc: Global, most: u64) -> Lines
        ensures nothing { pending result ≡ [] }
        ensures room { room_of result ≡ most }
    {
        Lines {
            bytes: Vec::new(alloc),
            from: 0,
            to: 0,
            kept: false,
            next: 0,
            room: most,
        }
    }

    /// The line that was taken last, without the carriage return before its end, or the text of the block that was.
    /// None where it is longer than it may be.
    pub fn text(&self) -> Option<&[u8]>
        ensures { option_map (λ text. text.now) result ≡ text_of self.now }
    {
        if self.kept {
            Some(&self.bytes[self.from..self.to])
        } else {
            None
        }
    }

    /// Takes the next line. Of one that is longer than `LONGEST`, what lies behind that length is not kept.
    pub fn advance<I: Source>(&mut self, input: &mut I) -> Result<Step, InputFault>
        ensures finds { Finds I.Source result (left_of I.Source self.old input.old) (most_of self.old) self.new input.new }
        ensures takes { Takes I.Source result self.old input.old self.new input.new }
        ensures shorter { Shortens result self.old self.new }
    {
        self.take_line(input, LONGEST)
    }

    /// Takes the next line. Of one that is longer than this, what lies behind that length is not kept.
    pub(crate) fn take_line<I: Source>(
        &mut self,
        input: &mut I,
        limit: usize,
    ) -> Result<Step, InputFault>
        requires { limit ≤ longest }
        ensures finds { FindsWithin I.Source limit result (left_of I.Source self.old input.old) (most_of self.old)
            self.new input.new }
        ensures takes { Takes I.Source result self.old input.old self.new input.new }
        ensures shorter { Shortens result self.old self.new }
    {
        let mut searched = 0;
        'pieces: loop {
            let end = self.line_end(self.next, searched);
            if end < self.bytes.len() {
                self.cut(end, end + 1, limit);
                return Ok(Step::Line);
            }
            searched = self.bytes.len() - self.next;
            if searched > limit + 1 {
                return self.skip(input, limit);
            }
            if self.room == 0 {
                return Ok(Step::TooMuch);
            }
            if self.fill(input)? == 0 {
                let end = self.bytes.len();
                self.cut(end, end, limit);
                return Ok(Step::Last);
            }
        }
    }

    /// Passes the rest of a line that is longer than this, without keeping it.
    fn skip<I: Source>(&mut self, input: &mut I, limit: usize) -> Result<Step, InputFault>
        ensures passes { Passes I.Source limit result self.old input.old self.new input.new }
        ensures takes { Takes I.Source result self.old input.old self.new input.new }
        ensures shorter { Shortens result self.old self.new }
    {
        'pieces: loop {
            self.clear();
            if self.room == 0 {
                return Ok(Step::TooMuch);
            }
            if self.fill(input)? == 0 {
                return Ok(Step::Last);
            }
            let end = self.line_end(self.next, 0);
            if end < self.bytes.len() {
                self.next = end + 1;
                return Ok(Step::Line);
            }
        }
    }

    /// Where the line ends that begins there. So many of its bytes have no line feed.
    pub(crate) fn line_end(&self, begins: usize, searched: usize) -> usize
        requires inside { begins ≤ length self.now.bytes.items }
        requires within { searched ≤ length (drop begins self.now.bytes.items) }
        requires none { HasNoFeed (take searched (drop begins self.now.bytes.items)) }
        ensures place { result ≡ begins + position_or_len is_feed (drop begins self.now.bytes.items) }
        ensures within { result ≤ length self.now.bytes.items }
    {
        let from = begins + searched;
        from + line_len(&self.bytes[from..])
    }

    /// The line ends there, and what is behind it begins at `next`. It is kept where it is no longer than the limit.
    fn cut(&mut self, end: usize, next: usize, limit: usize)
        requires begins { self.old.next ≤ end }
        requires ends { end ≤ next }
        requires within { next ≤ length self.old.bytes.items }
        ensures { Cuts limit end next self.old self.new }
    {
        let count = without_return(&self.bytes[self.next..end]).len();
        self.give(count, limit, next);
    }

    /// The text is so many bytes behind what was given, where these are no more than the limit.
    pub(crate) fn give(&mut self, count: usize, limit: usize, next: usize)
        requires ends { self.old.next + count ≤ next }
        requires within { next ≤ length self.old.bytes.items }
        ensures { Gives count limit next self.old self.new }
    {
        self.from = self.next;
        self.to = self.from + count;
        self.kept = count <= limit;
        self.next = next;
    }

    /// Keeps nothing of what was taken.
    pub(crate) fn clear(&mut self)
        ensures { Cleared self.old self.new }
    {
        self.bytes.clear();
        self.from = 0;
        self.to = 0;
        self.kept = false;
        self.next = 0;
    }

    /// Drops the line and what is before it: the buffer begins with what is behind the line.
    fn drop_given(&mut self)
        ensures { Trims self.old self.new }
    {
        self.from = 0;
        self.to = 0;
        if self.next > 0 {
            self.bytes.rotate_left(self.next);
            self.bytes.truncate(self.bytes.len() - self.next);
            self.next = 0;
        }
    }

    /// Takes the next piece behind what there is, and answers its length. The buffer begins with what is behind the
    /// line, then.
    pub(crate) fn fill<I: Source>(&mut self, input: &mut I) -> Result<usize, InputFault>
        requires { 0 < self.old.room }
        ensures { Fills I.Source result self.old input.old self.new input.new }
    {
        self.drop_given();
        let held = self.bytes.len();
        let piece = self.room.min(PIECE) as usize;
        if self.bytes.resize(held + piece, 0).is_err() {
            return Err(InputFault::Memory);
        }
        match input.take(&mut self.bytes[held..]) {
            Ok(count) => {
                self.bytes.truncate(held + count);
                self.room -= count as u64;
                Ok(count)
            }
            Err(_) => {
                self.bytes.truncate(held);
                Err(InputFault::Source)
            }
        }
    }
}

/// How long the line at the front of these bytes is: up to its line feed, or all where there is none.
fn line_len(bytes: &[u8]) -> usize
    ensures place { result ≡ position_or_len spec_is_feed bytes.now }
    ensures within { result ≤ length bytes.now }
{
    for (at, byte) in bytes.iter().enumerate() {
        if is_feed(*byte) {
            return at;
        }
    }
    bytes.len()
}

fn is_feed(byte: u8) -> bool
    ensures { result ≡ spec_is_feed byte }
{
    byte == b'\n'
}

/// The line without one carriage return at its end.
pub(crate) fn without_return(line: &[u8]) -> &[u8]
    ensures line { result.now ≡ spec_without_return line.now }
    ensures within { length result.now ≤ length line.now }
{
    let Some((last, front)) = line.split_last() else {
        return line;
    };
    if *last == b'\r' { front } else { line }
}

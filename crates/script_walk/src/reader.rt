//! What is kept of a script's line while it isn't whole.
ghost use Rattle.std.specs.Prelude.{◌≡◌, ◌≢◌, ◌<◌, ◌≤◌, ◌+◌, ◌∷◌, ◌++◌, [], true, false, length, take, MatchOption, MatchResult, IsTrue, IsFalse};
ghost use Rattle.script_lines.specs.declared.order.Order.TheVariants.{Nothing};
ghost use Rattle.script_lines.specs.Lines.{asks};
ghost use Rattle.script_walk.specs.Framing.{Wants, IsLine, BeginsOff, has_feed};
ghost use Rattle.script_walk.specs.Reading.{IsReader, IsFresh, FirstFeed, Keeps, kept};

use crate::raw_bytes::RawBytes;
use arrayvec::ArrayVec;
use memchr::memchr;
use outside_io::NoMemory;
use script_lines::laws::comments_ask_for_nothing;
use std::alloc::Global;

/// The bytes that a line has at most, without its line feed.
pub const LINE_LIMIT: usize = 520;

/// What is kept of a script between two bytes: the bytes of the line that is not yet whole, or of one that is and waits
/// for raw bytes, for how many, 0 where it is no such line, and those that have come; and how many lines were read.
pub struct Reader {
    pub line: ArrayVec<u8, LINE_LIMIT>,
    pub wants: usize,
    pub payload: RawBytes,
    pub lines: u64,
}

impl Drop for Reader {
    fn drop(self) {
        let Reader {
            line: _,
            wants: _,
            payload: _,
            lines: _,
        } = self;
    }
}

/// The index, from 0, of the first line feed among the bytes. None: they have none.
pub fn feed_in(bytes: &[u8]) -> Option<usize>
    ensures { MatchOption result (has_feed bytes.now ≡ false) (FirstFeed bytes.now) }
{
    memchr(b'\n', bytes)
}

/// Whether the line is empty or a comment, so that it asks for nothing and need not be read.
pub fn is_silent(line: &[u8]) -> bool
    ensures { result ≡ true → asks line.now Nothing }
{
    comments_ask_for_nothing();
    match line {
        [first, ..] => *first == b'#',
        [] => true,
    }
}

impl Reader {
    /// A reader at the beginning of a script. `NoMemory` comes only for want of memory.
    pub fn new(alloc: Global) -> Result<Reader, NoMemory> {
        match RawBytes::new(alloc) {
            Ok(payload) => Ok(Reader {
                line: ArrayVec::new(),
                wants: 0,
                payload,
                lines: 0,
            }),
            Err(NoMemory) => Err(NoMemory),
        }
    }

    /// Begins a script anew: nothing is kept, and no line was read.
    pub fn restart(&mut self)
        ensures fresh { IsFresh self.new }
        ensures reader { IsReader self.new }
    {
        self.line.clear();
        self.wants = 0;
        self.payload.clear();
        self.lines = 0;
    }

    /// Whether nothing is kept of an item that is not yet whole.
    pub fn is_between(&self) -> bool
        ensures nothing { IsTrue result → kept self.now ≡ [] }
        ensures some { IsFalse result → kept self.now ≢ [] }
    {
        if self.wants > 0 {
            return false;
        }
        self.line.is_empty()
    }

    /// Keeps a whole line, which waits for so many raw bytes.
    pub fn keep_line(&mut self, line: &[u8], wants: usize)
        requires reader { IsReader self.old }
        requires no_line { self.old.line.items ≡ [] }
        requires no_wants { self.old.wants ≡ 0 }
        requires is_line { IsLine line.now }
        requires wanted { Wants line.now wants }
        requires some { 0 < wants }
        ensures { Keeps self.old (line.now ++ 10 ∷ []) self.new }
    {
        match self.line.try_extend_from_slice(line) {
            Ok(()) => self.wants = wants,
            Err(_) => {}
        }
    }

    /// Puts bytes that have no line feed behind those that are kept of a line. False: the line would pass its limit.
    pub fn stretch(&mut self, bytes: &[u8]) -> bool
        requires reader { IsReader self.old }
        requires no_wants { self.old.wants ≡ 0 }
        requires no_feed { has_feed bytes.now ≡ false }
        ensures kept { IsTrue result → Keeps self.old bytes.now self.new }
        ensures off { IsFalse result → BeginsOff (kept self.old ++ bytes.now) }
        ensures still_no_wants { self.new.wants ≡ 0 }
        ensures lines { self.new.lines ≡ self.old.lines }
    {
        match self.line.try_extend_from_slice(bytes) {
            Ok(()) => true,
            Err(_) => false,
        }
    }
}

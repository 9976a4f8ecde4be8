//! The raw bytes behind a line.
ghost use Rattle.std.specs.Prelude.{◌≡◌, ◌+◌, ◌≤◌, [], ◌++◌, length, IfOk};
ghost use Rattle.script_walk.specs.declared.raw_bytes.TheConstants.{FRAME_LIMIT};

use outside_io::NoMemory;
use std::alloc::Global;
use std::marker::Model;

/// The bytes that come with a command at most.
pub const FRAME_LIMIT: usize = 65536;

/// The raw bytes behind a line, gathered as they come. There is room for 65,536 of them, which is taken when this is
/// made; no more memory is taken later.
///
/// Contracts see the bytes, in order. docs/GUIDE.md, "The script", says which lines have raw bytes behind them.
#[derive(Debug)]
pub struct RawBytes {
    bytes: Vec<u8>,
}

impl Model for RawBytes {
    ghost use Rattle.std.specs.Prelude.{ℕ, ◌≤◌, List, length, vec_capacity};
    ghost use Rattle.script_walk.specs.declared.raw_bytes.TheConstants.{FRAME_LIMIT};

    ghost Value = { List ℕ };

    ghost view = { λ s. s.bytes.items };

    ghost invariant = { λ s. record { fits : length s.bytes.items ≤ FRAME_LIMIT; reserved : FRAME_LIMIT ≤ vec_capacity s.bytes } };
}

impl Drop for RawBytes {
    fn drop(self) {
        let RawBytes { bytes: _ } = self;
    }
}

impl RawBytes {
    /// No bytes yet. `NoMemory` comes only for want of memory.
    pub fn new(alloc: Global) -> Result<RawBytes, NoMemory>
        ensures empty { IfOk result (λ s. s ≡ []) }
    {
        match Vec::with_capacity(alloc, FRAME_LIMIT) {
            Ok(bytes) => Ok(RawBytes { bytes }),
            Err(_) => Err(NoMemory),
        }
    }

    /// How many bytes there are, at most 65,536.
    pub fn len(&self) -> usize
        ensures count { result ≡ length self.now }
        ensures fits { length self.now ≤ FRAME_LIMIT }
    {
        self.bytes.len()
    }

    /// The bytes.
    pub fn as_slice(&self) -> &[u8]
        ensures { result.now ≡ self.now }
    {
        self.bytes.as_slice()
    }

    /// Puts more bytes behind them.
    pub fn push(&mut self, more: &[u8])
        requires room { length self.old + length more.now ≤ FRAME_LIMIT }
        ensures { self.new ≡ self.old ++ more.now }
    {
        let _kept = self.bytes.extend_from_slice(more);
    }

    /// Takes all of them out.
    pub fn clear(&mut self)
        ensures { self.new ≡ [] }
    {
        self.bytes.clear();
    }
}

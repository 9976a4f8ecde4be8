//! Bytes that are gathered as they come.
ghost use Rattle.std.specs.Prelude.{◌≡◌, ◌+◌, ◌≤◌, [], ◌++◌, length, IfOk};

use crate::no_memory::NoMemory;
use std::alloc::Global;
use std::marker::Model;

/// Bytes that are gathered as they come, at most `ROOM` of them. Their room is taken when this is made; no more memory
/// is taken later. Contracts see the bytes, in order.
#[derive(Debug)]
pub struct Gathered<const ROOM: usize> {
    bytes: Vec<u8>,
}

impl<const ROOM: usize> Model for Gathered<ROOM> {
    ghost use Rattle.std.specs.Prelude.{ℕ, ◌≤◌, List, length, vec_capacity};

    ghost Value = { List ℕ };

    ghost view = { λ s. s.bytes.items };

    ghost invariant = { λ s. record { fits : length s.bytes.items ≤ ROOM; reserved : ROOM ≤ vec_capacity s.bytes } };
}

impl<const ROOM: usize> Drop for Gathered<ROOM> {
    fn drop(self) {
        let Gathered { bytes: _ } = self;
    }
}

impl<const ROOM: usize> Gathered<ROOM> {
    /// No bytes yet. `NoMemory` comes only for want of memory.
    pub fn new(alloc: Global) -> Result<Gathered<ROOM>, NoMemory>
        ensures empty { IfOk result (λ s. s ≡ []) }
    {
        match Vec::with_capacity(alloc, ROOM) {
            Ok(bytes) => Ok(Gathered { bytes }),
            Err(_) => Err(NoMemory),
        }
    }

    /// How many bytes there are.
    pub fn len(&self) -> usize
        ensures count { result ≡ length self.now }
        ensures fits { length self.now ≤ ROOM }
    {
        self.bytes.len()
    }

    /// The bytes.
    pub fn as_slice(&self) -> &[u8]
        ensures { result.now ≡ self.now }
    {
        self.bytes.as_slice()
    }

    /// Puts more bytes behind them.
    pub fn push(&mut self, more: &[u8])
        requires room { length self.old + length more.now ≤ ROOM }
        ensures { self.new ≡ self.old ++ more.now }
    {
        let _kept = self.bytes.extend_from_slice(more);
    }

    /// Takes all of them out.
    pub fn clear(&mut self)
        ensures { self.new ≡ [] }
    {
        self.bytes.clear();
    }
}

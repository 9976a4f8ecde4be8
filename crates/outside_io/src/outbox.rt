ghost use Rattle.std.specs.Prelude.{◌≡◌, ℕ, ◌+◌, ◌≤◌, [], ◌++◌, length, IsOk, OnOk, OnErr, IfOk};
ghost use Rattle.std.specs.Io.KnownBytes.{Appends};
ghost use Rattle.outside_io.specs.Count.{Rose};
ghost use Rattle.outside_io.specs.Telling.{TellsAsBefore};
ghost use Rattle.outside_io.specs.Sink.{AppendsFront};
ghost use Rattle.outside_io.specs.declared.outbox.TheConstants.{ROOM};
ghost use Rattle.outside_io.specs.Outbox.{Puts, PutsFront, output};

use crate::failed::Failed;
use crate::no_memory::NoMemory;
use crate::sink::{Sink, write_all};
use std::alloc::Global;
use std::marker::Model;

/// The bytes that an outbox has room for.
pub const ROOM: usize = 4096;

/// Output that waits in memory, so that many short texts go to a sink in one write: `put` gathers bytes, and
/// `flush` writes what waits. Both are given the sink. An outbox has room for 4,096 bytes, which it takes when
/// it is made; it takes no more memory later, however much is put.
///
/// Contracts see the bytes that wait, in order. `docs/DECISIONS.md`, "The run", says when a run writes them.
#[derive(Debug)]
pub struct Outbox {
    waiting: Vec<u8>,
}

impl Model for Outbox {
    ghost use Rattle.std.specs.Prelude.{ℕ, ◌≤◌, List, length, vec_capacity};
    ghost use Rattle.outside_io.specs.declared.outbox.TheConstants.{ROOM};

    ghost Value = { List ℕ };

    ghost view = { λ s. s.waiting.items };

    ghost invariant = { λ s. record { fits : length s.waiting.items ≤ ROOM; reserved : ROOM ≤ vec_capacity s.waiting } };
}

impl Drop for Outbox {
    fn drop(self) {
        let Outbox { waiting: _ } = self;
    }
}

impl Outbox {
    /// An outbox in which nothing waits. `NoMemory` comes only for want of memory.
    pub fn new(alloc: Global) -> Result<Outbox, NoMemory>
        ensures empty { IfOk result (λ s. s ≡ []) }
    {
        match Vec::with_capacity(alloc, ROOM) {
            Ok(waiting) => Ok(Outbox { waiting }),
            Err(_) => Err(NoMemory),
        }
    }

    /// Puts `bytes` behind what waits, and writes some of it where there is no room for all; where there is,
    /// it doesn't ask the sink. `Failed` comes only where the sink's count of faults rose in this call; then a
    /// front of what waited and of `bytes` was written, and the rest of it is dropped.
    pub fn put<K: Sink>(&mut self, bytes: &[u8], sink: &mut K) -> Result<(), Failed>
        ensures ok { OnOk result (Puts (output (K.held sink.old) self.old) (output (K.held sink.new) self.new) bytes.now) }
        ensures err { OnErr result (PutsFront (output (K.held sink.old) self.old) (output (K.held sink.new) self.new) bytes.now) }
        ensures dropped { OnErr result (self.new ≡ []) }
        ensures gathered { length self.old + length bytes.now ≤ ROOM → IsOk result × (self.new ≡ self.old ++ bytes.now) × (sink.new ≡ sink.old) }
        ensures tells { TellsAsBefore (K.held sink.old) (K.held sink.new) }
        ensures later { K.faults sink.old ≤ K.faults sink.new }
        ensures cause { OnErr result (Rose (K.faults sink.old) (K.faults sink.new)) }
        ensures steady { OnOk result (K.faults sink.new ≡ K.faults sink.old) }
    {
        if bytes.len() <= ROOM - self.waiting.len() {
            let _kept = self.waiting.extend_from_slice(bytes);
            return Ok(());
        }
        match self.flush(sink) {
            Ok(()) => {}
            Err(failed) => return Err(failed),
        }
        if bytes.len() <= ROOM {
            let _kept = self.waiting.extend_from_slice(bytes);
            return Ok(());
        }
        write_all(sink, bytes)
    }

    /// Writes all that waits; where nothing waits, it doesn't ask the sink. `Failed` comes only where the
    /// sink's count of faults rose in this call; then a front of what waited was written, and the rest of it
    /// is dropped.
    pub fn flush<K: Sink>(&mut self, sink: &mut K) -> Result<(), Failed>
        ensures ok { OnOk result (Appends (K.held sink.old) (K.held sink.new) self.old) }
        ensures err { OnErr result (AppendsFront (K.held sink.old) (K.held sink.new) self.old) }
        ensures empty { self.new ≡ [] }
        ensures unasked { self.old ≡ [] → sink.new ≡ sink.old }
        ensures tells { TellsAsBefore (K.held sink.old) (K.held sink.new) }
        ensures later { K.faults sink.old ≤ K.faults sink.new }
        ensures cause { OnErr result (Rose (K.faults sink.old) (K.faults sink.new)) }
        ensures steady { OnOk result (K.faults sink.new ≡ K.faults sink.old) }
    {
        let written = write_all(sink, self.waiting.as_slice());
        self.waiting.clear();
        written
    }
}

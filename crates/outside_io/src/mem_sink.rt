ghost use Rattle.std.specs.Prelude.{◌≡◌, ℕ, ◌+◌, ◌-◌, ◌^◌, ◌<◌, ◌≤◌, ◌↔◌, [], ◌++◌, length, min, vec_capacity, Some, is_ok, IsErr, IfOk, OnOk, OnErr, if◌then◌else◌};
ghost use Rattle.std.specs.Io.{WritesAtMost};
ghost use Rattle.std.specs.Io.KnownBytes.{WriteAppends};
ghost use Rattle.outside_io.specs.Telling.{TellsAsBefore};
ghost use Rattle.outside_io.specs.Count.{Rose, one_more};
ghost use Rattle.outside_io.specs.Sink.{WriteFails};

use crate::failed::Failed;
use crate::no_memory::NoMemory;
use crate::sink::Sink;
use std::alloc::Global;
use std::marker::Model;

/// A sink in memory, for tests: it holds what is written, up to its capacity, and fails at the calls
/// whose numbers, from 1 on, were listed, and where the bytes of a write don't all fit.
/// A call that fails keeps nothing.
///
/// Contracts see the record `SinkInMemory`: the bytes held, the capacity, the list, and how many
/// calls and faults there were. The rules are in `docs/MACHINE.md`.
#[derive(Debug)]
pub struct MemSink {
    bytes: Vec<u8>,
    capacity: usize,
    fail_at: Vec<u64>,
    calls: u64,
    faults: u64,
}

impl Model for MemSink {
    ghost use Rattle.std.specs.Prelude.{◌≤◌, length, vec_capacity};
    ghost use Rattle.outside_io.specs.Sink.{SinkInMemory};

    ghost Value = { SinkInMemory };

    ghost view = { λ s. record {
      held = s.bytes.items;
      capacity = s.capacity;
      fail_at = s.fail_at.items;
      calls = s.calls;
      faults = s.faults;
    } };

    ghost invariant = { λ s. record { held : length s.bytes.items ≤ s.capacity; reserved : s.capacity ≤ vec_capacity s.bytes } };
}

impl Drop for MemSink {
    fn drop(self) {
        let MemSink {
            bytes: _,
            capacity: _,
            fail_at: _,
            calls: _,
            faults: _,
        } = self;
    }
}

impl MemSink {
    /// An empty sink with room for `capacity` bytes, which it reserves now. It fails at the calls
    /// whose numbers, from 1 on, are in `fail_at`. `NoMemory` comes only for want of memory.
    pub fn new(alloc: Global, capacity: usize, fail_at: Vec<u64>) -> Result<MemSink, NoMemory>
        ensures held { IfOk result (λ s. s.held ≡ []) }
        ensures capacity { IfOk result (λ s. s.capacity ≡ capacity) }
        ensures fail_at { IfOk result (λ s. s.fail_at ≡ fail_at.items) }
        ensures calls { IfOk result (λ s. s.calls ≡ 0) }
        ensures faults { IfOk result (λ s. s.faults ≡ 0) }
    {
        match Vec::with_capacity(alloc, capacity) {
            Ok(bytes) => Ok(MemSink {
                bytes,
                capacity,
                fail_at,
                calls: 0,
                faults: 0,
            }),
            Err(_) => Err(NoMemory),
        }
    }

    /// The bytes that the sink holds, in the order in which they were written.
    pub fn held(&self) -> &[u8]
        ensures { result.now ≡ self.now.held }
    {
        &self.bytes
    }
}

impl Sink for MemSink {
    ghost held = { λ s. Some s.held };

    ghost faults = { λ s. s.faults };

    /// Fails exactly where the number of this call was listed or `bytes` don't all fit, and keeps
    /// nothing then; else keeps them all.
    fn write(&mut self, bytes: &[u8]) -> Result<usize, Failed>
        ensures bound { WritesAtMost result bytes.now }
        ensures takes { IfOk result (λ n. 0 < length bytes.now → 0 < n) }
        ensures bytes { WriteAppends (Some self.old.held) (Some self.new.held) result bytes.now }
        ensures tells { TellsAsBefore (Some self.old.held) (Some self.new.held) }
        ensures later { self.old.faults ≤ self.new.faults }
        ensures cause { OnErr result (Rose self.old.faults self.new.faults) }
        ensures steady { OnOk result (self.new.faults ≡ self.old.faults) }

        ensures fails { IsErr result ↔ WriteFails self.old (length bytes.now) }
        ensures count { IfOk result (λ n. n ≡ length bytes.now) }
        ensures held { self.new.held ≡ (if is_ok result then self.old.held ++ bytes.now else self.old.held) }

        ensures capacity { self.new.capacity ≡ self.old.capacity }
        ensures fail_at { self.new.fail_at ≡ self.old.fail_at }
        ensures calls { self.new.calls ≡ one_more self.old.calls }
        ensures faults { self.new.faults ≡ (if is_ok result then self.old.faults else one_more self.old.faults) }
    {
        self.calls = self.calls.saturating_add(1);
        if self.fail_at.contains(&self.calls) || bytes.len() > self.capacity - self.bytes.len() {
            self.faults = self.faults.saturating_add(1);
            return Err(Failed);
        }
        let _kept = self.bytes.extend_from_slice(bytes);
        Ok(bytes.len())
    }
}

ghost use Rattle.std.specs.Prelude.{◌≡◌, ℕ, ◌+◌, ◌-◌, ◌^◌, ◌<◌, ◌≤◌, ◌↔◌, [], ◌++◌, length, take, drop, min, Some, is_ok, IsErr, IfOk, OnOk, OnErr, if◌then◌else◌};
ghost use Rattle.std.specs.Io.{ReadsAtMost};
ghost use Rattle.std.specs.Io.KnownBytes.{ReadConsumes};
ghost use Rattle.outside_io.specs.Telling.{TellsAsBefore};
ghost use Rattle.outside_io.specs.Count.{Rose, one_more};
ghost use Rattle.outside_io.specs.Source.{ReadFails, given};

use crate::failed::Failed;
use crate::source::Source;
use std::marker::Model;

/// A source in memory, for tests: it gives its bytes in order, at most `step` of them a call, and
/// fails at the calls whose numbers, from 1 on, were listed. A call that fails takes nothing.
///
/// Contracts see the record `SourceInMemory`: the bytes left, the step, the list, and how many
/// calls and faults there were. The rules are in `docs/MACHINE.md`.
#[derive(Debug)]
pub struct MemSource {
    bytes: Vec<u8>,
    taken: usize,
    step: usize,
    fail_at: Vec<u64>,
    calls: u64,
    faults: u64,
}

impl Model for MemSource {
    ghost use Rattle.std.specs.Prelude.{◌≤◌, drop, length};
    ghost use Rattle.outside_io.specs.Source.{SourceInMemory};

    ghost Value = { SourceInMemory };

    ghost view = { λ s. record {
      left = drop s.taken s.bytes.items;
      step = s.step;
      fail_at = s.fail_at.items;
      calls = s.calls;
      faults = s.faults;
    } };

    ghost invariant = { λ s. record { step : 1 ≤ s.step; taken : s.taken ≤ length s.bytes.items } };
}

impl Drop for MemSource {
    fn drop(self) {
        let MemSource {
            bytes: _,
            taken: _,
            step: _,
            fail_at: _,
            calls: _,
            faults: _,
        } = self;
    }
}

impl MemSource {
    /// A source with `bytes` left, which gives at most `step` of them a call (at least 1) and fails
    /// at the calls whose numbers, from 1 on, are in `fail_at`.
    pub fn new(bytes: Vec<u8>, step: usize, fail_at: Vec<u64>) -> MemSource
        requires { 1 ≤ step }
        ensures left { result.left ≡ bytes.items }
        ensures step { result.step ≡ step }
        ensures fail_at { result.fail_at ≡ fail_at.items }
        ensures calls { result.calls ≡ 0 }
        ensures faults { result.faults ≡ 0 }
    {
        MemSource {
            bytes,
            taken: 0,
            step,
            fail_at,
            calls: 0,
            faults: 0,
        }
    }

    /// The bytes that are left to read.
    pub fn left(&self) -> &[u8]
        ensures { result.now ≡ self.now.left }
    {
        &self.bytes[self.taken..]
    }
}

impl Source for MemSource {
    ghost left = { λ s. Some s.left };

    ghost faults = { λ s. s.faults };

    /// Fails exactly where the number of this call was listed, and else gives as many bytes as are
    /// left, as `step` allows and as the buffer has room for. Past them the buffer keeps its bytes.
    fn read(&mut self, buf: &mut [u8]) -> Result<usize, Failed>
        ensures bound { ReadsAtMost result buf.new }
        ensures bytes { ReadConsumes (Some self.old.left) (Some self.new.left) result buf.new }
        ensures tells { TellsAsBefore (Some self.old.left) (Some self.new.left) }
        ensures later { self.old.faults ≤ self.new.faults }
        ensures cause { OnErr result (Rose self.old.faults self.new.faults) }
        ensures steady { OnOk result (self.new.faults ≡ self.old.faults) }

        ensures fails { IsErr result ↔ ReadFails self.old }
        ensures count { IfOk result (λ n. n ≡ given self.old (length buf.old)) }
        ensures copied { IfOk result (λ n. buf.new ≡ take n self.old.left ++ drop n buf.old) }
        ensures rest { IfOk result (λ n. self.new.left ≡ drop n self.old.left) }
        ensures unread { OnErr result (buf.new ≡ buf.old) }

        ensures step { self.new.step ≡ self.old.step }
        ensures fail_at { self.new.fail_at ≡ self.old.fail_at }
        ensures calls { self.new.calls ≡ one_more self.old.calls }
        ensures faults { self.new.faults ≡ (if is_ok result then self.old.faults else one_more self.old.faults) }
    {
        self.calls = self.calls.saturating_add(1);
        if self.fail_at.contains(&self.calls) {
            self.faults = self.faults.saturating_add(1);
            return Err(Failed);
        }
        let count = copy_rest(&self.bytes, self.taken, self.step, buf);
        self.taken += count;
        Ok(count)
    }
}

// Copies bytes from the place `taken` on, at most `most` of them, to the front of `buf`, and answers
// their number.
fn copy_rest(bytes: &[u8], taken: usize, most: usize, buf: &mut [u8]) -> usize
    requires taken { taken ≤ length bytes.now }
    requires most { 1 ≤ most }
    ensures count { result ≡ min (length buf.old) (min most (length (drop taken bytes.now))) }
    ensures copied { buf.new ≡ take result (drop taken bytes.now) ++ drop result buf.old }
    ensures front { drop taken bytes.now ≡ take result buf.new ++ drop (taken + result) bytes.now }
    ensures end { result ≡ 0 → 0 < length buf.new → drop (taken + result) bytes.now ≡ [] }
{
    copy_front(&bytes[taken..], most, buf)
}

// Copies the first of `from`, at most `most` of them, to the front of `to`, and answers their number.
fn copy_front(from: &[u8], most: usize, to: &mut [u8]) -> usize
    ensures count { result ≡ min (length to.old) (min most (length from.now)) }
    ensures copied { to.new ≡ take result from.now ++ drop result to.old }
{
    let count = to.len().min(most.min(from.len()));
    to[..count].copy_from_slice(&from[..count]);
    count
}

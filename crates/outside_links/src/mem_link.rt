ghost use Rattle.std.specs.Prelude.{◌≡◌, ℕ, ◌+◌, ◌<◌, ◌≤◌, ◌↔◌, List, Some, ◌++◌, length, take, drop, is_ok, IsErr, IfOk, OnOk, OnErr, if◌then◌else◌};
ghost use Rattle.std.specs.Io.{ReadsAtMost, WritesAtMost};
ghost use Rattle.std.specs.Io.KnownBytes.{ReadConsumes, WriteAppends};
ghost use Rattle.outside_io.specs.Count.{Rose, one_more};
ghost use Rattle.outside_io.specs.Telling.{TellsAsBefore};
ghost use Rattle.outside_io.specs.Source.{ReadFails, given};
ghost use Rattle.outside_io.specs.Sink.{WriteFails};
ghost use Rattle.outside_links.specs.Link.{faults_of_both};

use crate::link::Link;
use outside_io::{Failed, MemSink, MemSource, Sink, Source};
use std::marker::Model;

/// A link in memory, for tests: it is read from a source and written to a sink, each in memory.
///
/// Contracts see the record `LinkInMemory`: what is seen of the source and of the sink. The rules are in
/// `docs/MACHINE.md`, "Connections and jobs".
#[derive(Debug)]
pub struct MemLink {
    source: MemSource,
    sink: MemSink,
}

impl Model for MemLink {
    ghost use Rattle.outside_links.specs.Link.{LinkInMemory};

    ghost Value = { LinkInMemory };

    ghost view = { λ s. record { source = s.source; sink = s.sink } };
}

impl Drop for MemLink {
    fn drop(self) {
        let MemLink { source: _, sink: _ } = self;
    }
}

impl MemLink {
    /// A link that is read from `source` and written to `sink`.
    pub fn new(source: MemSource, sink: MemSink) -> MemLink
        ensures source { result.source ≡ source }
        ensures sink { result.sink ≡ sink }
    {
        MemLink { source, sink }
    }

    /// The sink that the link is written to.
    pub fn sink(&self) -> &MemSink
        ensures { result.now ≡ self.now.sink }
    {
        &self.sink
    }
}

impl Link for MemLink {
    ghost left = { λ s. Some s.source.left };

    ghost held = { λ s. Some s.sink.held };

    ghost faults = { faults_of_both };

    /// Reads from the source, and fails exactly where it fails.
    fn read(&mut self, buf: &mut [u8]) -> Result<usize, Failed>
        ensures bound { ReadsAtMost result buf.new }
        ensures bytes { ReadConsumes (Some self.old.source.left) (Some self.new.source.left) result buf.new }
        ensures tells { TellsAsBefore (Some self.old.source.left) (Some self.new.source.left) }
        ensures still { Some self.new.sink.held ≡ Some self.old.sink.held }
        ensures later { faults_of_both self.old ≤ faults_of_both self.new }
        ensures cause { OnErr result (Rose (faults_of_both self.old) (faults_of_both self.new)) }
        ensures steady { OnOk result (faults_of_both self.new ≡ faults_of_both self.old) }

        ensures fails { IsErr result ↔ ReadFails self.old.source }
        ensures count { IfOk result (λ n. n ≡ given self.old.source (length buf.old)) }
        ensures copied { IfOk result (λ n. buf.new ≡ take n self.old.source.left ++ drop n buf.old) }
        ensures rest { IfOk result (λ n. self.new.source.left ≡ drop n self.old.source.left) }
        ensures unread { OnErr result (buf.new ≡ buf.old) }

        ensures sink { self.new.sink ≡ self.old.sink }
        ensures step { self.new.source.step ≡ self.old.source.step }
        ensures fail_at { self.new.source.fail_at ≡ self.old.source.fail_at }
        ensures calls { self.new.source.calls ≡ one_more self.old.source.calls }
        ensures faults { self.new.source.faults ≡ (if is_ok result then self.old.source.faults else one_more self.old.source.faults) }
    {
        self.source.read(buf)
    }

    /// Writes to the sink, and fails exactly where it fails.
    fn write(&mut self, bytes: &[u8]) -> Result<usize, Failed>
        ensures bound { WritesAtMost result bytes.now }
        ensures takes { IfOk result (λ n. 0 < length bytes.now → 0 < n) }
        ensures bytes { WriteAppends (Some self.old.sink.held) (Some self.new.sink.held) result bytes.now }
        ensures tells { TellsAsBefore (Some self.old.sink.held) (Some self.new.sink.held) }
        ensures still { Some self.new.source.left ≡ Some self.old.source.left }
        ensures later { faults_of_both self.old ≤ faults_of_both self.new }
        ensures cause { OnErr result (Rose (faults_of_both self.old) (faults_of_both self.new)) }
        ensures steady { OnOk result (faults_of_both self.new ≡ faults_of_both self.old) }

        ensures fails { IsErr result ↔ WriteFails self.old.sink (length bytes.now) }
        ensures count { IfOk result (λ n. n ≡ length bytes.now) }
        ensures held { self.new.sink.held ≡ (if is_ok result then self.old.sink.held ++ bytes.now else self.old.sink.held) }

        ensures source { self.new.source ≡ self.old.source }
        ensures capacity { self.new.sink.capacity ≡ self.old.sink.capacity }
        ensures fail_at { self.new.sink.fail_at ≡ self.old.sink.fail_at }
        ensures calls { self.new.sink.calls ≡ one_more self.old.sink.calls }
        ensures faults { self.new.sink.faults ≡ (if is_ok result then self.old.sink.faults else one_more self.old.sink.faults) }
    {
        self.sink.write(bytes)
    }
}

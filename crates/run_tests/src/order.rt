//! The order of reads and writes, and how either is cut.
ghost use Rattle.std.specs.Prelude.{Some};

use crate::played::{SCRIPT, TRANSCRIPT, WORDS, is_status, play_with, run_over, words_of};
use outside_io::{Failed, MemSink, MemSource, Sink, Source};
use std::alloc::Global;
use std::cell::Cell;
use std::process::Abort;
use std::test::Fail;

/// A source in memory that looks, as each read begins, at how many bytes were written until then.
#[derive(Drop)]
struct Watching<'a> {
    inner: MemSource,
    written: &'a Cell<usize>,
    wanted: &'a [usize],
    reads: usize,
    is_so: bool,
}

impl Source for Watching<'_> {
    ghost left = { λ s. Some s.inner.left };

    ghost faults = { λ s. s.inner.faults };

    fn read(&mut self, buf: &mut [u8]) -> Result<usize, Failed> {
        let written = self.written.get();
        self.is_so = self.is_so && self.wanted.get(self.reads).copied() == Some(written);
        self.reads = self.reads.saturating_add(1);
        self.inner.read(buf)
    }
}

/// A sink in memory that counts the bytes written.
#[derive(Drop)]
struct Counting<'a> {
    inner: MemSink,
    written: &'a Cell<usize>,
}

impl Sink for Counting<'_> {
    ghost held = { λ s. Some s.inner.held };

    ghost faults = { λ s. s.inner.faults };

    fn write(&mut self, bytes: &[u8]) -> Result<usize, Failed> {
        self.written
            .set(self.written.get().saturating_add(bytes.len()));
        self.inner.write(bytes)
    }
}

/// Plays the first script by reads of 16 bytes; as each begins, so many bytes are written.
fn reads_when_written(rt: &impl Abort, alloc: Global, wanted: &[usize]) -> Result<(), Fail> {
    let written = Cell::new(0);
    let bytes = SCRIPT.as_bytes().to_vec(alloc)?;
    let mut source = Watching {
        inner: MemSource::new(bytes, 16, [].to_vec(alloc)?),
        written: &written,
        wanted,
        reads: 0,
        is_so: true,
    };
    let mut sink = Counting {
        inner: MemSink::new(alloc, 4096, [].to_vec(alloc)?)?,
        written: &written,
    };
    let words = words_of(alloc, WORDS)?;
    let (status, _) = run_over(alloc, words.as_slice(), &mut source, &mut sink);
    assert!(rt; is_status(&status, "done") && source.reads == wanted.len());
    assert!(rt; source.is_so);
    Ok(())
}

#[test]
fn a_read_begins_when_all_output_so_far_is_written(rt: HostRuntime) -> Result<(), Fail> {
    reads_when_written(&rt, rt.alloc(), &[0, 5, 10, 10, 20, 108, 124, 132, 140])
}

/// A sink in memory that takes one byte a write.
#[derive(Drop)]
struct Drip {
    inner: MemSink,
}

impl Sink for Drip {
    ghost held = { λ s. Some s.inner.held };

    ghost faults = { λ s. s.inner.faults };

    fn write(&mut self, bytes: &[u8]) -> Result<usize, Failed> {
        self.inner.write(&bytes[..bytes.len().min(1)])
    }
}

/// Plays the first script into a sink that takes one byte a write.
fn drips(rt: &impl Abort, alloc: Global) -> Result<(), Fail> {
    let bytes = SCRIPT.as_bytes().to_vec(alloc)?;
    let mut source = MemSource::new(bytes, 4096, [].to_vec(alloc)?);
    let mut sink = Drip {
        inner: MemSink::new(alloc, 4096, [].to_vec(alloc)?)?,
    };
    let words = words_of(alloc, WORDS)?;
    let (status, _) = run_over(alloc, words.as_slice(), &mut source, &mut sink);
    assert!(rt; is_status(&status, "done"));
    assert_eq!(rt; sink.inner.held(), TRANSCRIPT.as_bytes());
    Ok(())
}

#[test]
fn a_sink_that_takes_a_byte_a_write_gets_the_same_transcript(rt: HostRuntime) -> Result<(), Fail> {
    drips(&rt, rt.alloc())
}

/// Plays the first script by reads of so many bytes.
fn plays_by_step(rt: &impl Abort, alloc: Global, step: usize) -> Result<(), Fail> {
    let played = play_with(alloc, WORDS, SCRIPT.as_bytes(), step.max(1), &[], &[])?;
    let is_done = is_status(&played.status, "done") && played.left == 0;
    assert!(rt;
        is_done && played.held.as_slice() == TRANSCRIPT.as_bytes(),
        "at step {step}"
    );
    Ok(())
}

#[test]
fn a_script_gives_its_transcript_however_it_is_cut(rt: HostRuntime) -> Result<(), Fail> {
    for step in 1..65 {
        plays_by_step(&rt, rt.alloc(), step)?;
    }
    Ok(())
}

//! The adapters over a reader and a writer of std. No clause names the single call of a reader or a writer, so what
//! an adapter makes of its answer is shown here: a short write is no fault, a failed flush is one, and nothing that
//! failed is tried again.
use crate::calls::{reads_all, writes_all};
use outside_io::{StdIn, StdOut};
use std::io;
use std::io::{Read, Write};
use std::process::Abort;
use std::test::Fail;

/// A reader that gives `x` and `y`, and fails at its call of this number, from 1 on.
#[derive(Drop)]
struct Stumbling {
    calls: u64,
    bad: u64,
}

impl Read for Stumbling {
    fn read(&mut self, buf: &mut [u8]) -> io::Result<usize> {
        self.calls = self.calls.saturating_add(1);
        if self.calls == self.bad {
            return Err(io::Error::other("stumbled"));
        }
        match buf {
            [first, second, ..] => {
                *first = b'x';
                *second = b'y';
                Ok(2)
            }
            _ => Ok(0),
        }
    }
}

/// A writer that takes `most` bytes a call, and none before the last ones were flushed. It fails at its write and
/// at its flush of these numbers, from 1 on.
#[derive(Drop)]
struct Narrow {
    most: usize,
    bad_write: u64,
    bad_flush: u64,
    writes: u64,
    flushes: u64,
    is_flushed: bool,
}

impl Write for Narrow {
    fn write(&mut self, buf: &[u8]) -> io::Result<usize> {
        self.writes = self.writes.saturating_add(1);
        if self.writes == self.bad_write || !self.is_flushed {
            return Err(io::Error::other("not taken"));
        }
        self.is_flushed = false;
        Ok(buf.len().min(self.most))
    }

    fn flush(&mut self) -> io::Result<()> {
        self.flushes = self.flushes.saturating_add(1);
        if self.flushes == self.bad_flush {
            return Err(io::Error::other("not flushed"));
        }
        self.is_flushed = true;
        Ok(())
    }
}

/// Reads by a table from a reader that stumbles at this call.
fn is_read(rt: &impl Abort, bad: u64, table: &str) -> Result<(), Fail> {
    reads_all(rt, &mut StdIn::new(Stumbling { calls: 0, bad }), table)
}

/// Writes by a table to a writer that takes so many bytes a call and fails at these calls; 0 is none.
fn is_written(
    rt: &impl Abort,
    most: usize,
    bad_write: u64,
    bad_flush: u64,
    table: &str,
) -> Result<(), Fail> {
    let writer = Narrow {
        most,
        bad_write,
        bad_flush,
        writes: 0,
        flushes: 0,
        is_flushed: true,
    };
    writes_all(rt, &mut StdOut::new(writer), table)
}

#[test]
fn what_a_reader_gives_is_handed_on(rt: HostRuntime) -> Result<(), Fail> {
    reads_all(
        &rt,
        &mut StdIn::new(b"abcdef".as_slice()),
        "4 abcd\n4 ef\n4 -",
    )
}

#[test]
fn a_read_that_failed_is_a_fault_and_is_not_tried_again(rt: HostRuntime) -> Result<(), Fail> {
    is_read(&rt, 1, "4 failed\n4 xy")?;
    is_read(&rt, 2, "4 xy\n4 failed\n4 xy")
}

#[test]
fn what_is_written_is_handed_on_and_flushed(rt: HostRuntime) -> Result<(), Fail> {
    is_written(&rt, 9, 0, 0, "abc 3\n- 0\nd 1")
}

#[test]
fn a_short_write_is_no_fault(rt: HostRuntime) -> Result<(), Fail> {
    is_written(&rt, 2, 0, 0, "abc 2\nc 1\nall sevenby ok")
}

#[test]
fn a_write_that_takes_nothing_is_a_fault(rt: HostRuntime) -> Result<(), Fail> {
    is_written(&rt, 0, 0, 0, "- 0\na failed")
}

#[test]
fn a_write_that_failed_is_a_fault_and_is_not_tried_again(rt: HostRuntime) -> Result<(), Fail> {
    is_written(&rt, 9, 1, 0, "abc failed\nabc 3")?;
    is_written(&rt, 9, 2, 0, "abc 3\nd failed\nd 1")
}

#[test]
fn a_flush_that_failed_is_a_fault(rt: HostRuntime) -> Result<(), Fail> {
    is_written(&rt, 9, 0, 1, "abc failed\nabc failed")?;
    is_written(&rt, 9, 0, 2, "abc 3\nd failed")
}

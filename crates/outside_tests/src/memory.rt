//! The source and the sink in memory.
ghost use Rattle.std.specs.Prelude.{◌≤◌};

use crate::calls::{reads_all, writes_all};
use outside_io::{MemSink, MemSource};
use std::alloc::Global;
use std::process::Abort;
use std::test::Fail;

/// Reads by a table from a source in memory, and then compares what is left.
fn source_gives(
    rt: &impl Abort,
    alloc: Global,
    bytes: &str,
    step: usize,
    fail_at: &[u64],
    table: &str,
    left: &str,
) -> Result<(), Fail>
    requires { 1 ≤ step }
{
    let mut source = MemSource::new(
        bytes.as_bytes().to_vec(alloc)?,
        step,
        fail_at.to_vec(alloc)?,
    );
    reads_all(rt, &mut source, table)?;
    assert_eq!(rt; source.left(), left.as_bytes());
    Ok(())
}

/// Writes by a table to a sink in memory, and then compares what it holds.
fn sink_takes(
    rt: &impl Abort,
    alloc: Global,
    capacity: usize,
    fail_at: &[u64],
    table: &str,
    held: &str,
) -> Result<(), Fail> {
    let mut sink = MemSink::new(alloc, capacity, fail_at.to_vec(alloc)?)?;
    writes_all(rt, &mut sink, table)?;
    assert_eq!(rt; sink.held(), held.as_bytes());
    Ok(())
}

#[test]
fn a_source_gives_its_bytes_by_steps_and_fails_where_listed(rt: HostRuntime) -> Result<(), Fail> {
    source_gives(
        &rt,
        rt.alloc(),
        "abcdefg",
        3,
        &[2, 5],
        "4 abc\n4 failed\n2 de",
        "fg",
    )?;
    source_gives(
        &rt,
        rt.alloc(),
        "abcdefg",
        3,
        &[2, 5],
        "4 abc\n4 failed\n2 de\n4 fg\n4 failed\n4 -",
        "",
    )
}

#[test]
fn a_sink_keeps_whole_writes_that_fit_and_fails_where_listed(rt: HostRuntime) -> Result<(), Fail> {
    sink_takes(
        &rt,
        rt.alloc(),
        5,
        &[2],
        "abc 3\nd failed\ndef failed",
        "abc",
    )?;
    sink_takes(
        &rt,
        rt.alloc(),
        5,
        &[2],
        "abc 3\nd failed\ndef failed\nde 2\n- 0\nf failed",
        "abcde",
    )
}

#[test]
fn all_is_written_or_the_fault_is_told(rt: HostRuntime) -> Result<(), Fail> {
    // The third call is a write of no bytes, so it is none, and the fourth fails.
    sink_takes(
        &rt,
        rt.alloc(),
        64,
        &[2, 4],
        "all one ok\nall lost failed\nall - ok\nall two ok\nall gone failed\nall . ok",
        "onetwo.",
    )
}

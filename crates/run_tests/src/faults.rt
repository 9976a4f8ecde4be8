//! What stands after a fault of reading or writing: what failed is not tried again, and nothing is read behind it.
use crate::played::{SCRIPT, TRANSCRIPT, WORDS, columns, is_status, play_with};
use std::alloc::Global;
use std::process::Abort;
use std::test::Fail;

/// Whether the bytes are exactly the first lines of the transcript, so many.
fn are_first_lines(held: &[u8], count: usize) -> bool {
    TRANSCRIPT.as_bytes().starts_with(held)
        && held.iter().filter(|byte| **byte == b'\n').count() == count
        && held.last().copied().unwrap_or(b'\n') == b'\n'
}

/// Plays the first script by reads of 16 bytes, where each row says which read or write fails, how the run ends,
/// how many lines are written then, and how many of the script's 117 bytes are left.
fn fails_so(rt: &impl Abort, alloc: Global, table: &str) -> Result<(), Fail> {
    for row in table.lines() {
        let (call, status, rest) = columns(row)?;
        let (what, number) = call.split_once(' ').ok_or("a row has no number")?;
        let (lines, left) = rest.split_once(' ').ok_or("a row has no rest")?;
        let bad = [number.parse()?];
        let (reads, writes): (&[u64], &[u64]) = if what == "read" {
            (bad.as_slice(), &[])
        } else {
            (&[], bad.as_slice())
        };
        let played = play_with(alloc, WORDS, SCRIPT.as_bytes(), 16, reads, writes)?;
        let is_so = is_status(&played.status, status)
            && are_first_lines(played.held.as_slice(), lines.parse()?)
            && left.parse() == Ok(played.left);
        assert!(rt; is_so && played.is_kept, "at {row}");
    }
    Ok(())
}

#[test]
fn a_read_fault_at_each_read_leaves_the_lines_before_it_written(
    rt: HostRuntime,
) -> Result<(), Fail> {
    fails_so(
        &rt,
        rt.alloc(),
        "read 1 | read fault | 0 117
read 2 | read fault | 1 101
read 3 | read fault | 2 85
read 4 | read fault | 2 69
read 5 | read fault | 4 53
read 6 | read fault | 9 37
read 7 | read fault | 11 21
read 8 | read fault | 12 5
read 9 | read fault | 13 0
read 10 | done | 13 0",
    )
}

#[test]
fn a_write_fault_at_each_write_leaves_the_lines_of_the_reads_before_it(
    rt: HostRuntime,
) -> Result<(), Fail> {
    // Each read of 16 bytes in which a line ends has one write, and no line ends in the third.
    fails_so(
        &rt,
        rt.alloc(),
        "write 1 | write fault | 0 101
write 2 | write fault | 1 85
write 3 | write fault | 2 53
write 4 | write fault | 4 37
write 5 | write fault | 9 21
write 6 | write fault | 11 5
write 7 | write fault | 12 0
write 8 | done | 13 0",
    )
}

/// Plays a script with a line off the grammar, where no write fails and where the first does.
fn writes_before_a_bad_line(
    rt: &impl Abort,
    alloc: Global,
    script: &str,
    step: usize,
) -> Result<(), Fail> {
    let played = play_with(alloc, WORDS, script.as_bytes(), step.max(1), &[], &[])?;
    let is_so = is_status(&played.status, "bad script at line 2");
    assert!(rt;
        is_so && played.held.as_slice() == b"dirty 0\n".as_slice(),
        "at {script}"
    );
    let broken = play_with(alloc, WORDS, script.as_bytes(), step.max(1), &[], &[1])?;
    let is_broken = is_status(&broken.status, "write fault");
    assert!(rt; is_broken && broken.held.is_empty(), "at {script}");
    Ok(())
}

#[test]
fn output_that_cant_be_written_comes_before_a_line_off_the_grammar(
    rt: HostRuntime,
) -> Result<(), Fail> {
    // The line off the grammar is whole, has no line feed, or is in another read than the line before it.
    writes_before_a_bad_line(&rt, rt.alloc(), "dirty\nwrong\n", 4096)?;
    writes_before_a_bad_line(&rt, rt.alloc(), "dirty\nwrong", 4096)?;
    writes_before_a_bad_line(&rt, rt.alloc(), "dirty\nwrong\n", 6)
}

/// Plays 1,000 lines of 6 bytes, each of which asks for 8, by reads of at most 4,096 bytes, where this read or this
/// write fails; 0 is none.
fn plays_long(
    rt: &impl Abort,
    alloc: Global,
    bad_read: u64,
    bad_write: u64,
    status: &str,
    held: usize,
    left: usize,
) -> Result<(), Fail> {
    let script = b"dirty\n".repeat(alloc, 1000)?;
    let played = play_with(
        alloc,
        WORDS,
        script.as_slice(),
        6000,
        &[bad_read],
        &[bad_write],
    )?;
    let is_so = is_status(&played.status, status) && played.held.len() == held;
    assert!(rt;
        is_so && played.left == left,
        "at read {bad_read}, write {bad_write}"
    );
    Ok(())
}

#[test]
fn a_read_asks_for_4096_bytes_and_its_lines_are_played_before_the_next(
    rt: HostRuntime,
) -> Result<(), Fail> {
    // Of the first 4,096 bytes 682 lines are whole.
    plays_long(&rt, rt.alloc(), 2, 0, "read fault", 5456, 1904)?;
    plays_long(&rt, rt.alloc(), 3, 0, "read fault", 8000, 0)
}

#[test]
fn nothing_is_read_behind_a_failed_write(rt: HostRuntime) -> Result<(), Fail> {
    // Output waits up to 4,096 bytes, which is that of 512 lines; the rest of a read's comes at its end.
    plays_long(&rt, rt.alloc(), 0, 1, "write fault", 0, 1904)?;
    plays_long(&rt, rt.alloc(), 0, 2, "write fault", 4096, 1904)?;
    plays_long(&rt, rt.alloc(), 0, 3, "write fault", 5456, 0)
}

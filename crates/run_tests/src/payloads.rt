//! Raw bytes behind a line: however reads cut them, whatever bytes they are, and where they end too early.
use crate::played::{WORDS, is_status, play_with};
use std::alloc::Global;
use std::process::Abort;
use std::test::Fail;

/// A script with a frame of four raw bytes, of which two are line feeds: 58 bytes up to them, and 68 in all.
const FRAME: &str = "connect 1\n1 v = new VScreen()\n1 v.mode(2, 2)\n1 v.frame(4)\n\ndi\ndirty\n";

/// The replies to its first three lines.
const BEFORE: &str = "1 ok\n1 ok\n1 ok\n";

/// What it writes.
const WRITTEN: &str = "1 ok\n1 ok\n1 ok\n1 ok\ndirty 0\n";

/// Plays the script by reads of so many bytes.
fn plays_by_step(rt: &impl Abort, alloc: Global, step: usize) -> Result<(), Fail> {
    let played = play_with(alloc, WORDS, FRAME.as_bytes(), step.max(1), &[], &[])?;
    let is_done = is_status(&played.status, "done") && played.left == 0;
    assert!(rt;
        is_done && played.held.as_slice() == WRITTEN.as_bytes(),
        "at step {step}"
    );
    Ok(())
}

#[test]
fn raw_bytes_are_gathered_however_they_are_cut(rt: HostRuntime) -> Result<(), Fail> {
    for step in 1..70 {
        plays_by_step(&rt, rt.alloc(), step)?;
    }
    Ok(())
}

/// Plays the script by reads of 20 bytes, of which this one fails: so much is written then, and left.
fn fails_at(
    rt: &impl Abort,
    alloc: Global,
    read: u64,
    written: &str,
    left: usize,
) -> Result<(), Fail> {
    let played = play_with(alloc, WORDS, FRAME.as_bytes(), 20, &[read], &[])?;
    let is_so = is_status(&played.status, "read fault") && played.left == left;
    assert!(rt;
        is_so && played.held.as_slice() == written.as_bytes(),
        "at read {read}"
    );
    Ok(())
}

#[test]
fn a_read_fault_inside_raw_bytes_leaves_the_lines_before_them_written(
    rt: HostRuntime,
) -> Result<(), Fail> {
    // The third read ends behind two of the four raw bytes.
    fails_at(&rt, rt.alloc(), 4, BEFORE, 8)?;
    fails_at(&rt, rt.alloc(), 5, WRITTEN, 0)
}

/// Plays the first bytes of the script, so many, which end within the frame's line or its raw bytes.
fn is_cut_short(rt: &impl Abort, alloc: Global, count: usize) -> Result<(), Fail> {
    let script = FRAME.as_bytes();
    let played = play_with(
        alloc,
        WORDS,
        &script[..count.min(script.len())],
        4096,
        &[],
        &[],
    )?;
    let is_bad = is_status(&played.status, "bad script at line 4");
    assert!(rt;
        is_bad && played.held.as_slice() == BEFORE.as_bytes(),
        "at {count} bytes"
    );
    Ok(())
}

#[test]
fn raw_bytes_that_are_cut_short_are_off_the_grammar_at_their_line(
    rt: HostRuntime,
) -> Result<(), Fail> {
    // The line without its line feed, and with none to three of its raw bytes.
    for count in 57..62 {
        is_cut_short(&rt, rt.alloc(), count)?;
    }
    Ok(())
}

/// A frame of 65,536 bytes, the most, comes whole through reads of 4,096.
fn sends_the_largest_frame(rt: &impl Abort, alloc: Global) -> Result<(), Fail> {
    let mut script = b"connect 1\n1 v.frame(65536)\n".to_vec(alloc)?;
    let frame = b"\n".repeat(alloc, 65536)?;
    script.extend_from_slice(frame.as_slice())?;
    script.extend_from_slice(b"dirty\n")?;
    let played = play_with(alloc, WORDS, script.as_slice(), 4096, &[], &[])?;
    let is_done = is_status(&played.status, "done") && played.left == 0;
    assert!(rt; is_done && played.held.as_slice() == b"1 ok\n1 error 4\ndirty 0\n".as_slice());
    Ok(())
}

#[test]
fn the_largest_frame_comes_whole(rt: HostRuntime) -> Result<(), Fail> {
    sends_the_largest_frame(&rt, rt.alloc())
}

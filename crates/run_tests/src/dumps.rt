//! Dumps of a screen: after a tick, and where writing one breaks off.
use crate::played::{WORDS, is_status, play_with};
use std::alloc::Global;
use std::process::Abort;
use std::test::Fail;

/// A dump after the first tick, whose transcript ends with it: so many of its pixels don't have the desk's colour.
fn dumps_drawn(rt: &impl Abort, alloc: Global, head: &str, count: usize) -> Result<(), Fail> {
    let script = b"connect 1\n1 w = new Window()\n1 w.set(-w 20 -h 20)\n1 w.open()\ntick\ndump\n";
    let played = play_with(alloc, WORDS, script.as_slice(), 4096, &[], &[])?;
    let held = played.held.as_slice();
    let screen = held.iter().skip(head.len()).take(1024);
    let is_whole = held.starts_with(head.as_bytes()) && held.len() == head.len() + 1024 + 1;
    assert!(rt; is_whole && screen.filter(|byte| **byte != 2).count() == count);
    Ok(())
}

#[test]
fn a_dump_after_a_tick_shows_what_it_drew(rt: HostRuntime) -> Result<(), Fail> {
    dumps_drawn(
        &rt,
        rt.alloc(),
        "1 ok\n1 ok\n1 ok\n1 ok\ndrew 0+100 left 300\ndump 32 32\n",
        100,
    )
}

/// A text of `before`, so many bytes of the desk's colour, and `behind`.
fn dumped(alloc: Global, before: &str, count: usize, behind: &str) -> Result<Vec<u8>, Fail> {
    let mut text = Vec::from_elem(alloc, 2u8, count)?;
    text.extend_from_slice(behind.as_bytes())?;
    let mut whole = before.as_bytes().to_vec(alloc)?;
    whole.extend_from_slice(text.as_slice())?;
    Ok(whole)
}

/// Whether a run of this script is done exactly where the sink holds its whole text, and else ends in a write
/// fault with a front of the text, whichever write fails; none of it where that is the first.
fn breaks_off_in_front(
    alloc: Global,
    words: &str,
    script: &str,
    write: u64,
    text: &[u8],
) -> Result<bool, Fail> {
    let played = play_with(alloc, words, script.as_bytes(), 4096, &[], &[write])?;
    let held = played.held.as_slice();
    let is_front = text.starts_with(held);
    Ok(if is_status(&played.status, "done") {
        is_front && held.len() == text.len() && write != 1
    } else {
        is_front && held.len() < text.len() && (write != 1 || held.is_empty())
    })
}

/// Plays a script whose text is `before`, so many bytes of the desk's colour and `behind`, where none of its writes
/// fails and where one of the first eight does.
fn breaks_off_anywhere(
    rt: &impl Abort,
    alloc: Global,
    words: &str,
    script: &str,
    before: &str,
    count: usize,
    behind: &str,
) -> Result<(), Fail> {
    let text = dumped(alloc, before, count, behind)?;
    let whole = play_with(alloc, words, script.as_bytes(), 4096, &[], &[])?;
    assert!(rt; is_status(&whole.status, "done") && whole.held == text);
    for write in 1..9 {
        let is_so = breaks_off_in_front(alloc, words, script, write, text.as_slice())?;
        assert!(rt; is_so, "at write {write}");
    }
    Ok(())
}

#[test]
fn a_write_fault_in_a_dump_leaves_a_front_of_it(rt: HostRuntime) -> Result<(), Fail> {
    breaks_off_anywhere(
        &rt,
        rt.alloc(),
        "play --width 16 --height 16 --budget 100 --spare 10",
        "dump\ndirty\n",
        "dump 16 16\n",
        256,
        "\ndirty 0\n",
    )?;
    breaks_off_anywhere(
        &rt,
        rt.alloc(),
        "play --width 128 --height 64 --budget 100 --spare 10",
        "dirty\ndump\ndirty\n",
        "dirty 0\ndump 128 64\n",
        8192,
        "\ndirty 0\n",
    )
}

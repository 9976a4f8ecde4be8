//! Words and lines that are read, and those that are refused.
use crate::played::{WORDS, bytes_of, columns, is_status, play_with};
use std::alloc::Global;
use std::process::Abort;
use std::test::Fail;

/// Each row's words are refused: nothing is read or written, and no server is kept.
fn refuses_words(rt: &impl Abort, alloc: Global, table: &str) -> Result<(), Fail> {
    for words in table.lines() {
        let played = play_with(alloc, words, b"dirty\n", 4096, &[], &[])?;
        let is_untouched = played.held.is_empty() && played.left == 6 && !played.is_kept;
        assert!(rt;
            is_status(&played.status, "usage") && is_untouched,
            "at {words}"
        );
    }
    Ok(())
}

/// Each row's words are taken.
fn takes_words(rt: &impl Abort, alloc: Global, table: &str) -> Result<(), Fail> {
    for words in table.lines() {
        let played = play_with(alloc, words, b"dirty\n", 4096, &[], &[])?;
        let is_so = is_status(&played.status, "done")
            && played.held.as_slice() == b"dirty 0\n".as_slice();
        assert!(rt; is_so, "at {words}");
    }
    Ok(())
}

/// Each row's script ends so, and writes this text.
fn plays_rows(rt: &impl Abort, alloc: Global, table: &str) -> Result<(), Fail> {
    for row in table.lines() {
        let (script, status, text) = columns(row)?;
        let script = bytes_of(alloc, script)?;
        let played = play_with(alloc, WORDS, script.as_slice(), 4096, &[], &[])?;
        let is_so = is_status(&played.status, status)
            && played.held.as_slice() == bytes_of(alloc, text)?.as_slice();
        assert!(rt; is_so && played.is_kept, "at {row}");
    }
    Ok(())
}

const REFUSED_WORDS: &str = "play --width 32 --height 32 --budget 10 --spare 11
~
play
Play --width 32 --height 32 --budget 100 --spare 10
~ play --width 32 --height 32 --budget 100 --spare 10
--width 32 --height 32 --budget 100 --spare 10
play --width 32 --height 32 --budget 100
play --width 32 --height 32 --budget 100 --spare
play --width 32 --height 32 --budget 100 --spare 10 now
play --width 32 --height 32 --budget 100 --spare 10 ~
play --width 32 --width 32 --height 32 --budget 100 --spare 10
play --width 32 --height 32 --budget 100 --spare 10 --depth 8
view
check
play -width 32 --height 32 --budget 100 --spare 10
play --width 00000032 --height 32 --budget 100 --spare 10
play --width +32 --height 32 --budget 100 --spare 10
play --width 32 --height -32 --budget 100 --spare 10
play --width 32 --height 3a --budget 100 --spare 10
play --width ~ --height 32 --budget 100 --spare 10
play --width 15 --height 32 --budget 100 --spare 10
play --width 1025 --height 32 --budget 100 --spare 10
play --width 32 --height 15 --budget 100 --spare 10
play --width 32 --height 769 --budget 100 --spare 10
play --width 32 --height 32 --budget 0 --spare 0
play --width 32 --height 32 --budget 786433 --spare 10
play --width 32 --height 32 --budget 100 --spare 0";

#[test]
fn words_are_refused_with_nothing_done(rt: HostRuntime) -> Result<(), Fail> {
    refuses_words(&rt, rt.alloc(), REFUSED_WORDS)
}

#[test]
fn words_are_taken_in_any_order_and_each_number_to_its_ends(rt: HostRuntime) -> Result<(), Fail> {
    takes_words(
        &rt,
        rt.alloc(),
        "play --width 32 --height 32 --budget 100 --spare 10
play --height 32 --width 32 --budget 100 --spare 10
play --width 32 --height 32 --spare 10 --budget 100
play --width=32 --height 32 --budget 100 --spare 10
play --width 0000032 --height 032 --budget 0000100 --spare 0000010
play --width 16 --height 16 --budget 1 --spare 1
play --width 1024 --height 768 --budget 786432 --spare 786432",
    )
}

const OFF_THE_GRAMMAR: &str = "tick 0/ | bad script at line 1 | -
tick 1001/ | bad script at line 1 | -
tick / | bad script at line 1 | -
tick 00000001/ | bad script at line 1 | -
tick  1/ | bad script at line 1 | -
tick 1 / | bad script at line 1 | -
tick -1/ | bad script at line 1 | -
pixel 1/ | bad script at line 1 | -
pixel 1 10000/ | bad script at line 1 | -
pixel 10000 1/ | bad script at line 1 | -
pixel 1 1 1/ | bad script at line 1 | -
Dirty/ | bad script at line 1 | -
 dirty/ | bad script at line 1 | -
dirty\r/ | bad script at line 1 | -
Dump/ | bad script at line 1 | -
dump 1/ | bad script at line 1 | -
connect 0/ | bad script at line 1 | -
connect 17/ | bad script at line 1 | -
connect 01/ | bad script at line 1 | -
connect  1/ | bad script at line 1 | -
connect/ | bad script at line 1 | -
hello/ | bad script at line 1 | -
 # no comment/ | bad script at line 1 | -
bye/ | bad script at line 1 | -
w.open()/ | bad script at line 1 | -
1 w.open(/1 v.frame(/ | bad script at line 2 | 1 error 2 7/
bye 17/ | bad script at line 1 | -
connect 1/bye 1 / | bad script at line 2 | 1 ok/
motion 1/ | bad script at line 1 | -
motion 1 10000/ | bad script at line 1 | -
press / | bad script at line 1 | -
release 1/ | bad script at line 1 | -
key 256/ | bad script at line 1 | -
key/ | bad script at line 1 | -
connect 1/1/ | bad script at line 2 | 1 ok/
connect 1/01 w = new Window()/ | bad script at line 2 | 1 ok/
connect 1/17 w = new Window()/ | bad script at line 2 | 1 ok/
connect 1/1 v.frame(4/AAAA | bad script at line 2 | 1 ok/
connect 1/1 v.frame(-1)/AAAA | bad script at line 2 | 1 ok/
connect 1/1 v.frame(65537)/ | bad script at line 2 | 1 ok/
connect 1/1 v.frame(4)/AAA | bad script at line 2 | 1 ok/
connect 1/1 v.frame(4) | bad script at line 2 | 1 ok/
connect 1/1 v.frame(4)/AAAAtick 0/ | bad script at line 3 | 1 ok/1 error 4/
connect 1/1 v.frame(4)//dirtick 0/ | bad script at line 3 | 1 ok/1 error 4/
connect 1/1 v.frame(70000)/ | bad script at line 2 | 1 ok/
dirty/# a comment//tick 0/ | bad script at line 4 | dirty 0/";

#[test]
fn the_first_line_off_the_grammar_ends_the_script(rt: HostRuntime) -> Result<(), Fail> {
    plays_rows(&rt, rt.alloc(), OFF_THE_GRAMMAR)
}

#[test]
fn a_last_line_needs_no_line_feed(rt: HostRuntime) -> Result<(), Fail> {
    plays_rows(
        &rt,
        rt.alloc(),
        "dirty | done | dirty 0/
dirty/tick 2 | done | dirty 0/drew 0+0 left 0/drew 0+0 left 0/
dirty/tick 0 | bad script at line 2 | dirty 0/
connect 1/1 v.frame(0) | done | 1 ok/1 error 4/
dirt | bad script at line 1 | -",
    )
}

/// A script of one comment with so many spaces behind its `#` ends so where each second read fails: up to 520 bytes
/// the line's end may still come.
fn ends_a_comment(
    rt: &impl Abort,
    alloc: Global,
    spaces: usize,
    end: &str,
    status: &str,
) -> Result<(), Fail> {
    let mut script = Vec::from_elem(alloc, b' ', spaces)?;
    script.insert(0, b'#')?;
    script.extend_from_slice(end.as_bytes())?;
    let played = play_with(alloc, WORDS, script.as_slice(), 4096, &[2], &[])?;
    assert!(rt;
        is_status(&played.status, status) && played.held.is_empty(),
        "at {spaces}"
    );
    Ok(())
}

#[test]
fn a_line_is_known_to_be_too_long_at_its_521st_byte(rt: HostRuntime) -> Result<(), Fail> {
    ends_a_comment(&rt, rt.alloc(), 519, "", "read fault")?;
    ends_a_comment(&rt, rt.alloc(), 520, "", "bad script at line 1")?;
    ends_a_comment(&rt, rt.alloc(), 519, "\n", "read fault")?;
    ends_a_comment(&rt, rt.alloc(), 520, "\n", "bad script at line 1")
}

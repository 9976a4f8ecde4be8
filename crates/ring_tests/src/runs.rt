//! Runs of keys, each an event of its own, and what polls tell of them.
use crate::tables::{number, rows, word};
use bind_core::{Polled, Posted, Ring};
use kind_core::{EventKind, Name, name_from};
use std::process::Abort;
use std::str::SplitWhitespace;
use std::test::Fail;

/// The event of a key, under this tag.
fn key(tag: Name, code: i32) -> Posted {
    Posted {
        tag,
        event: EventKind::Key,
        a: code,
        b: 0,
    }
}

/// Posts the keys from one code to the other.
fn posts(ring: &mut Ring, tag: Name, words: &mut SplitWhitespace<'_>) -> Result<(), Fail> {
    for code in number(words)?..=number(words)? {
        ring.post(key(tag, code));
    }
    Ok(())
}

/// Polls tell the keys from one code to the other, one by one.
fn tells(
    rt: &impl Abort,
    ring: &mut Ring,
    tag: Name,
    words: &mut SplitWhitespace<'_>,
) -> Result<(), Fail> {
    for code in number(words)?..=number(words)? {
        assert_eq!(rt; ring.poll(), Polled::One(key(tag, code)), "at {code}");
    }
    Ok(())
}

/// A poll tells that so many events were lost.
fn tells_lost(
    rt: &impl Abort,
    ring: &mut Ring,
    words: &mut SplitWhitespace<'_>,
) -> Result<(), Fail> {
    assert_eq!(rt; ring.poll(), Polled::Lost(word(words)?.parse()?));
    Ok(())
}

/// Does what one row says.
fn does(rt: &impl Abort, ring: &mut Ring, tag: Name, row: &str) -> Result<(), Fail> {
    let mut words = row.split_whitespace();
    match word(&mut words)? {
        "post" => posts(ring, tag, &mut words),
        "told" => tells(rt, ring, tag, &mut words),
        "lost" => tells_lost(rt, ring, &mut words),
        "none" => {
            assert_eq!(rt; ring.poll(), Polled::Empty);
            Ok(())
        }
        _ => Err("no such row".into()),
    }
}

/// Does what each row says, in a new ring.
fn run(rt: &impl Abort, ring: &mut Ring, table: &str) -> Result<(), Fail> {
    let tag = name_from(b"k").ok_or("no name")?;
    for row in rows(rt, table) {
        does(rt, ring, tag, row)?;
    }
    Ok(())
}

/// Of 33 keys the first is lost, and the others are told in their order.
const ONE_TOO_MANY: &str = "
post 65 97
lost 1
told 66 97
none
none
";

#[test]
fn the_oldest_of_33_keys_is_lost(rt: HostRuntime) -> Result<(), Fail> {
    run(&rt, &mut Ring::new(rt.alloc())?, ONE_TOO_MANY)
}

/// Between polls there is room again, and each loss is told before the keys that are kept.
const PAUSES: &str = "
none
post 1 3
told 1 2
post 4 35
lost 1
told 4 4
post 36 38
lost 2
told 7 7
post 39 39
told 8 39
none
post 40 40
told 40 40
none
post 1 100
lost 68
told 69 100
none
";

#[test]
fn each_loss_is_told_once(rt: HostRuntime) -> Result<(), Fail> {
    run(&rt, &mut Ring::new(rt.alloc())?, PAUSES)
}

/// 40 keys, of which a few were told: the kept ones go round the end of the room.
const BEFORE: &str = "
post 1 30
told 1 20
post 31 62
";

const AFTER: &str = "
lost 10
told 31 40
post 63 72
told 41 72
none
";

/// Both are polled to the end, one after the other: neither changes what the other keeps.
#[test]
fn a_copy_tells_what_its_ring_tells(rt: HostRuntime) -> Result<(), Fail> {
    let mut ring = Ring::new(rt.alloc())?;
    run(&rt, &mut ring, BEFORE)?;
    let mut copy = ring.copy()?;
    run(&rt, &mut ring, AFTER)?;
    run(&rt, &mut copy, AFTER)
}

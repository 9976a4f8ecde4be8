//! Events of each kind, which polls tell as they were posted.
use crate::tables::{number, rows, word};
use bind_core::{Polled, Posted, Ring};
use kind_core::{EventKind, name_from};
use std::process::Abort;
use std::test::Fail;

/// The kind of that word.
fn kind(word: &str) -> Option<EventKind> {
    match word {
        "press" => Some(EventKind::Press),
        "release" => Some(EventKind::Release),
        "click" => Some(EventKind::Click),
        "key" => Some(EventKind::Key),
        "change" => Some(EventKind::Change),
        "motion" => Some(EventKind::Motion),
        "move" => Some(EventKind::Move),
        _ => None,
    }
}

/// The event of a row: its tag, its kind and its two numbers.
fn event(row: &str) -> Result<Posted, Fail> {
    let mut words = row.split_whitespace();
    Ok(Posted {
        tag: name_from(word(&mut words)?.as_bytes()).ok_or("no name")?,
        event: kind(word(&mut words)?).ok_or("no kind")?,
        a: number(&mut words)?,
        b: number(&mut words)?,
    })
}

/// Polls tell the events of the table as they were posted, and then no more.
fn come_back(rt: &impl Abort, ring: &mut Ring, table: &str) -> Result<(), Fail> {
    for row in rows(rt, table) {
        ring.post(event(row)?);
    }
    for row in rows(rt, table) {
        assert_eq!(rt; ring.poll(), Polled::One(event(row)?), "at {row}");
    }
    assert_eq!(rt; ring.poll(), Polled::Empty);
    Ok(())
}

const EVENTS: &str = "
a press 9 8
b release -21 48
c_9 click 0 0
Abcdefghijklmnop key 97 0
a change 10000 0
m motion 4127 -1
m motion 2147483647 -2147483648
w move -1024 1024
";

#[test]
fn events_are_told_as_they_were_posted(rt: HostRuntime) -> Result<(), Fail> {
    come_back(&rt, &mut Ring::new(rt.alloc())?, EVENTS)
}

//! Shares of the drawing time.
use crate::tables::{length, rows, word};
use admit_core::{OverBudget, Roster};
use std::process::Abort;
use std::str::SplitWhitespace;
use std::test::Fail;

/// What the call of that name answers: the share and what was left of the limit where it is refused.
fn call(
    rt: &impl Abort,
    roster: &mut Roster,
    name: &str,
    words: &mut SplitWhitespace<'_>,
) -> Result<bool, Fail> {
    let key = length(words)?;
    match name {
        "leave" => Ok(roster.leave(key)),
        "admit" => admits(rt, roster, key, length(words)?),
        "refuse" => refuses(rt, roster, key, words),
        _ => Err("no such call".into()),
    }
}

/// Whether the key is admitted with that share.
fn admits(rt: &impl Abort, roster: &mut Roster, key: u32, share: u32) -> Result<bool, Fail> {
    assert!(rt; roster.len() < 128);
    Ok(roster.admit(key, share).is_ok())
}

/// Whether the key is refused with the share of the next word, while the word behind it is left of the limit.
fn refuses(
    rt: &impl Abort,
    roster: &mut Roster,
    key: u32,
    words: &mut SplitWhitespace<'_>,
) -> Result<bool, Fail> {
    let need = length(words)?;
    let left = length(words)?;
    assert!(rt; roster.len() < 128);
    Ok(roster.admit(key, need) == Err(OverBudget { need, left }))
}

/// The roster has these entries and no other: keys, each with its share.
fn has_entries(
    rt: &impl Abort,
    roster: &Roster,
    words: &mut SplitWhitespace<'_>,
) -> Result<(), Fail> {
    for place in 0..roster.len() {
        let entry = (length(words)?, length(words)?);
        assert_eq!(rt; roster.at(place), Some(entry), "at place {place}");
    }
    assert_eq!(rt; words.next(), None);
    assert_eq!(rt; roster.at(roster.len()), None);
    Ok(())
}

/// A call: `admit` and `leave` with what they answer, or `refuse` with the share that is asked for, what is left
/// of the limit, and whether it is so refused. Then the entries.
const CALLS: &str = "
admit 1 40 true   1 40
admit 2 40 true   1 40 2 40
refuse 3 40 10 true   1 40 2 40
refuse 5 11 10 true   1 40 2 40
admit 4 10 true   1 40 2 40 4 10
admit 1 40 true   2 40 4 10 1 40
leave 3 false   2 40 4 10 1 40
leave 2 true   4 10 1 40
";

fn are_answered(rt: &impl Abort, roster: &mut Roster, table: &str) -> Result<(), Fail> {
    for row in rows(rt, table) {
        let mut words = row.split_whitespace();
        let name = word(&mut words)?;
        let answer = call(rt, roster, name, &mut words)?;
        assert_eq!(rt; answer, word(&mut words)? == "true", "at {row}");
        has_entries(rt, roster, &mut words)?;
    }
    Ok(())
}

#[test]
fn shares_come_to_the_limit_and_no_further(rt: HostRuntime) -> Result<(), Fail> {
    let mut roster = Roster::new(90);
    assert_eq!(rt; roster.len(), 0);
    assert_eq!(rt; roster.at(0), None);
    are_answered(&rt, &mut roster, CALLS)
}

const BEFORE: &str = "
admit 1 40 true   1 40
admit 2 40 true   1 40 2 40
";

const AFTER: &str = "
refuse 3 40 10 true   1 40 2 40
admit 1 40 true   2 40 1 40
leave 2 true   1 40
";

#[test]
fn a_copy_has_the_entries_of_its_roster(rt: HostRuntime) -> Result<(), Fail> {
    let mut roster = Roster::new(90);
    are_answered(&rt, &mut roster, BEFORE)?;
    let mut copy = roster.copy();
    are_answered(&rt, &mut roster, AFTER)?;
    are_answered(&rt, &mut copy, AFTER)
}

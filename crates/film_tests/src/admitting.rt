//! A roster that is asked by rows of text.
use crate::filming::pair;
use admit_core::{OverBudget, Roster};
use std::process::Abort;
use std::test::Fail;
use vscreen_core::share;

/// The key that a letter stands for.
fn key_of(letter: &str) -> Result<u32, Fail> {
    let byte = letter
        .as_bytes()
        .first()
        .copied()
        .ok_or("a key has a letter")?;
    Ok(u32::from(byte))
}

/// What a film's size and period ask for, as `10 10 3`.
fn share_of(film: &str) -> Result<u32, Fail> {
    let (size, period) = film.rsplit_once(' ').ok_or("a film has a period")?;
    let (w, h) = pair(size)?;
    let period: u32 = period.parse()?;
    if w > 256 || h > 256 || period < 1 {
        return Err("a film has at most 256 by 256 pixels".into());
    }
    Ok(share(w, h, period))
}

/// A share is admitted (`ok`), or refused with what it needs and what is left.
fn admits(
    rt: &impl Abort,
    roster: &mut Roster,
    key: u32,
    share: u32,
    answer: &str,
) -> Result<(), Fail> {
    let wanted = match answer {
        "ok" => Ok(()),
        _ => {
            let (need, left) = pair(answer)?;
            Err(OverBudget { need, left })
        }
    };
    assert!(rt; roster.len() < 128);
    assert_eq!(rt; roster.admit(key, share), wanted, "at {answer}");
    Ok(())
}

/// The roster has these entries, as `a 34, b 34`, in this order and no other.
fn holds(rt: &impl Abort, roster: &Roster, entries: &str) -> Result<(), Fail> {
    let mut count = 0_usize;
    for entry in entries.split(", ") {
        let (letter, share) = entry
            .split_once(' ')
            .ok_or("an entry is a key and a share")?;
        let wanted = (key_of(letter)?, share.parse()?);
        assert_eq!(rt; roster.at(count), Some(wanted), "at {entry}");
        count = count.saturating_add(1);
    }
    assert_eq!(rt; roster.len(), count);
    assert_eq!(rt; roster.at(count), None);
    Ok(())
}

/// One row, as `admit a 10 10 3 | ok`: the key's film under its period asks for its share; `leave c | false`; and
/// the entries that the roster then has.
fn row(rt: &impl Abort, roster: &mut Roster, text: &str) -> Result<(), Fail> {
    let (done, answer) = text.split_once(" | ").ok_or("a row has no answer")?;
    let (word, rest) = done.split_once(' ').ok_or("a row has one word")?;
    match word {
        "admit" => {
            let (letter, film) = rest.split_once(' ').ok_or("a row has no film")?;
            admits(rt, roster, key_of(letter)?, share_of(film)?, answer)?;
        }
        "leave" => {
            let there = roster.leave(key_of(rest)?);
            assert_eq!(rt; there, answer == "true", "at {text}");
        }
        "all" => holds(rt, roster, answer)?,
        _ => return Err("a row's word is none of these".into()),
    }
    Ok(())
}

/// A new roster with this limit is asked by the rows of the table. Empty rows, and those that begin with `#`, say
/// nothing.
pub fn asks(rt: &impl Abort, limit: u32, table: &str) -> Result<(), Fail> {
    let mut roster = Roster::new(limit);
    assert_eq!(rt; roster.len(), 0);
    assert_eq!(rt; roster.at(0), None);
    for text in table.lines() {
        if text.is_empty() || text.starts_with('#') {
            continue;
        }
        row(rt, &mut roster, text)?;
    }
    Ok(())
}

//! The order of windows.
use crate::tables::{length, rows, word};
use stack_core::Stack;
use std::process::Abort;
use std::str::SplitWhitespace;
use std::test::Fail;

/// Puts a key that isn't there on top, and answers whether there was room.
fn push(stack: &mut Stack, key: u32) -> Result<bool, Fail> {
    if stack.raise(key) {
        return Err("the key is there".into());
    }
    Ok(stack.push_top(key).is_ok())
}

/// What the call of that name answers.
fn call(stack: &mut Stack, name: &str, key: u32) -> Result<bool, Fail> {
    match name {
        "push" => push(stack, key),
        "raise" => Ok(stack.raise(key)),
        "remove" => Ok(stack.remove(key)),
        _ => Err("no such call".into()),
    }
}

/// The stack has these keys, from top to bottom, and no other.
fn has_keys(rt: &impl Abort, stack: &Stack, keys: SplitWhitespace<'_>) -> Result<(), Fail> {
    let mut place = 0;
    for key in keys {
        assert_eq!(rt; stack.at(place), Some(key.parse()?), "at place {place}");
        place = place.saturating_add(1);
    }
    assert_eq!(rt; stack.at(place), None);
    assert_eq!(rt; stack.len(), place);
    Ok(())
}

/// A call with its key, what it answers, and the keys after it.
const CALLS: &str = "
push 7 true   7
push 5 true   5 7
push 9 true   9 5 7
raise 7 true   7 9 5
remove 9 true   7 5
raise 4 false   7 5
remove 4 false   7 5
remove 7 true   5
remove 5 true
";

fn are_answered(rt: &impl Abort, stack: &mut Stack, table: &str) -> Result<(), Fail> {
    for row in rows(rt, table) {
        let mut words = row.split_whitespace();
        let name = word(&mut words)?;
        let key = length(&mut words)?;
        let answer = call(stack, name, key)?;
        assert_eq!(rt; answer, word(&mut words)? == "true", "at {row}");
        has_keys(rt, stack, words)?;
    }
    Ok(())
}

#[test]
fn keys_are_kept_from_top_to_bottom(rt: HostRuntime) -> Result<(), Fail> {
    let mut stack = Stack::new();
    assert_eq!(rt; stack.len(), 0);
    assert_eq!(rt; stack.at(0), None);
    are_answered(&rt, &mut stack, CALLS)
}

const BEFORE: &str = "
push 7 true   7
push 5 true   5 7
push 9 true   9 5 7
";

const AFTER: &str = "
raise 7 true   7 9 5
remove 9 true   7 5
";

#[test]
fn a_copy_has_the_order_of_its_stack(rt: HostRuntime) -> Result<(), Fail> {
    let mut stack = Stack::new();
    are_answered(&rt, &mut stack, BEFORE)?;
    let mut copy = stack.copy();
    are_answered(&rt, &mut stack, AFTER)?;
    are_answered(&rt, &mut copy, AFTER)
}

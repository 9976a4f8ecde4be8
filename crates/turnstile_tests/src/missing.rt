//! Passes that are missing, and what comes back.
use crate::calls::{call, settle};
use crate::hands::{put_last, take_last};
use crate::ledger::Ledger;
use std::alloc::Global;
use std::sync::Wait;
use std::test::Fail;
use turnstile::{Missing, Short, Turnstile};

// Closes with one of two passes, and then with both: what was told, and how many lines come back.
fn closed_with_one<R: Wait>(rt: &R, alloc: Global) -> Option<(u32, u32, usize)> {
    let (gate, mut passes) = Turnstile::new(alloc, Ledger::new(alloc), 2).ok()?;
    let mut second = take_last(&gate, &mut passes)?;
    call(rt, &gate, &mut second, 5)?;
    let Missing {
        gate,
        mut passes,
        given,
        made,
    } = gate.close(passes).err()?;
    put_last(&gate, &mut passes, second)?;
    let ledger = gate.close(passes).ok()?;
    Some((given, made, ledger.lines().len()))
}

#[test]
fn a_turnstile_is_taken_down_by_all_its_passes(rt: HostRuntime) -> Result<(), Fail> {
    assert!(rt; closed_with_one(&rt, rt.alloc()) == Some((1, 2, 1)));
    Ok(())
}

// Gathers one of two passes, and then both: what was told, and the number of lines.
fn gathered_with_one<R: Wait>(rt: &R, alloc: Global) -> Option<(u32, u32, u64)> {
    let (gate, mut passes) = Turnstile::new(alloc, Ledger::new(alloc), 2).ok()?;
    let mut second = take_last(&gate, &mut passes)?;
    call(rt, &gate, &mut second, 5)?;
    call(rt, &gate, &mut second, 6)?;
    let Short {
        mut passes,
        given,
        made,
    } = settle(rt, &gate, passes).err()?;
    put_last(&gate, &mut passes, second)?;
    let (count, _all) = settle(rt, &gate, passes).ok()?;
    Some((given, made, count))
}

#[test]
fn lines_are_counted_once_all_passes_are_in(rt: HostRuntime) -> Result<(), Fail> {
    assert!(rt; gathered_with_one(&rt, rt.alloc()) == Some((1, 2, 2)));
    Ok(())
}

// The numbers of the last two of three passes, and what their calls were answered.
fn numbered<R: Wait>(rt: &R, alloc: Global) -> Option<(u32, u32, u64, u64)> {
    let (gate, mut passes) = Turnstile::new(alloc, Ledger::new(alloc), 3).ok()?;
    let mut third = take_last(&gate, &mut passes)?;
    let mut second = take_last(&gate, &mut passes)?;
    let first = call(rt, &gate, &mut third, 10)?;
    let last = call(rt, &gate, &mut second, 1)?;
    Some((third.number(), second.number(), first, last))
}

#[test]
fn passes_are_numbered_from_zero_on_and_see_one_ledger(rt: HostRuntime) -> Result<(), Fail> {
    assert!(rt; numbered(&rt, rt.alloc()) == Some((2, 1, 10, 11)));
    Ok(())
}

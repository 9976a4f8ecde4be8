//! Threads that take turns: nothing is lost, and nothing comes twice.
ghost use Rattle.std.specs.Prelude.{◌<◌};

use crate::ledger::Ledger;
use crate::line::Line;
use crate::turns::turns_of_all;
use std::alloc::Global;
use std::sync::Wait;
use std::test::Fail;
use std::thread::Threads;
use turnstile::Turnstile;

// How many lines carry a number.
fn lines_by(lines: &[Line], number: u32) -> usize {
    lines.iter().filter(|line| line.by == number).count()
}

// Whether all lines carry a number below `passes`, each number stands on as many as there were
// rounds, and the last sum is the number of lines.
fn all_counted(ledger: &Ledger, passes: u32, rounds: u32) -> bool {
    let lines = ledger.lines();
    for number in 0..passes {
        if lines_by(lines, number) != rounds as usize {
            return false;
        }
    }
    match lines.last() {
        Some(line) => {
            line.sum == lines.len() as u64 && line.sum == u64::from(passes) * u64::from(rounds)
        }
        None => rounds == 0,
    }
}

// Passes that take their turns in threads: whether nothing was lost.
fn nothing_lost<R: Threads + Wait + Sync>(
    rt: &R,
    alloc: Global,
    passes: u32,
    threads: usize,
    rounds: u32,
) -> Option<bool>
    requires { (0 < passes) × (0 < threads) }
{
    let (gate, mut list) = Turnstile::new(alloc, Ledger::new(alloc), passes).ok()?;
    turns_of_all(rt, &gate, list.as_mut_slice(), threads, rounds);
    let ledger = gate.close(list).ok()?;
    Some(all_counted(&ledger, passes, rounds))
}

#[test]
fn two_threads_count_to_twenty_thousand(rt: HostRuntime) -> Result<(), Fail> {
    assert!(rt; nothing_lost(&rt, rt.alloc(), 2, 2, 10_000) == Some(true));
    Ok(())
}

#[test]
fn four_threads_with_more_passes_than_processors(rt: HostRuntime) -> Result<(), Fail> {
    assert!(rt; nothing_lost(&rt, rt.alloc(), 32, 4, 500) == Some(true));
    Ok(())
}

#[test]
fn more_threads_than_processors(rt: HostRuntime) -> Result<(), Fail> {
    assert!(rt; nothing_lost(&rt, rt.alloc(), 24, 24, 200) == Some(true));
    Ok(())
}

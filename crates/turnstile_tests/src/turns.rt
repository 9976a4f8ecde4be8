//! Passes that take turns in threads of their own.
ghost use Rattle.std.specs.Prelude.{◌≡◌, ◌<◌, length};
ghost use Rattle.std.specs.List.{All};
ghost use Rattle.turnstile.specs.Passes.{IsPassOf, IsOut};
ghost use Rattle.turnstile_tests.specs.Ledgers.{lines_of};

use crate::calls::call;
use crate::ledger::Ledger;
use std::sync::Wait;
use std::thread;
use std::thread::Threads;
use turnstile::{Pass, Turnstile};

/// Adds 1 as often as `rounds` says, a turn each.
pub fn take_turns<R: Wait>(rt: &R, gate: &Turnstile<Ledger>, pass: &mut Pass<Ledger>, rounds: u32)
    requires own { IsPassOf lines_of gate.now pass.old }
    requires outside { IsOut pass.old }
    ensures own { IsPassOf lines_of gate.now pass.new }
    ensures outside { IsOut pass.new }
{
    for _round in 0..rounds {
        let _sum = call(rt, gate, pass, 1);
    }
}

/// The same with all passes, by as many threads as are asked for.
pub fn turns_of_all<R: Threads + Wait + Sync>(
    rt: &R,
    gate: &Turnstile<Ledger>,
    passes: &mut [Pass<Ledger>],
    threads: usize,
    rounds: u32,
)
    requires threads { 0 < threads }
    requires own { All (IsPassOf lines_of gate.now) passes.old }
    requires outside { All IsOut passes.old }
    ensures own { All (IsPassOf lines_of gate.now) passes.new }
    ensures outside { All IsOut passes.new }
{
    let turns = move |_at: usize, pass: &mut Pass<Ledger>|
        requires { IsPassOf lines_of gate.now pass.now × IsOut pass.now }
        ensures { IsPassOf lines_of gate.entry.now pass.exit.now × IsOut pass.exit.now }
    { take_turns(rt, gate, pass, rounds) };
    thread::for_each_mut(rt, passes, threads, &turns);
}

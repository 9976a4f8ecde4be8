//! A pass that waits while another is inside.
ghost use Rattle.std.specs.List.{All};
ghost use Rattle.turnstile.specs.Passes.{IsPassOf, IsOut};
ghost use Rattle.turnstile_tests.specs.Ledgers.{lines_of};

use crate::ledger::Ledger;
use std::alloc::Global;
use std::sync::Wait;
use std::sync::atomic::Ordering::SeqCst;
use std::sync::atomic::{AtomicBool, AtomicUsize};
use std::test::Fail;
use std::thread;
use std::thread::Threads;
use turnstile::{Pass, Turnstile};

// What the two threads tell one another.
#[derive(Drop)]
struct Signs {
    first_inside: AtomicBool,
    second_comes: AtomicBool,
    second_inside: AtomicBool,
    came_meanwhile: AtomicBool,
    lines_found: AtomicUsize,
}

fn wait_for<R: Wait>(rt: &R, sign: &AtomicBool) {
    for _ in rt.forever() {
        if sign.load(SeqCst) {
            break;
        }
        thread::yield_now();
    }
}

// Comes in, stays until the other has had time to come in too, tells whether it did, and adds a line.
fn stay<R: Wait>(rt: &R, gate: &Turnstile<Ledger>, pass: &mut Pass<Ledger>, signs: &Signs)
    requires own { IsPassOf lines_of gate.now pass.old }
    requires outside { IsOut pass.old }
{
    let mut ledger = gate.enter(rt, pass);
    signs.first_inside.store(true, SeqCst);
    wait_for(rt, &signs.second_comes);
    for _ in 0..2_000 {
        thread::yield_now();
    }
    signs
        .came_meanwhile
        .store(signs.second_inside.load(SeqCst), SeqCst);
    let _sum = ledger.add(pass.number(), 1);
    gate.leave(pass, ledger);
}

// Comes to the turnstile while the other is inside, and tells how many lines it finds.
fn follow<R: Wait>(rt: &R, gate: &Turnstile<Ledger>, pass: &mut Pass<Ledger>, signs: &Signs)
    requires own { IsPassOf lines_of gate.now pass.old }
    requires outside { IsOut pass.old }
{
    wait_for(rt, &signs.first_inside);
    signs.second_comes.store(true, SeqCst);
    let ledger = gate.enter(rt, pass);
    signs.second_inside.store(true, SeqCst);
    signs.lines_found.store(ledger.lines().len(), SeqCst);
    gate.leave(pass, ledger);
}

// The first pass stays inside while the second comes.
fn meet<R: Threads + Wait + Sync>(
    rt: &R,
    gate: &Turnstile<Ledger>,
    passes: &mut [Pass<Ledger>],
    signs: &Signs,
)
    requires own { All (IsPassOf lines_of gate.now) passes.old }
    requires outside { All IsOut passes.old }
{
    let play = move |at: usize, pass: &mut Pass<Ledger>|
        requires { IsPassOf lines_of gate.now pass.now × IsOut pass.now }
    {
        if at == 0 {
            stay(rt, gate, pass, signs);
        } else {
            follow(rt, gate, pass, signs);
        }
    };
    thread::for_each_mut(rt, passes, 2, &play);
}

// Whether the second came in while the first was inside, and how many lines it found.
fn met<R: Threads + Wait + Sync>(rt: &R, alloc: Global) -> Option<(bool, usize)> {
    let (gate, mut passes) = Turnstile::new(alloc, Ledger::new(alloc), 2).ok()?;
    let signs = Signs {
        first_inside: AtomicBool::new(false),
        second_comes: AtomicBool::new(false),
        second_inside: AtomicBool::new(false),
        came_meanwhile: AtomicBool::new(true),
        lines_found: AtomicUsize::new(0),
    };
    meet(rt, &gate, passes.as_mut_slice(), &signs);
    Some((
        signs.came_meanwhile.load(SeqCst),
        signs.lines_found.load(SeqCst),
    ))
}

#[test]
fn a_pass_waits_until_the_one_inside_has_left(rt: HostRuntime) -> Result<(), Fail> {
    assert!(rt; met(&rt, rt.alloc()) == Some((false, 1)));
    Ok(())
}

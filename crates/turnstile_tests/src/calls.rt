//! A ledger behind a turnstile: enter, the ledger's own call, leave.
ghost use Rattle.std.specs.Prelude.{◌≡◌, ◌%◌, ◌^◌, true, length, drop, IfSome, IsNone, IfOk, IfErr};
ghost use Rattle.std.specs.List.{All, sum_by};
ghost use Rattle.turnstile.specs.Entries.{added};
ghost use Rattle.turnstile.specs.Passes.{IsPassOf, IsOut, IsSamePass, seen, opening, parts_together};
ghost use Rattle.turnstile_tests.specs.Lines.{is_legal, number_on};
ghost use Rattle.turnstile_tests.specs.Ledgers.{lines_of, Called, Refused};

use crate::ledger::Ledger;
use std::sync::Wait;
use turnstile::{Kept, Pass, Short, Turnstile};

/// Adds an amount to the ledger, in the pass's turn.
pub fn call<R: Wait>(
    rt: &R,
    gate: &Turnstile<Ledger>,
    pass: &mut Pass<Ledger>,
    amount: u32,
) -> Option<u64>
    requires own { IsPassOf lines_of gate.now pass.old }
    requires outside { IsOut pass.old }
    ensures own { IsPassOf lines_of gate.now pass.new }
    ensures outside { IsOut pass.new }
    ensures same { IsSamePass pass.old pass.new }
    ensures legal { is_legal 0 (seen pass.new) ≡ true }
    ensures called { IfSome result (λ sum. Called pass.old pass.new amount sum) }
    ensures refused { IsNone result → Refused pass.old pass.new }
{
    let mut ledger = gate.enter(rt, pass);
    let sum = ledger.add(pass.number(), amount);
    gate.leave(pass, ledger);
    sum
}

/// How many lines the ledger has once all passes are in: those of the opening, and those that the
/// passes added. The passes come back joined into one.
#[tactic(auto, unfolding(turnstile::specs::Entries::HaveAll))]
pub fn settle<R: Wait>(
    rt: &R,
    gate: &Turnstile<Ledger>,
    passes: Vec<Pass<Ledger>>,
) -> Result<(u64, Pass<Ledger>), Short<Ledger>>
    requires own { All (IsPassOf lines_of gate.now) passes.items }
    requires outside { All IsOut passes.items }
    ensures counted { IfOk result (λ r. (r.0 ≡ length (seen r.1) % 2 ^ 64) × (length (drop (opening r.1) (seen r.1)) ≡ sum_by (λ p. length p.mine) (parts_together passes.items))) }
    ensures legal { IfOk result (λ r. is_legal 0 (seen r.1) ≡ true) }
    ensures each { IfOk result (λ r. All (λ p. added number_on (opening r.1) p.number (seen r.1) ≡ p.mine) (parts_together passes.items)) }
    ensures back { IfErr result (λ s. s.passes ≡ passes) }
{
    match gate.gather(passes) {
        Ok(all) => {
            let mut all = all;
            let ledger = gate.enter(rt, &mut all);
            let count = ledger.len();
            gate.leave(&mut all, ledger);
            Ok((count, all))
        }
        Err(short) => Err(short),
    }
}

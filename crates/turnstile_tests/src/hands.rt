//! Passes that are taken out of a list and put back.
ghost use Rattle.std.specs.Prelude.{IfSome};
ghost use Rattle.std.specs.List.{All};
ghost use Rattle.turnstile.specs.Passes.{IsPassOf, IsOut};
ghost use Rattle.turnstile_tests.specs.Ledgers.{lines_of};

use crate::ledger::Ledger;
use turnstile::{Pass, Turnstile};

/// The last pass, if there is one.
pub fn take_last(gate: &Turnstile<Ledger>, passes: &mut Vec<Pass<Ledger>>) -> Option<Pass<Ledger>>
    requires own { All (IsPassOf lines_of gate.now) passes.old.items }
    requires outside { All IsOut passes.old.items }
    ensures own { All (IsPassOf lines_of gate.now) passes.new.items }
    ensures outside { All IsOut passes.new.items }
    ensures taken { IfSome result (λ p. IsPassOf lines_of gate.now p × IsOut p) }
{
    passes.pop()
}

/// Puts a pass behind the others, where there is room.
pub fn put_last(
    gate: &Turnstile<Ledger>,
    passes: &mut Vec<Pass<Ledger>>,
    pass: Pass<Ledger>,
) -> Option<()>
    requires own { All (IsPassOf lines_of gate.now) passes.old.items }
    requires outside { All IsOut passes.old.items }
    requires pass { IsPassOf lines_of gate.now pass × IsOut pass }
    ensures own { All (IsPassOf lines_of gate.now) passes.new.items }
    ensures outside { All IsOut passes.new.items }
{
    passes.push(pass).ok()
}

ghost use Rattle.std.specs.Prelude.{◌≡◌, true, [], ◌∷◌, ◌++◌, IfSome, OnSome, IsNone};
ghost use Rattle.turnstile_tests.specs.Lines.{is_legal, sum_after, line, number_on};

use crate::line::Line;
use std::alloc::Global;
use turnstile::Kept;

/// A sum, and the lines that made it.
pub struct Ledger {
    pub(crate) lines: Vec<Line>,
    sum: u64,
    ghost legal: { is_legal 0 lines.items ≡ true },
    ghost summed: { sum ≡ sum_after 0 lines.items },
}

impl Drop for Ledger {
    fn drop(self) {
        let Ledger { lines: _, sum: _ } = self;
    }
}

impl Kept for Ledger {
    type Entry = Line;

    ghost entries = { λ l. l.lines.items };

    ghost number = { number_on };

    fn len(&self) -> u64 {
        self.lines.len() as u64
    }
}

impl Ledger {
    /// A ledger without a line.
    pub fn new(alloc: Global) -> Ledger
        ensures { result.lines.items ≡ [] }
    {
        Ledger {
            lines: Vec::new(alloc),
            sum: 0,
        }
    }

    /// The lines, oldest first.
    pub fn lines(&self) -> &[Line]
        ensures { result.now ≡ self.now.lines.items }
    {
        self.lines.as_slice()
    }

    /// Adds an amount under a number, and answers the sum. `None` comes where the sum is too large,
    /// or for want of memory; nothing is changed then.
    pub fn add(&mut self, by: u32, amount: u32) -> Option<u64>
        ensures added { IfSome result (λ s. self.new.lines.items ≡ self.old.lines.items ++ line by amount s ∷ []) }
        ensures kept { IsNone result → self.new.lines.items ≡ self.old.lines.items }
    {
        let sum = self.sum.checked_add(u64::from(amount))?;
        if self.lines.push(Line { by, amount, sum }).is_err() {
            return None;
        }
        self.sum = sum;
        Some(sum)
    }
}

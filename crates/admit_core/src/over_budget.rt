ghost use Rattle.std.specs.Prelude.{Some, codes, ◌++◌};
ghost use Rattle.std.specs.Fmt.{decimal};

use std::error::Error;
use std::fmt;

/// A share that doesn't fit beside the others.
#[derive(Clone, Copy, Debug, PartialEq, Eq)]
pub struct OverBudget {
    /// The share that was asked for, in pixels per tick.
    pub need: u32,
    /// What the other entries leave of the limit, in pixels per tick.
    pub left: u32,
}

impl fmt::Display for OverBudget {
    ghost output = { λ e. Some (decimal e.need ++ codes " wanted and " ++ decimal e.left ++ codes " left") };

    fn fmt<W: fmt::Write>(&self, f: &mut fmt::Formatter<W>) -> fmt::Result {
        let need = self.need;
        let left = self.left;
        write!(f, "{need} wanted and {left} left")
    }
}

impl Error for OverBudget {}

//! Where a walk over a script is cut off.
ghost use Rattle.std.specs.Prelude.{◌≡◌};
ghost use Rattle.script_walk.specs.Cutting.{end_of};

use crate::end::End;

/// Where a walk over a script is cut off before its end: at a line off the grammar, whose number is counted from 1, or
/// at a fault of writing.
#[derive(Clone, Copy, Debug)]
pub enum Cut {
    Unread { line: u64 },
    Unwritten,
}

impl Cut {
    /// How a walk ends that was cut off there.
    pub fn end(self) -> End
        ensures { result ≡ end_of self }
    {
        match self {
            Cut::Unread { line } => End::BadLine { line },
            Cut::Unwritten => End::WriteFault,
        }
    }
}

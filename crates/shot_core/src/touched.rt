//! The rows whose look an event changed.
use arrayvec::ArrayVec;

/// The numbers of those rows that are shown both before and after an event and whose look differs, but for width and
/// height. See docs/MACHINE.md, "The reach of a change".
pub struct Touched {
    pub looks: ArrayVec<u32, 2048>,
}

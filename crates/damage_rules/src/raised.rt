//! The windows that are put higher between two shots.
ghost use Rattle.damage_rules.specs.Raised.{AreRaised};

use crate::order::put_higher;
use arrayvec::ArrayVec;
use shot_core::Shot;

/// The numbers of the windows that are put higher between two shots: some other window, open before and after, was
/// above it and is below it. See docs/MACHINE.md, "The reach of a change".
#[derive(Drop)]
pub struct Raised {
    pub windows: ArrayVec<u32, 128>,
}

impl Raised {
    /// The windows that are put higher from the one shot to the other. Where the order is the same, as after most events,
    /// it compares the two orders window by window; else it compares each two windows for each of at most 128.
    pub fn between(before: &Shot, after: &Shot) -> Raised
        ensures { AreRaised before.now after.now result.windows.items }
    {
        Raised {
            windows: put_higher(before.windows(), after.windows()),
        }
    }
}

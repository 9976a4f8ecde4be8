//! The reach of a change: the pixels that have to be drawn again after one event, from what was shown before and after.
#![tactic(auto)]

mod areas;
pub mod laws;
mod order;
mod raised;
mod spots;

pub use areas::{reach, reach_with};
pub use raised::Raised;

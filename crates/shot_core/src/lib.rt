//! Shots: what the screen shows at one moment, by the numbers of rows, so that two moments can be compared.
#![tactic(auto)]

mod no_memory;
mod shot;
mod spot;
pub mod threads;
mod touched;

pub use no_memory::NoMemory;
pub use shot::Shot;
pub use spot::Spot;
pub use touched::Touched;

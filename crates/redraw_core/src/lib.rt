//! What is left to draw: the dirty pixels of a screen, kept as rectangles, with a map of truth values for
//! what doesn't fit among them. A contract sees a truth value for each pixel.
#![tactic(auto)]

mod adding;
mod joining;
mod keeping;
mod no_memory;
mod overflow;
mod pairs;
mod queue;
mod rows;
mod runs;
mod slices;
mod store;
mod taking;
pub mod threads;

pub use no_memory::NoMemory;
pub use queue::Queue;

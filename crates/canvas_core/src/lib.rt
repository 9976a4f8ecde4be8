//! The screen: one byte for each pixel, row after row, with counts of the bytes and of the spans that
//! were written.
#![tactic(auto)]

mod canvas;
mod no_memory;
pub mod threads;

pub use canvas::{Canvas, DESK_COLOUR};
pub use no_memory::NoMemory;

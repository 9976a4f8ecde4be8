//! The layout of a grid's columns, or of its rows: room spread over them by their weights.
#![tactic(auto)]

pub mod laws;
mod spreading;

pub use spreading::spread;

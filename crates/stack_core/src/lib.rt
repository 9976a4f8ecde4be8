//! An order of keys from top to bottom, such as that of windows. No key is there twice.
#![tactic(auto)]

mod order;
pub mod threads;

pub use order::{Stack, StackFull};

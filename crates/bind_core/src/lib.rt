//! The events that a client has not polled yet: the latest ones are kept, and those that found no room are counted.
#![tactic(auto)]

pub mod laws;
mod no_memory;
mod polled;
mod posted;
mod ring;
pub mod threads;

pub use no_memory::NoMemory;
pub use polled::Polled;
pub use posted::Posted;
pub use ring::Ring;

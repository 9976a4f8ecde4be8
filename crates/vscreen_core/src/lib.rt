//! Films: the frames of raw pixels that a VScreen shows, drawn band by band, a run of pixels a tick, under a period.
#![tactic(auto)]

mod band;
mod film;
pub mod laws;
mod no_memory;
pub mod threads;
mod wrong_size;

pub use band::{Band, share};
pub use film::Film;
pub use no_memory::NoMemory;
pub use wrong_size::WrongSize;

//! Which looks an event of a client touched: the laws, by the definitions alone, and what tells the looks that a command
//! touched.
#![tactic(auto)]

mod anew;
mod keeping;
pub mod laws;
mod telling;

pub use anew::shown_anew;
pub use keeping::keep_before;
pub use telling::tell_touched;

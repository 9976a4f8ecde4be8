//! The layout of a client's widgets: which kept places a client's command changes, and to what.
#![tactic(auto)]

mod kinds;
mod laying;

pub use kinds::is_window;
pub use laying::settle;

//! The shot of a view: what the screen shows at one moment, by the numbers of the widgets.
#![tactic(auto)]

mod shots;

pub use shots::shot;

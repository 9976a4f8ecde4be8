//! A server's work on its screen: a change marks as dirty what it reaches, and a tick draws the bands of films and a part
//! of what is dirty.
#![tactic(auto)]

mod banding;
mod drawing;
mod following;
mod marking;

pub use banding::draw_bands;
pub use drawing::draw;
pub use following::{follow, follow_looks};
pub use marking::mark;

//! Painting: a piece of the screen is cut through the window order and down the widgets, and each part is written into
//! rows that the screen lends.
#![tactic(auto)]

mod bands;
mod filling;
mod line;
mod looks;
mod meeting;
mod painting;
mod pieces;
mod runs;
mod slots;

pub use bands::paint_band;
pub use pieces::paint;

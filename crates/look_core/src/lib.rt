//! The looks of the widgets: which palette number each pixel of a widget shows, by its kind, size and state.
//! Nothing here takes memory, and nothing is refused.
#![tactic(auto)]

mod bars;
mod boxes;
mod films;
mod font;
mod knob;
pub mod laws;
mod lettering;
mod look;
mod palette;
mod row;
mod scanline;
mod strokes;
mod troughs;

pub use look::Look;
pub use row::row_span;

//! The layout of the widgets and what is on top: least sizes, places, and the widget on top at a pixel.
#![tactic(auto)]

mod asked;
mod child;
mod children;
mod known;
pub mod laws;
mod laying;
mod least;
mod own;
mod places;
mod reading;
mod shown;
mod sides;
mod size;
mod spans;
mod top;
mod tracks;
mod view;

pub use children::child_keys;
pub use geom_core::Rect;
pub use laying::relayout;
pub use least::{least_size, most_levels};
pub use places::place;
pub use size::Size;
pub use top::top_at;
pub use tree_core::{Grab, Pointer};
pub use view::View;

//! Rectangles of pixels: what two of them share, what one leaves of another, and the front of one
//! of a given number of pixels. A contract sees a rectangle as the set of its pixels.
#![tactic(auto)]

mod cuts;
mod fronts;
pub mod laws;
mod rectangle;
mod spans;
mod splits;
pub mod threads;

pub use cuts::cut;
pub use fronts::{Front, take_front};
pub use rectangle::{Rect, area, holds, meet};

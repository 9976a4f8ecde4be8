//! The definitions of a scene: what the screen shows of widgets, open windows and the pointer. Crates above cite them
//! in their contracts; the only code is plain data. docs/MACHINE.md reads them in prose.
#![tactic(auto)]

mod axis;

pub use axis::{Axis, Span};
pub use geom_core::Rect;
pub use kind_core::Shape;

//! What a shown row shows.
use geom_core::Rect;

/// A shown row, which is an open window or a widget under one: the numbers of its parent, none for a window, and of its
/// window, its place, and its shown area, which is the pixels of its place that are shown. In pixels, counted from 0
/// at the screen's upper left corner. See docs/MACHINE.md, "The reach of a change".
#[derive(Clone, Copy, Debug, PartialEq, Eq)]
pub struct Spot {
    pub parent: Option<u32>,
    pub window: u32,
    pub place: Rect,
    pub shown: Rect,
}

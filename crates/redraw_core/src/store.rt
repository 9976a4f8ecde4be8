use crate::overflow::Overflow;
use arrayvec::ArrayVec;
use geom_core::Rect;

/// Dirt: at most 256 rectangles, and a map for what doesn't fit among them.
///
/// No pixel is in two of the rectangles, none is both in a rectangle and true in the map, and each
/// rectangle has a pixel and is on the screen. `area` is the sum of their areas.
pub struct Store {
    /// The rectangles; the last is taken first.
    pub kept: ArrayVec<Rect, 256>,
    /// How many pixels the rectangles have together.
    pub area: u32,
    /// The other dirty pixels.
    pub map: Overflow,
}

impl Drop for Store {
    fn drop(self) {
        let Store {
            kept: _,
            area: _,
            map: _,
        } = self;
    }
}

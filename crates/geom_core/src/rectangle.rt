ghost use Rattle.std.specs.Prelude.{◌≡◌, ℤ, ◌&&◌};
ghost use Rattle.geom_core.specs.Rect.{in_rect, area_of, IsEmpty, IsInRange};

use crate::spans::{is_within, shared};

/// The pixels from `x` to `x + w - 1` across and from `y` to `y + h - 1` down.
///
/// With a width or a height of 0 it has no pixel. Each of the four numbers, and `x + w` and
/// `y + h`, are to be at most 1,048,576 in size where a call asks for it. docs/MACHINE.md has the
/// rule.
#[derive(Clone, Copy, Debug, Default, PartialEq, Eq)]
pub struct Rect {
    /// The leftmost column, in pixels from the screen's left edge; it may be left of the screen.
    pub x: i32,
    /// The uppermost row, in pixels from the screen's upper edge; it may be above the screen.
    pub y: i32,
    /// How many columns, in pixels.
    pub w: u32,
    /// How many rows, in pixels.
    pub h: u32,
}

/// The pixels that are in both rectangles.
///
/// Where they share none, the answer has the corner of `a`, the width 0 and the height 0.
/// docs/MACHINE.md has the rule.
pub fn meet(a: Rect, b: Rect) -> Rect
    ensures pixels { (x y : ℤ) → in_rect result x y ≡ (in_rect a x y && in_rect b x y) }
    ensures empty { IsEmpty result → result ≡ record { x = a.x; y = a.y; w = 0; h = 0 } }
    ensures in_range { IsInRange a → IsInRange result }
{
    let (x, w) = shared(a.x, a.w, b.x, b.w);
    let (y, h) = shared(a.y, a.h, b.y, b.h);
    if w == 0 || h == 0 {
        return Rect {
            x: a.x,
            y: a.y,
            w: 0,
            h: 0,
        };
    }
    Rect { x, y, w, h }
}

/// Whether the pixel (`x`, `y`) is in the rectangle. docs/MACHINE.md has the rule.
pub fn holds(a: Rect, x: i32, y: i32) -> bool
    ensures { result ≡ in_rect a x y }
{
    is_within(a.x, a.w, x) && is_within(a.y, a.h, y)
}

/// How many pixels the rectangle has. docs/MACHINE.md has the rule.
pub fn area(a: Rect) -> u64
    ensures { result ≡ area_of a }
{
    u64::from(a.w) * u64::from(a.h)
}

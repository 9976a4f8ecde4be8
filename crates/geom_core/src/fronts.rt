ghost use Rattle.std.specs.Prelude.{◌≡◌, ℕ, ℤ, ◌-◌, ◌*◌, ◌+◌, ◌≤◌, ◌<◌, min, [], ◌∷◌, ◌++◌};
ghost use Rattle.geom_core.specs.Rect.{in_rect, area_of, IsInRange};
ghost use Rattle.geom_core.specs.Pieces.{covers, total_area, AreDisjoint, HavePixels, AreInRange};
ghost use Rattle.geom_core.specs.Splits.{IsFront};

use crate::rectangle::{Rect, area};
use crate::splits::{put, split_columns, split_rows};
use arrayvec::ArrayVec;

/// A rectangle taken apart: the part that is drawn first, and the part that is left.
#[derive(Debug, Drop)]
pub struct Front {
    /// The pixels that are drawn first, as at most two rectangles.
    pub drawn: ArrayVec<Rect, 2>,
    /// The other pixels, as at most two rectangles.
    pub rest: ArrayVec<Rect, 2>,
}

/// The first `n` pixels of the rectangle, or all where it has fewer, and the others.
///
/// Which pixels come first is free. No two of the rectangles share a pixel, and none is empty. A
/// rectangle of at most `n` pixels is drawn whole. docs/MACHINE.md has the rule.
pub fn take_front(a: Rect, n: u64) -> Front
    requires { IsInRange a }
    ensures pixels { (x y : ℤ) → covers (result.drawn.items ++ result.rest.items) x y ≡ in_rect a x y }
    ensures disjoint { AreDisjoint (result.drawn.items ++ result.rest.items) }
    ensures filled { HavePixels (result.drawn.items ++ result.rest.items) }
    ensures in_range { AreInRange (result.drawn.items ++ result.rest.items) }
    ensures drawn_area { total_area result.drawn.items ≡ min n (area_of a) }
    ensures rest_area { total_area result.rest.items ≡ area_of a - n }
    ensures whole { 0 < area_of a → area_of a ≤ n → result.drawn.items ≡ a ∷ [] }
{
    if area(a) <= n {
        whole(a)
    } else {
        front_lines(a, n)
    }
}

/// All pixels of the rectangle, and no others.
fn whole(a: Rect) -> Front
    requires { IsInRange a }
    ensures front { (n : ℕ) → area_of a ≤ n → IsFront a n result.drawn.items result.rest.items }
    ensures whole { 0 < area_of a → result.drawn.items ≡ a ∷ [] }
{
    let mut drawn = ArrayVec::new();
    put(&mut drawn, a);
    Front {
        drawn,
        rest: ArrayVec::new(),
    }
}

/// The first `n` pixels, row by row, and the others.
fn front_lines(a: Rect, n: u64) -> Front
    requires in_range { IsInRange a }
    requires few { n < area_of a }
    ensures { IsFront a n result.drawn.items result.rest.items }
{
    let width = u64::from(a.w);
    let rows = (n / width) as u32;
    let extra = (n % width) as u32;
    let (upper, others) = split_rows(a, rows);
    // The line that is drawn in part, which has no height where the rows come out even.
    let (line, lower) = split_rows(others, extra.min(1));
    let (left, right) = split_columns(line, extra);
    let mut drawn = ArrayVec::new();
    put(&mut drawn, upper);
    put(&mut drawn, left);
    let mut rest = ArrayVec::new();
    put(&mut rest, right);
    put(&mut rest, lower);
    Front { drawn, rest }
}

ghost use Rattle.std.specs.Prelude.{◌≡◌, ℤ, pos, ◌+ℤ◌, ◌&&◌, not, ◌+◌, ◌≤◌, ◌<◌, length};
ghost use Rattle.geom_core.specs.declared.rectangle.Rect.{Rect as Rectangle};
ghost use Rattle.geom_core.specs.Rect.{in_rect, area_of, IsInRange, IsEnclosed};
ghost use Rattle.geom_core.specs.Pieces.{covers, total_area, AreDisjoint, HavePixels, AreInRange};
ghost use Rattle.geom_core.specs.Splits.{IsCut};

use crate::rectangle::{Rect, meet};
use crate::splits::{put, split_columns, split_rows};
use arrayvec::ArrayVec;

/// The pixels of `a` that are outside `b`, as at most four rectangles.
///
/// No two of them share a pixel, and none is empty. The areas of the answer and of what `a` and
/// `b` share add up to the area of `a`. docs/MACHINE.md has the rule.
pub fn cut(a: Rect, b: Rect) -> ArrayVec<Rect, 4>
    requires { IsInRange a }
    ensures pixels { (x y : ℤ) → covers result.items x y ≡ (in_rect a x y && not (in_rect b x y)) }
    ensures disjoint { AreDisjoint result.items }
    ensures filled { HavePixels result.items }
    ensures in_range { AreInRange result.items }
    ensures areas { (shared : Rectangle) → ((x y : ℤ) → in_rect shared x y ≡ (in_rect a x y && in_rect b x y))
        → total_area result.items + area_of shared ≡ area_of a }
    ensures count { length result.items ≤ 4 }
{
    pieces(a, meet(a, b))
}

/// The pixels of `a` outside a hole, which is empty or in `a`.
fn pieces(a: Rect, hole: Rect) -> ArrayVec<Rect, 4>
    requires in_range { IsInRange a }
    requires inside { 0 < area_of hole → IsEnclosed hole a }
    ensures { IsCut a hole result.items }
{
    if hole.w == 0 || hole.h == 0 {
        return uncut(a);
    }
    cut_around(a, hole)
}

/// All pixels of `a`.
fn uncut(a: Rect) -> ArrayVec<Rect, 4>
    requires { IsInRange a }
    ensures { (hole : Rectangle) → area_of hole ≡ 0 → IsCut a hole result.items }
{
    let mut parts = ArrayVec::new();
    put(&mut parts, a);
    parts
}

/// The pixels of `a` outside a hole in it: those above the hole, left of it, right of it and
/// below it.
fn cut_around(a: Rect, hole: Rect) -> ArrayVec<Rect, 4>
    requires in_range { IsInRange a }
    requires inside { IsEnclosed hole a }
    ensures { IsCut a hole result.items }
{
    let (above, rest) = split_rows(a, rows_above(a, hole));
    let (middle, below) = split_rows(rest, hole.h);
    let (left, rest) = split_columns(middle, columns_left(middle, hole));
    let (_, right) = split_columns(rest, hole.w);
    let mut parts = ArrayVec::new();
    put(&mut parts, above);
    put(&mut parts, left);
    put(&mut parts, right);
    put(&mut parts, below);
    parts
}

/// How many rows of `a` are above the hole.
fn rows_above(a: Rect, hole: Rect) -> u32
    requires in_range { IsInRange a }
    requires inside { IsEnclosed hole a }
    ensures { a.y +ℤ pos result ≡ hole.y }
{
    (hole.y - a.y) as u32
}

/// How many columns of `a` are left of the hole.
fn columns_left(a: Rect, hole: Rect) -> u32
    requires in_range { IsInRange a }
    requires inside { IsEnclosed hole a }
    ensures { a.x +ℤ pos result ≡ hole.x }
{
    (hole.x - a.x) as u32
}

// A rectangle split into two, and lists of parts.
ghost use Rattle.std.specs.Prelude.{◌≡◌, ◌+◌, ◌≤◌, ◌<◌, length};
ghost use Rattle.geom_core.specs.Rect.{IsInRange};
ghost use Rattle.geom_core.specs.Splits.{upper_rows, lower_rows, left_columns, right_columns, IsSplit, with_part};

use crate::rectangle::Rect;
use arrayvec::ArrayVec;

/// The upper rows of a rectangle, and the rows below them.
pub fn split_rows(a: Rect, rows: u32) -> (Rect, Rect)
    requires in_range { IsInRange a }
    requires fits { rows ≤ a.h }
    ensures upper { result.0 ≡ upper_rows a rows }
    ensures lower { result.1 ≡ lower_rows a rows }
    ensures split { IsSplit a result.0 result.1 }
{
    let upper = Rect { h: rows, ..a };
    let lower = Rect {
        y: a.y + rows as i32,
        h: a.h - rows,
        ..a
    };
    (upper, lower)
}

/// The left columns of a rectangle, and the columns right of them.
pub fn split_columns(a: Rect, columns: u32) -> (Rect, Rect)
    requires in_range { IsInRange a }
    requires fits { columns ≤ a.w }
    ensures left { result.0 ≡ left_columns a columns }
    ensures right { result.1 ≡ right_columns a columns }
    ensures split { IsSplit a result.0 result.1 }
{
    let left = Rect { w: columns, ..a };
    let right = Rect {
        x: a.x + columns as i32,
        w: a.w - columns,
        ..a
    };
    (left, right)
}

/// Puts the part at the end of the list, unless it has no pixel.
#[tactic(auto, unfolding(crate::specs::Splits::with_part))]
pub fn put<const N: usize>(parts: &mut ArrayVec<Rect, N>, part: Rect)
    requires { length parts.old.items < N }
    ensures items { parts.new.items ≡ with_part parts.old.items part }
    ensures grows { length parts.new.items ≤ length parts.old.items + 1 }
{
    if part.w != 0 && part.h != 0 {
        parts.push(part);
    }
}

// Two rectangles: whether they may share a pixel, and what they are together where one continues the other.
ghost use Rattle.std.specs.Prelude.{◌≡◌, pos, ◌+ℤ◌, ◌↔◌, IsTrue, IsSome, IfSome};
ghost use Rattle.geom_core.specs.Rect.{IsInRange};
ghost use Rattle.redraw_core.specs.Pairs.{spans_meet, may_meet, IsBelow, IsBeside, IsJoined};

use geom_core::Rect;

/// The place behind a span's last.
fn end_of(from: i32, len: u32) -> i64
    ensures { result ≡ from +ℤ pos len }
{
    i64::from(from) + i64::from(len)
}

/// Whether each of two spans starts before the other's end.
fn spans_touch(from: i32, len: u32, start: i32, size: u32) -> bool
    ensures { result ≡ spans_meet from len start size }
{
    i64::from(from) < end_of(start, size) && i64::from(start) < end_of(from, len)
}

/// Whether the rectangles may share a pixel: where the answer is false, they share none.
pub fn meets(a: Rect, b: Rect) -> bool
    ensures { result ≡ may_meet a b }
{
    spans_touch(a.x, a.w, b.x, b.w) && spans_touch(a.y, a.h, b.y, b.h)
}

/// Whether the second rectangle continues the first below it.
fn is_below(first: Rect, second: Rect) -> bool
    ensures { IsTrue result ↔ IsBelow first second }
{
    first.x == second.x && first.w == second.w && end_of(first.y, first.h) == i64::from(second.y)
}

/// Whether the second rectangle continues the first to its right.
fn is_beside(first: Rect, second: Rect) -> bool
    ensures { IsTrue result ↔ IsBeside first second }
{
    first.y == second.y && first.h == second.h && end_of(first.x, first.w) == i64::from(second.x)
}

/// The rectangle with the pixels of both, where the second continues the first below it or to its right.
fn continued(first: Rect, second: Rect) -> Option<Rect>
    requires first { IsInRange first }
    requires second { IsInRange second }
    ensures pixels { IfSome result (λ whole. IsJoined whole first second) }
    ensures below { IsBelow first second → IsSome result }
    ensures beside { IsBeside first second → IsSome result }
{
    if is_below(first, second) {
        return Some(Rect {
            h: first.h + second.h,
            ..first
        });
    }
    if is_beside(first, second) {
        return Some(Rect {
            w: first.w + second.w,
            ..first
        });
    }
    None
}

/// The rectangle with the pixels of both, where one continues the other.
pub fn joined(a: Rect, b: Rect) -> Option<Rect>
    requires first { IsInRange a }
    requires second { IsInRange b }
    ensures { IfSome result (λ whole. IsJoined whole a b) }
{
    match continued(a, b) {
        Some(whole) => Some(whole),
        None => continued(b, a),
    }
}

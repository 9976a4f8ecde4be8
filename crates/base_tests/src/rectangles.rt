//! Rectangles, written `x y w h`.
ghost use Rattle.std.specs.Prelude.{IfOk};
ghost use Rattle.std.specs.Bool.{OnTrue};
ghost use Rattle.geom_core.specs.Rect.{IsInRange, IsNear};

use crate::tables::{coordinate, count, length, rows, word};
use geom_core::{Rect, area, cut, holds, meet, take_front};
use std::process::Abort;
use std::str::SplitWhitespace;
use std::test::Fail;

/// The next rectangle of a row.
fn rect(words: &mut SplitWhitespace<'_>) -> Result<Rect, Fail> {
    Ok(Rect {
        x: coordinate(words)?,
        y: coordinate(words)?,
        w: length(words)?,
        h: length(words)?,
    })
}

/// Two rectangles, and what they share.
const MEETS: &str = "
0 0 4 4   4 0 4 4   0 0 0 0
0 0 4 4   3 3 4 4   3 3 1 1
-2 -3 5 6   0 0 8 8   0 0 3 3
1 2 3 4   0 0 9 9   1 2 3 4
1 2 0 4   0 0 9 9   1 2 0 0
0 0 9 9   1 2 3 0   0 0 0 0
-1048576 -1048576 1048576 1048576   -1 -1 2 2   -1 -1 1 1
1048575 0 1 1   0 0 1048576 1   1048575 0 1 1
2147483647 0 4294967295 1   0 0 2147483648 1   2147483647 0 1 1
";

fn meets(rt: &impl Abort, table: &str) -> Result<(), Fail> {
    for row in rows(rt, table) {
        let mut words = row.split_whitespace();
        let shared = meet(rect(&mut words)?, rect(&mut words)?);
        assert_eq!(rt; shared, rect(&mut words)?, "at {row}");
    }
    Ok(())
}

#[test]
fn meet_has_what_is_in_both(rt: HostRuntime) -> Result<(), Fail> {
    meets(&rt, MEETS)
}

/// A rectangle, a pixel, and whether it is in there.
const HOLDS: &str = "
0 0 2 3   0 0   true
0 0 2 3   1 2   true
0 0 2 3   2 0   false
0 0 2 3   0 3   false
0 0 2 3   -1 0   false
-5 -5 0 9   -5 -5   false
1048575 -1048576 1 1   1048575 -1048576   true
2147483647 0 4294967295 1   2147483647 0   true
";

fn are_held(rt: &impl Abort, table: &str) -> Result<(), Fail> {
    for row in rows(rt, table) {
        let mut words = row.split_whitespace();
        let held = holds(
            rect(&mut words)?,
            coordinate(&mut words)?,
            coordinate(&mut words)?,
        );
        assert_eq!(rt; held, word(&mut words)? == "true", "at {row}");
    }
    Ok(())
}

#[test]
fn holds_its_own_pixels(rt: HostRuntime) -> Result<(), Fail> {
    are_held(&rt, HOLDS)
}

/// A rectangle and its area.
const AREAS: &str = "
-3 5 4 6   24
0 0 0 7   0
0 0 1048576 1048576   1099511627776
";

fn have_areas(rt: &impl Abort, table: &str) -> Result<(), Fail> {
    for row in rows(rt, table) {
        let mut words = row.split_whitespace();
        let pixels = area(rect(&mut words)?);
        assert_eq!(rt; pixels, count(&mut words)?, "at {row}");
    }
    Ok(())
}

#[test]
fn area_is_width_times_height(rt: HostRuntime) -> Result<(), Fail> {
    have_areas(&rt, AREAS)
}

/// The next rectangle of a row, whose pixels are all within 1,048,576 of the corner of the screen.
fn near(words: &mut SplitWhitespace<'_>) -> Result<Rect, Fail>
    ensures { IfOk result (λ r. IsInRange r) }
{
    let near = rect(words)?;
    if !is_near(near.x, near.w) || !is_near(near.y, near.h) {
        return Err("a rectangle is too far".into());
    }
    Ok(near)
}

/// Whether the integers from `from` on, so many, lie within 1,048,576 of 0.
fn is_near(from: i32, len: u32) -> bool
    ensures { OnTrue result (IsNear from len) }
{
    from >= -1_048_576
        && from <= 1_048_576
        && len <= 1_048_576
        && i64::from(from) + i64::from(len) <= 1_048_576
}

fn sum_of_areas(parts: &[Rect]) -> u64 {
    let mut sum = 0u64;
    for part in parts {
        sum = sum.saturating_add(area(*part));
    }
    sum
}

/// A rectangle, a hole, and how many pixels are left.
const CUTS: &str = "
0 0 10 10   2 2 3 3   91
2 3 7 8   2 3 7 8   0
2 3 7 8   9 3 4 4   56
2 3 7 8   3 4 0 5   56
2 3 0 8   2 3 7 8   0
-1048576 -1048576 1048576 1048576   -1 -1 1 1   1099511627775
";

fn leave_pixels(rt: &impl Abort, table: &str) -> Result<(), Fail> {
    for row in rows(rt, table) {
        let mut words = row.split_whitespace();
        let parts = cut(near(&mut words)?, rect(&mut words)?);
        let left = count(&mut words)?;
        assert_eq!(rt; sum_of_areas(parts.as_slice()), left, "at {row}");
        assert_eq!(rt; parts.is_empty(), left == 0, "at {row}");
    }
    Ok(())
}

#[test]
fn cut_leaves_the_pixels_outside(rt: HostRuntime) -> Result<(), Fail> {
    leave_pixels(&rt, CUTS)
}

/// A rectangle, and a hole that shares no pixel with it.
const UNCUT: &str = "
2 3 7 8   9 3 4 4
2 3 7 8   3 4 0 5
";

fn leave_the_whole(rt: &impl Abort, table: &str) -> Result<(), Fail> {
    for row in rows(rt, table) {
        let mut words = row.split_whitespace();
        let whole = near(&mut words)?;
        let parts = cut(whole, rect(&mut words)?);
        assert_eq!(rt; parts.as_slice(), [whole].as_slice(), "at {row}");
    }
    Ok(())
}

#[test]
fn cut_leaves_the_whole_beside_a_hole(rt: HostRuntime) -> Result<(), Fail> {
    leave_the_whole(&rt, UNCUT)
}

/// A rectangle, a number of pixels, how many are drawn, and how many are left.
const FRONTS: &str = "
2 3 7 8   0   0 56
2 3 7 8   1   1 55
2 3 7 8   7   7 49
2 3 7 8   10   10 46
2 3 7 8   55   55 1
2 3 7 8   56   56 0
2 3 7 8   99   56 0
2 3 7 0   5   0 0
";

fn take_pixels(rt: &impl Abort, table: &str) -> Result<(), Fail> {
    for row in rows(rt, table) {
        let mut words = row.split_whitespace();
        let front = take_front(near(&mut words)?, count(&mut words)?);
        let drawn = count(&mut words)?;
        let rest = count(&mut words)?;
        assert_eq!(rt; sum_of_areas(front.drawn.as_slice()), drawn, "at {row}");
        assert_eq!(rt; sum_of_areas(front.rest.as_slice()), rest, "at {row}");
        assert_eq!(rt; front.drawn.is_empty(), drawn == 0, "at {row}");
        assert_eq!(rt; front.rest.is_empty(), rest == 0, "at {row}");
    }
    Ok(())
}

#[test]
fn take_front_draws_so_many_pixels(rt: HostRuntime) -> Result<(), Fail> {
    take_pixels(&rt, FRONTS)
}

/// A rectangle of so many pixels at most.
const WHOLE: &str = "
2 3 7 8   56
2 3 7 8   99
";

fn take_the_whole(rt: &impl Abort, table: &str) -> Result<(), Fail> {
    for row in rows(rt, table) {
        let mut words = row.split_whitespace();
        let whole = near(&mut words)?;
        let front = take_front(whole, count(&mut words)?);
        assert_eq!(rt; front.drawn.as_slice(), [whole].as_slice(), "at {row}");
    }
    Ok(())
}

#[test]
fn take_front_draws_a_small_rectangle_whole(rt: HostRuntime) -> Result<(), Fail> {
    take_the_whole(&rt, WHOLE)
}

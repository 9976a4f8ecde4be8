//! Rectangles added and taken: what is off the screen, what is given whole, and what is joined.
use crate::singles::{add_apart, queue_of_64};
use geom_core::Rect;
use redraw_core::Queue;
use std::alloc::Global;
use std::test::Fail;

/// The count after each of two adds of one rectangle.
fn added_twice(alloc: Global, rect: Rect) -> Result<(u32, u32), Fail> {
    let mut queue = queue_of_64(alloc)?;
    queue.add(rect);
    let once = queue.count();
    queue.add(rect);
    Ok((once, queue.count()))
}

/// What `next` gives after one rectangle was added, and after that.
fn given(alloc: Global, rect: Rect, n: u32) -> Result<(Option<Rect>, Option<Rect>), Fail> {
    let mut queue = queue_of_64(alloc)?;
    queue.add(rect);
    let first = queue.next(n.max(1));
    Ok((first, queue.next(1)))
}

/// Adds strips of 64 columns and one row, the upper one first.
fn add_strips(queue: &mut Queue) {
    for y in 0..64u32 {
        queue.add(Rect {
            x: 0,
            y: y as i32,
            w: 64,
            h: 1,
        });
    }
}

/// What `next` gives after strips that continue each other were added.
fn strips(alloc: Global) -> Result<Option<Rect>, Fail> {
    let mut queue = queue_of_64(alloc)?;
    add_strips(&mut queue);
    Ok(queue.next(4096))
}

/// Adds 256 single pixels, which are as many rectangles as are kept, and then two runs of row 63: 24 pixels to its
/// end, and 5 in its midst.
fn add_runs(queue: &mut Queue) {
    add_apart(queue, 256);
    for (x, w) in [(40, 24), (10, 5)] {
        queue.add(Rect { x, y: 63, w, h: 1 });
    }
}

/// The widths of what `next(n)` gives of row 63, in the order of their columns, each with the column before it.
fn widths_of_runs(queue: &mut Queue, n: u32) -> [(i32, u32); 5] {
    let mut found = [(-1, 0); 5];
    let mut count = 0;
    for _ in 0..300 {
        match queue.next(n.max(1)) {
            Some(rect) => {
                if rect.y == 63 && count < 5 {
                    found[count] = (rect.x, rect.w);
                    count += 1;
                }
            }
            None => return found,
        }
    }
    found
}

/// What `next(n)` gives of the two runs of row 63.
fn runs(alloc: Global, n: u32) -> Result<[(i32, u32); 5], Fail> {
    let mut queue = queue_of_64(alloc)?;
    add_runs(&mut queue);
    Ok(widths_of_runs(&mut queue, n))
}

#[test]
fn what_is_off_the_screen_is_not_counted(rt: HostRuntime) -> Result<(), Fail> {
    let corner = Rect {
        x: -5,
        y: -5,
        w: 10,
        h: 10,
    };
    assert_eq!(rt; added_twice(rt.alloc(), corner)?, (25, 25));
    Ok(())
}

#[test]
fn a_rectangle_that_is_not_too_large_is_given_whole(rt: HostRuntime) -> Result<(), Fail> {
    let rect = Rect {
        x: 3,
        y: 4,
        w: 20,
        h: 10,
    };
    assert_eq!(rt; given(rt.alloc(), rect, 200)?, (Some(rect), None));
    Ok(())
}

#[test]
fn strips_that_continue_each_other_are_given_as_one(rt: HostRuntime) -> Result<(), Fail> {
    assert_eq!(rt;
        strips(rt.alloc())?,
        Some(Rect {
            x: 0,
            y: 0,
            w: 64,
            h: 64
        })
    );
    Ok(())
}

#[test]
fn whole_rows_of_a_rectangle_are_given(rt: HostRuntime) -> Result<(), Fail> {
    let rect = Rect {
        x: 3,
        y: 4,
        w: 20,
        h: 10,
    };
    let rows = Rect { h: 2, ..rect };
    assert_eq!(rt; given(rt.alloc(), rect, 59)?.0, Some(rows));
    Ok(())
}

#[test]
fn a_run_of_the_map_is_given_as_far_as_it_goes(rt: HostRuntime) -> Result<(), Fail> {
    let ends = [(10, 5), (40, 16), (56, 8), (-1, 0), (-1, 0)];
    assert_eq!(rt; runs(rt.alloc(), 16)?, ends);
    Ok(())
}

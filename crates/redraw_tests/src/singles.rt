//! Single pixels: added one by one, and taken one by one to the end.
use geom_core::Rect;
use redraw_core::Queue;
use std::alloc::Global;
use std::test::Fail;

/// A queue for a screen of 64 by 64 pixels.
pub fn queue_of_64(alloc: Global) -> Result<Queue, Fail> {
    match Queue::new(alloc, 64, 64) {
        Ok(queue) => Ok(queue),
        Err(_) => Err("there is no memory".into()),
    }
}

/// The pixel in column `x` of row `y`.
fn pixel(x: u32, y: u32) -> Rect {
    Rect {
        x: x.min(63) as i32,
        y: y.min(63) as i32,
        w: 1,
        h: 1,
    }
}

/// Adds the pixels with an even sum of column and row, one by one, and answers the count.
fn add_checkers(queue: &mut Queue) -> u32 {
    for k in 0..4096u32 {
        if (k % 64 + k / 64) % 2 == 0 {
            queue.add(pixel(k % 64, k / 64));
        }
    }
    queue.count()
}

/// Adds `most` pixels of which no two touch, one by one, and answers the count.
pub fn add_apart(queue: &mut Queue, most: u32) -> u32 {
    for k in 0..most {
        queue.add(pixel(k % 32 * 2, k / 32 * 2));
    }
    queue.count()
}

/// Marks a pixel of the screen as seen; whether the rectangle is one pixel that wasn't.
fn is_new(seen: &mut Vec<bool>, rect: Rect) -> bool {
    if rect.w != 1 || rect.h != 1 || rect.x < 0 || rect.x > 63 || rect.y < 0 || rect.y > 63 {
        return false;
    }
    match seen.get_mut(rect.y as usize * 64 + rect.x as usize) {
        Some(cell) => {
            let was = *cell;
            *cell = true;
            !was
        }
        None => false,
    }
}

/// How many different pixels `next(1)` gives to the end, or 9,999 where it gives anything else.
fn singles_left(queue: &mut Queue, seen: &mut Vec<bool>) -> u32 {
    for count in 0..5000u32 {
        match queue.next(1) {
            Some(rect) => {
                if !is_new(seen, rect) {
                    return 9999;
                }
            }
            None => return count,
        }
    }
    9999
}

/// The count after the checkers were added, and how many pixels are taken then.
fn checkers(alloc: Global) -> Result<(u32, u32), Fail> {
    let mut queue = queue_of_64(alloc)?;
    let mut seen = Vec::from_elem(alloc, false, 4096)?;
    let added = add_checkers(&mut queue);
    let taken = singles_left(&mut queue, &mut seen);
    Ok((added, taken))
}

/// The count after that many pixels apart were added, and how many pixels are taken then.
fn apart(alloc: Global, most: u32) -> Result<(u32, u32), Fail> {
    let mut queue = queue_of_64(alloc)?;
    let mut seen = Vec::from_elem(alloc, false, 4096)?;
    let added = add_apart(&mut queue, most);
    let taken = singles_left(&mut queue, &mut seen);
    Ok((added, taken))
}

#[test]
fn a_checkerboard_is_taken_pixel_by_pixel(rt: HostRuntime) -> Result<(), Fail> {
    assert_eq!(rt; checkers(rt.alloc())?, (2048, 2048));
    Ok(())
}

#[test]
fn one_rectangle_more_than_are_kept_is_not_lost(rt: HostRuntime) -> Result<(), Fail> {
    assert_eq!(rt; apart(rt.alloc(), 257)?, (257, 257));
    Ok(())
}

//! A queue beside a plain map of truth values, over all rectangles of a grid of 16 by 16 in a scrambled order.
ghost use Rattle.std.specs.Prelude.{◌≡◌};

use geom_core::{Rect, holds};
use redraw_core::Queue;
use std::alloc::Global;
use std::test::Fail;

/// The rectangle with these corners, both in it, which are below 16; None where they stand the wrong way round.
fn between(left: u32, upper: u32, right: u32, lower: u32) -> Option<Rect> {
    if left > right || upper > lower || right > 15 || lower > 15 {
        return None;
    }
    Some(Rect {
        x: left as i32,
        y: upper as i32,
        w: right - left + 1,
        h: lower - upper + 1,
    })
}

/// The rectangle with that number below 65,536, in an order that jumps about; each rectangle of the grid comes once.
fn scrambled(number: u32) -> Option<Rect> {
    let k = number % 65536 * 40503 % 65536;
    between(k % 16, k / 16 % 16, k / 256 % 16, k / 4096 % 16)
}

/// Sets the plain map's values of the rectangle's pixels; how many changed.
fn set_plain(plain: &mut Vec<bool>, rect: Rect, value: bool) -> u32 {
    let mut changed = 0;
    for k in 0..256u32 {
        if holds(rect, (k % 16) as i32, (k / 16) as i32) {
            if let Some(cell) = plain.get_mut(k as usize) {
                if *cell != value {
                    changed += 1;
                }
                *cell = value;
            }
        }
    }
    changed
}

/// Whether the queue says of each pixel what the plain map says, and counts as many.
fn agrees(queue: &Queue, plain: &[bool]) -> bool
    requires width { queue.now.width ≡ 16 }
    requires height { queue.now.height ≡ 16 }
{
    let mut count = 0;
    for k in 0..256u32 {
        let is_dirty = queue.holds(k % 16, k / 16);
        if plain.get(k as usize) != Some(&is_dirty) {
            return false;
        }
        if is_dirty {
            count += 1;
        }
    }
    count == queue.count()
}

/// Takes 1 to `n` pixels; whether each was dirty in the plain map, where they are clean then.
fn takes(queue: &mut Queue, plain: &mut Vec<bool>, n: u32) -> bool
    requires width { queue.old.width ≡ 16 }
    requires height { queue.old.height ≡ 16 }
    ensures width { queue.new.width ≡ 16 }
    ensures height { queue.new.height ≡ 16 }
{
    match queue.next(n.max(1)) {
        Some(rect) => set_plain(plain, rect, false) == rect.w * rect.h
            && rect.w * rect.h <= n.max(1),
        None => queue.count() == 0,
    }
}

/// Adds the rectangle with that number to both, at each third number takes some pixels, and at each 64th compares
/// them; whether all was well.
fn step(queue: &mut Queue, plain: &mut Vec<bool>, number: u32) -> bool
    requires width { queue.old.width ≡ 16 }
    requires height { queue.old.height ≡ 16 }
    ensures width { queue.new.width ≡ 16 }
    ensures height { queue.new.height ≡ 16 }
{
    if let Some(rect) = scrambled(number) {
        queue.add(rect);
        set_plain(plain, rect, true);
    }
    if number % 3 == 0 && !takes(queue, plain, number % 40) {
        return false;
    }
    number % 64 != 0 || agrees(queue, plain)
}

/// Goes through all numbers, then takes single pixels to the end; the number of steps that were well, and how
/// many pixels are dirty at the end.
fn walk(queue: &mut Queue, plain: &mut Vec<bool>) -> (u32, u32)
    requires width { queue.old.width ≡ 16 }
    requires height { queue.old.height ≡ 16 }
{
    for number in 0..65536u32 {
        if !step(queue, plain, number) {
            return (number, 9999);
        }
    }
    for left in 0..256u32 {
        if !takes(queue, plain, 1) {
            return (65536, 9999 + left);
        }
    }
    (65536, queue.count())
}

/// A walk with a new queue and a clean map.
fn walked(alloc: Global) -> Result<(u32, u32), Fail> {
    let mut plain = Vec::from_elem(alloc, false, 256)?;
    match Queue::new(alloc, 16, 16) {
        Ok(mut queue) => Ok(walk(&mut queue, &mut plain)),
        Err(_) => Err("there is no memory".into()),
    }
}

/// Adds all rectangles of the grid; the count after it, and how many single pixels are taken then.
fn add_all(queue: &mut Queue) -> (u32, u32) {
    for number in 0..65536u32 {
        if let Some(rect) = scrambled(number) {
            queue.add(rect);
        }
    }
    let added = queue.count();
    for taken in 0..300u32 {
        if queue.next(1).is_none() {
            return (added, taken);
        }
    }
    (added, 9999)
}

/// All rectangles added to a new queue.
fn all_added(alloc: Global) -> Result<(u32, u32), Fail> {
    match Queue::new(alloc, 16, 16) {
        Ok(mut queue) => Ok(add_all(&mut queue)),
        Err(_) => Err("there is no memory".into()),
    }
}

#[test]
fn a_queue_says_what_a_plain_map_says(rt: HostRuntime) -> Result<(), Fail> {
    assert_eq!(rt; walked(rt.alloc())?, (65536, 0));
    Ok(())
}

#[test]
fn all_rectangles_of_a_grid_are_256_pixels(rt: HostRuntime) -> Result<(), Fail> {
    assert_eq!(rt; all_added(rt.alloc())?, (256, 256));
    Ok(())
}

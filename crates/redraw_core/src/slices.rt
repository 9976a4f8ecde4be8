// Runs of one row of the screen, as rectangles.
ghost use Rattle.std.specs.Prelude.{◌≡◌, ◌+◌, ◌-◌, ◌*◌, ◌/◌, ◌%◌, ◌<◌, ◌≤◌, ◌^◌, pos, min};

use geom_core::Rect;

/// The greatest end of a run of at most `n` cells from `start` on within its row.
pub fn last_end(start: usize, width: u32, n: u32) -> usize
    requires wide { 1 ≤ width }
    requires some { 1 ≤ n }
    requires small { start < 2 ^ 31 }
    ensures after { start < result }
    ensures most { result ≤ start + n }
    ensures row { result ≤ start - start % width + width }
    ensures greatest { result ≡ min (start + n) (start - start % width + width) }
{
    let row = start - start % width as usize;
    (start + n as usize).min(row + width as usize)
}

/// The pixels of a run of cells of one row, as a rectangle of height 1.
pub fn run_rect(start: usize, end: usize, width: u32) -> Rect
    requires wide { 1 ≤ width }
    requires order { start ≤ end }
    requires small { end < 2 ^ 31 }
    ensures { result ≡ record { x = pos (start % width); y = pos (start / width); w = end - start; h = 1 } }
{
    let width = width as usize;
    Rect {
        x: (start % width) as i32,
        y: (start / width) as i32,
        w: (end - start) as u32,
        h: 1,
    }
}

// Rectangles of cells, written row by row.
ghost use Rattle.std.specs.Prelude.{◌≡◌, ◌<◌, ◌≤◌, ◌^◌, pos, ◌≤ℤ◌, nat_abs, length};
ghost use Rattle.geom_core.specs.Rect.{in_rect};
ghost use Rattle.redraw_core.specs.Cells.{at_index, IsMarked, IsErased, IsWithin};

use crate::runs::{erase_run, mark_run};
use geom_core::Rect;

/// The column and the row of a rectangle's corner, of which none is negative.
pub fn corner_of(rect: Rect) -> (usize, usize)
    requires left { pos 0 ≤ℤ rect.x }
    requires upper { pos 0 ≤ℤ rect.y }
    ensures column { result.0 ≡ nat_abs rect.x }
    ensures row { result.1 ≡ nat_abs rect.y }
{
    (rect.x as usize, rect.y as usize)
}

/// Makes the cells of the rectangle true, and answers how many were false. Rows have `width` cells.
pub fn mark_rows(cells: &mut [bool], width: u32, rect: Rect) -> u32
    requires wide { 1 ≤ width }
    requires within { IsWithin rect width (length cells.old) }
    requires small { length cells.old < 2 ^ 31 }
    ensures { IsMarked (at_index (in_rect rect) width) result cells.old cells.new }
{
    let (x, y) = corner_of(rect);
    let mut more = 0;
    for row in 0..rect.h {
        let from = (y + row as usize) * width as usize + x;
        more += mark_run(cells, from, from + rect.w as usize);
    }
    more
}

/// Makes the cells of the rectangle false, and answers how many were true. Rows have `width` cells.
pub fn erase_rows(cells: &mut [bool], width: u32, rect: Rect) -> u32
    requires wide { 1 ≤ width }
    requires within { IsWithin rect width (length cells.old) }
    requires small { length cells.old < 2 ^ 31 }
    ensures { IsErased (at_index (in_rect rect) width) result cells.old cells.new }
{
    let (x, y) = corner_of(rect);
    let mut fewer = 0;
    for row in 0..rect.h {
        let from = (y + row as usize) * width as usize + x;
        fewer += erase_run(cells, from, from + rect.w as usize);
    }
    fewer
}

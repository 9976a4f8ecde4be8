ghost use Rattle.std.specs.Prelude.{◌≡◌, ◌≤◌, ◌*◌, ◌<◌, pos, ◌&&◌, ◌||◌, not, false, replicate, IfOk, IfNone, IfSome};
ghost use Rattle.geom_core.specs.Rect.{in_rect, IsEnclosed};
ghost use Rattle.geom_core.specs.Count.{screen_of};
ghost use Rattle.redraw_core.specs.Dirt.{IsDirt, IsClean, IsTaken, EachPixel, is_dirty, dirty_count};
ghost use Rattle.redraw_core.specs.Marking.{IsLongest};

use crate::no_memory::NoMemory;
use crate::rows::{corner_of, erase_rows, mark_rows};
use crate::runs::{erase_run, first_true, run_end};
use crate::slices::{last_end, run_rect};
use geom_core::Rect;
use std::alloc::Global;
use std::marker::Model;

/// A truth value for each pixel of a screen: where the dirt goes that doesn't fit among the rectangles.
///
/// Contracts see the dirt, row after row from the top. `first` is a place before which no cell is true,
/// so that taking all of the map goes over it once. docs/MACHINE.md, "What is left to draw".
pub struct Overflow {
    width: u32,
    height: u32,
    cells: Vec<bool>,
    count: u32,
    first: usize,
}

impl Model for Overflow {
    ghost use Rattle.redraw_core.specs.Dirt.{Dirt};
    ghost use Rattle.redraw_core.specs.Marking.{IsOverflow};

    ghost Value = { Dirt };

    ghost view = { λ m. record { width = m.width; height = m.height; marks = m.cells.items } };

    ghost invariant = { λ m. IsOverflow (record {
      width = m.width;
      height = m.height;
      marks = m.cells.items;
    }) m.count m.first };
}

impl Drop for Overflow {
    fn drop(self) {
        let Overflow {
            width: _,
            height: _,
            cells: _,
            count: _,
            first: _,
        } = self;
    }
}

impl Overflow {
    /// A map of `width` by `height` pixels with no true value. `NoMemory` comes only for want of memory.
    pub fn new(alloc: Global, width: u32, height: u32) -> Result<Overflow, NoMemory>
        requires least_width { 1 ≤ width }
        requires greatest_width { width ≤ 4096 }
        requires greatest_height { height ≤ 4096 }
        ensures width { IfOk result (λ m. m.width ≡ width) }
        ensures height { IfOk result (λ m. m.height ≡ height) }
        ensures clean { IfOk result (λ m. m.marks ≡ replicate (width * height) false) }
        ensures valid { IfOk result (λ m. IsDirt m) }
    {
        match Vec::from_elem(alloc, false, width as usize * height as usize) {
            Ok(cells) => Ok(Overflow {
                width,
                height,
                cells,
                count: 0,
                first: 0,
            }),
            Err(_) => Err(NoMemory),
        }
    }

    /// How many columns the screen has.
    pub fn width(&self) -> u32
        ensures width { result ≡ self.now.width }
        ensures valid { IsDirt self.now }
    {
        self.width
    }

    /// How many rows the screen has.
    pub fn height(&self) -> u32
        ensures height { result ≡ self.now.height }
        ensures valid { IsDirt self.now }
    {
        self.height
    }

    /// How many values are true.
    pub fn count(&self) -> u32
        ensures count { result ≡ dirty_count self.now }
        ensures valid { IsDirt self.now }
    {
        self.count
    }

    /// Whether the value of the pixel (x, y) is true.
    pub fn holds(&self, x: u32, y: u32) -> bool
        requires on_row { x < self.now.width }
        requires on_screen { y < self.now.height }
        ensures pixel { result ≡ is_dirty self.now x y }
    {
        self.cells[y as usize * self.width as usize + x as usize]
    }

    /// Makes the values of the rectangle's pixels true.
    pub fn mark(&mut self, rect: Rect)
        requires { IsEnclosed rect (screen_of self.old.width self.old.height) }
        ensures width { self.new.width ≡ self.old.width }
        ensures height { self.new.height ≡ self.old.height }
        ensures pixels { EachPixel self.old (λ x y.
            is_dirty self.new x y ≡ (is_dirty self.old x y || in_rect rect (pos x) (pos y))) }
        ensures valid { IsDirt self.new }
    {
        let (_, y) = corner_of(rect);
        self.count += mark_rows(&mut self.cells, self.width, rect);
        self.first = self.first.min(y * self.width as usize);
    }

    /// Makes the values of the rectangle's pixels false.
    pub fn erase(&mut self, rect: Rect)
        requires { IsEnclosed rect (screen_of self.old.width self.old.height) }
        ensures width { self.new.width ≡ self.old.width }
        ensures height { self.new.height ≡ self.old.height }
        ensures pixels { EachPixel self.old (λ x y.
            is_dirty self.new x y ≡ (is_dirty self.old x y && not (in_rect rect (pos x) (pos y)))) }
        ensures valid { IsDirt self.new }
    {
        if self.count == 0 {
            return;
        }
        self.count -= erase_rows(&mut self.cells, self.width, rect);
    }

    /// Takes a run of 1 to `n` true values of one row, which become false; None exactly where none is true. It has
    /// `n` of them, or ends where its row does, or a false one follows it.
    pub fn take_run(&mut self, n: u32) -> Option<Rect>
        requires { 1 ≤ n }
        ensures width { self.new.width ≡ self.old.width }
        ensures height { self.new.height ≡ self.old.height }
        ensures none { IfNone result (IsClean self.old) }
        ensures unchanged { IfNone result (self.new ≡ self.old) }
        ensures taken { IfSome result (λ rect. IsTaken n rect self.old self.new) }
        ensures longest { IfSome result (λ rect. IsLongest n rect self.old) }
        ensures valid { IsDirt self.new }
    {
        if self.count == 0 {
            return None;
        }
        let start = first_true(&self.cells, self.first);
        self.first = start;
        if start == self.cells.len() {
            return None;
        }
        let end = run_end(&self.cells, start, last_end(start, self.width, n));
        self.count -= erase_run(&mut self.cells, start, end);
        self.first = end;
        Some(run_rect(start, end, self.width))
    }
}

ghost use Rattle.std.specs.Prelude.{◌≡◌, ◌+◌, ◌*◌, ◌<◌, ◌≤◌, pos, false, ◌||◌, replicate, IfOk, IfNone, IfSome, MatchOption};
ghost use Rattle.geom_core.specs.Rect.{in_rect, area_of};
ghost use Rattle.redraw_core.specs.Dirt.{IsDirt, IsClean, IsTaken, EachPixel, is_dirty, dirty_count};

use crate::adding::add;
use crate::keeping::is_kept;
use crate::no_memory::NoMemory;
use crate::overflow::Overflow;
use crate::store::Store;
use crate::taking::take;
use arrayvec::ArrayVec;
use geom_core::Rect;
use std::alloc::Global;
use std::marker::Model;

/// What is left to draw of a screen: which of its pixels are dirty.
///
/// Contracts see the record `Dirt`: the width, the height, and a truth value for each pixel, row after
/// row from the top, as a server's map of dirt has them. Inside, dirt is kept as at most 256 disjoint
/// rectangles, and what doesn't fit among them as truth values. Only `new` takes memory.
/// docs/MACHINE.md, "What is left to draw", has the rules, and docs/ARCHITECTURE.md what calls cost.
pub struct Queue {
    store: Store,
}

impl Model for Queue {
    ghost use Rattle.redraw_core.specs.Dirt.{Dirt};
    ghost use Rattle.redraw_core.specs.Stored.{IsKept, dirt_in};

    ghost Value = { Dirt };

    ghost view = { λ q. dirt_in q.store.kept.items q.store.map };

    ghost invariant = { λ q. IsKept q.store.kept.items q.store.area q.store.map };
}

impl Drop for Queue {
    fn drop(self) {
        let Queue { store: _ } = self;
    }
}

impl Queue {
    /// A queue for a screen of `width` by `height` pixels, of which none is dirty. `NoMemory` comes only for
    /// want of memory. docs/MACHINE.md has the limits of a screen, which are within these.
    pub fn new(alloc: Global, width: u32, height: u32) -> Result<Queue, NoMemory>
        requires least_width { 1 ≤ width }
        requires greatest_width { width ≤ 4096 }
        requires greatest_height { height ≤ 4096 }
        ensures width { IfOk result (λ q. q.width ≡ width) }
        ensures height { IfOk result (λ q. q.height ≡ height) }
        ensures clean { IfOk result (λ q. q.marks ≡ replicate (width * height) false) }
        ensures valid { IfOk result (λ q. IsDirt q) }
    {
        let map = match Overflow::new(alloc, width, height) {
            Ok(map) => map,
            Err(e) => return Err(e),
        };
        Ok(Queue {
            store: Store {
                kept: ArrayVec::new(),
                area: 0,
                map,
            },
        })
    }

    /// Makes the pixels of the rectangle dirty that are on the screen, and no other. It may be any rectangle.
    ///
    /// It costs one look at each kept rectangle for each piece of what isn't dirty yet, and one at each pixel
    /// that goes into the map or leaves it.
    pub fn add(&mut self, rect: Rect)
        ensures width { self.new.width ≡ self.old.width }
        ensures height { self.new.height ≡ self.old.height }
        ensures pixels { EachPixel self.old (λ x y.
            is_dirty self.new x y ≡ (is_dirty self.old x y || in_rect rect (pos x) (pos y))) }
        ensures valid { IsDirt self.new }
    {
        add(&mut self.store, rect);
    }

    /// Takes a rectangle of 1 to `n` dirty pixels, which are clean then; None exactly where none is dirty.
    ///
    /// Which pixels come first is free. Where nothing is dirty it costs a test or two. Taking all of the map
    /// by many calls goes over it once.
    pub fn next(&mut self, n: u32) -> Option<Rect>
        requires { 1 ≤ n }
        ensures none { MatchOption result (IsClean self.old) (λ _. IsClean self.old → ⊥) }
        ensures unchanged { IfNone result (self.new ≡ self.old) }
        ensures taken { IfSome result (λ rect. IsTaken n rect self.old self.new) }
        ensures fewer { IfSome result (λ rect. dirty_count self.new + area_of rect ≡ dirty_count self.old) }
        ensures width { self.new.width ≡ self.old.width }
        ensures height { self.new.height ≡ self.old.height }
        ensures valid { IsDirt self.new }
    {
        take(&mut self.store, n)
    }

    /// How many pixels are dirty.
    pub fn count(&self) -> u32
        ensures count { result ≡ dirty_count self.now }
        ensures valid { IsDirt self.now }
    {
        self.store.area + self.store.map.count()
    }

    /// Whether the pixel in column `x` of row `y`, both from 0, is dirty.
    pub fn holds(&self, x: u32, y: u32) -> bool
        requires on_row { x < self.now.width }
        requires on_screen { y < self.now.height }
        ensures pixel { result ≡ is_dirty self.now x y }
        ensures valid { IsDirt self.now }
    {
        if is_kept(&self.store.kept, x, y) {
            return true;
        }
        self.store.map.holds(x, y)
    }
}

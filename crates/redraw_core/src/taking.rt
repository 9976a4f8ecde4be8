// Dirt taken: the front of the last rectangle, or a run of the map where no rectangle is kept.
ghost use Rattle.std.specs.Prelude.{◌≡◌, ◌+◌, ◌<◌, ◌≤◌, ℤ, pos, true, false, ◌&&◌, ◌++◌, ◌∷◌, [], length, drop, IfNone, IfSome};
ghost use Rattle.geom_core.specs.Rect.{in_rect, area_of};
ghost use Rattle.geom_core.specs.Pieces.{covers, AreDisjoint, HavePixels};
ghost use Rattle.geom_core.specs.Count.{screen_of};
ghost use Rattle.redraw_core.specs.Dirt.{EachPixel};
ghost use Rattle.redraw_core.specs.Stored.{dirty_in, IsPiece, IsFresh, Removed};
ghost use Rattle.redraw_core.specs.Stores.{IsStore, HasGrown, HasRemoved};

use crate::keeping::{place, pop};
use crate::store::Store;
use geom_core::{Rect, area, take_front};

/// How many pixels of the rectangle to take for `n`: all where it has no more, else whole rows where one fits.
fn whole_rows(rect: Rect, n: u32) -> u64
    requires some { 0 < area_of rect }
    requires least { 1 ≤ n }
    ensures least { 1 ≤ result }
    ensures most { result ≤ n }
    ensures whole { area_of rect ≤ n → area_of rect ≤ result }
    ensures rows { rect.w ≤ n → n < area_of rect → n < result + rect.w }
{
    if area(rect) <= u64::from(n) || n < rect.w {
        return u64::from(n);
    }
    u64::from(n - n % rect.w)
}

/// Makes the pixels of the parts from index `from` on dirty, which are clean, the last part first.
fn place_from(store: &mut Store, parts: &[Rect], from: usize)
    requires valid { IsStore store.old }
    requires within { from ≤ length parts.now }
    requires disjoint { AreDisjoint parts.now }
    requires filled { HavePixels parts.now }
    requires inside { (x y : ℤ) → covers parts.now x y ≡ true
        → in_rect (screen_of store.old.map.width store.old.map.height) x y ≡ true }
    requires fresh { EachPixel store.old.map (λ x y. (covers (drop from parts.now) (pos x) (pos y)
        && dirty_in store.old.kept.items store.old.map x y) ≡ false) }
    ensures { HasGrown (covers (drop from parts.now)) store.old store.new }
{
    let last = parts.len();
    for i in 0..last - from {
        place(store, parts[last - 1 - i]);
    }
}

/// Takes 1 to `n` pixels of a rectangle that was taken out of the store: all where it has no more. The others
/// go back.
fn take_from(store: &mut Store, rect: Rect, n: u32) -> Rect
    requires valid { IsStore store.old }
    requires least { 1 ≤ n }
    requires piece { IsPiece rect store.old.map }
    requires fresh { IsFresh rect store.old.kept.items store.old.map }
    ensures removed { Removed n result (store.old.kept.items ++ rect ∷ []) store.old.map
        store.new.kept.items store.new.area store.new.map }
    ensures whole { area_of rect ≤ n → result ≡ rect }
{
    let front = take_front(rect, whole_rows(rect, n));
    let first = front.drawn[0];
    place_from(store, &front.rest, 0);
    place_from(store, &front.drawn, 1);
    first
}

/// Takes 1 to `n` dirty pixels, as a rectangle; None exactly where none is dirty.
pub fn take(store: &mut Store, n: u32) -> Option<Rect>
    requires valid { IsStore store.old }
    requires least { 1 ≤ n }
    ensures kept { IsStore store.new }
    ensures none { IfNone result (EachPixel store.old.map (λ x y.
        dirty_in store.old.kept.items store.old.map x y ≡ false)) }
    ensures unchanged { IfNone result (store.new ≡ store.old) }
    ensures removed { IfSome result (λ rect. HasRemoved n rect store.old store.new) }
{
    match pop(store) {
        Some(rect) => Some(take_from(store, rect, n)),
        None => store.map.take_run(n),
    }
}

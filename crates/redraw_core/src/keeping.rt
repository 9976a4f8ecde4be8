// One rectangle more or less in a store.
ghost use Rattle.std.specs.Prelude.{◌≡◌, ◌<◌, ◌≤◌, pos, ◌++◌, ◌∷◌, [], length, IfNone, IfSome};
ghost use Rattle.std.specs.Option.{option_to_list};
ghost use Rattle.geom_core.specs.Rect.{in_rect};
ghost use Rattle.geom_core.specs.Pieces.{covers};
ghost use Rattle.redraw_core.specs.Stored.{IsPiece, IsFresh, IsApart};
ghost use Rattle.redraw_core.specs.Stores.{IsStore, HasGrown};

use crate::store::Store;
use geom_core::{Rect, area, holds};

/// Keeps one rectangle more, of clean pixels. There must be room.
pub fn push(store: &mut Store, rect: Rect)
    requires valid { IsStore store.old }
    requires room { length store.old.kept.items < 256 }
    requires piece { IsPiece rect store.old.map }
    requires fresh { IsFresh rect store.old.kept.items store.old.map }
    ensures valid { IsStore store.new }
    ensures kept { store.new.kept.items ≡ store.old.kept.items ++ rect ∷ [] }
    ensures map { store.new.map ≡ store.old.map }
{
    store.area += area(rect) as u32;
    store.kept.push(rect);
}

/// Takes the last rectangle out, whose pixels are clean then, where one is kept.
pub fn pop(store: &mut Store) -> Option<Rect>
    requires { IsStore store.old }
    ensures valid { IsStore store.new }
    ensures kept { store.old.kept.items ≡ store.new.kept.items ++ option_to_list result }
    ensures map { store.new.map ≡ store.old.map }
    ensures empty { IfNone result (store.old.kept.items ≡ []) }
    ensures unchanged { IfNone result (store.new ≡ store.old) }
    ensures piece { IfSome result (λ rect. IsPiece rect store.new.map) }
    ensures fresh { IfSome result (λ rect. IsFresh rect store.new.kept.items store.new.map) }
{
    let rect = store.kept.pop()?;
    store.area -= area(rect) as u32;
    Some(rect)
}

/// Makes the pixels of a rectangle dirty that are clean: it is kept, or goes into the map where 256 are kept.
pub fn place(store: &mut Store, rect: Rect)
    requires valid { IsStore store.old }
    requires piece { IsPiece rect store.old.map }
    requires fresh { IsFresh rect store.old.kept.items store.old.map }
    ensures { HasGrown (in_rect rect) store.old store.new }
{
    if store.kept.is_full() {
        store.map.mark(rect);
    } else {
        push(store, rect);
    }
}

/// Makes the pixels of a rectangle dirty that no kept one shares. What the map has of them leaves it.
pub fn put(store: &mut Store, rect: Rect)
    requires valid { IsStore store.old }
    requires piece { IsPiece rect store.old.map }
    requires apart { IsApart rect store.old.kept.items }
    ensures { HasGrown (in_rect rect) store.old store.new }
{
    store.map.erase(rect);
    place(store, rect);
}

/// Whether the pixel in column `x` of row `y` is in one of the rectangles.
pub fn is_kept(kept: &[Rect], x: u32, y: u32) -> bool
    requires column { x ≤ 4096 }
    requires row { y ≤ 4096 }
    ensures { result ≡ covers kept.now (pos x) (pos y) }
{
    for rect in kept {
        if holds(*rect, x as i32, y as i32) {
            return true;
        }
    }
    false
}

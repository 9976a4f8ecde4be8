// Kept rectangles joined: the last two, where one continues the other.
ghost use Rattle.std.specs.Prelude.{◌<◌, ◌≤◌, ◌+◌, ◌∷◌, [], length};
ghost use Rattle.std.specs.Bool.{OnTrue};
ghost use Rattle.geom_core.specs.Pieces.{covers, AreDisjoint};
ghost use Rattle.redraw_core.specs.Stored.{IsPiece, IsFresh};
ghost use Rattle.redraw_core.specs.Stores.{IsStore, HasGrown, IsRearranged};

use crate::keeping::{pop, push};
use crate::pairs::joined;
use crate::store::Store;
use geom_core::Rect;

/// Keeps two disjoint rectangles of clean pixels, as one where one continues the other; whether it does.
fn rejoin(store: &mut Store, before: Rect, last: Rect) -> bool
    requires valid { IsStore store.old }
    requires room { length store.old.kept.items + 1 < 256 }
    requires first { IsPiece before store.old.map }
    requires second { IsPiece last store.old.map }
    requires clean { IsFresh before store.old.kept.items store.old.map }
    requires clean_too { IsFresh last store.old.kept.items store.old.map }
    requires disjoint { AreDisjoint (before ∷ last ∷ []) }
    ensures grown { HasGrown (covers (before ∷ last ∷ [])) store.old store.new }
    ensures one { OnTrue result (length store.new.kept.items ≤ length store.old.kept.items + 1) }
{
    if let Some(whole) = joined(before, last) {
        push(store, whole);
        return true;
    }
    push(store, before);
    push(store, last);
    false
}

/// Joins the last two rectangles where one continues the other; whether it does. The same pixels are dirty.
fn join_last(store: &mut Store) -> bool
    requires { IsStore store.old }
    ensures same { IsRearranged store.old store.new }
    ensures fewer { OnTrue result (length store.new.kept.items < length store.old.kept.items) }
{
    if store.kept.len() < 2 {
        return false;
    }
    let last = match pop(store) {
        Some(last) => last,
        None => return false,
    };
    let before = match pop(store) {
        Some(before) => before,
        None => {
            push(store, last);
            return false;
        }
    };
    rejoin(store, before, last)
}

/// Joins the last rectangles as far as they continue each other. The same pixels are dirty.
pub fn join_all(store: &mut Store)
    requires { IsStore store.old }
    ensures { IsRearranged store.old store.new }
{
    while join_last(store) {}
}

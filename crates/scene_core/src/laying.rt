//! The kept places of a Window and the widgets under it.
ghost use Rattle.std.specs.Prelude.{ℕ, ◌≡◌, ◌≢◌, Some};
ghost use Rattle.kind_core.specs.declared.kinds.Kind.TheVariants.{Window};
ghost use Rattle.widget_model.specs.Forest.{IsWidgets};
ghost use Rattle.widget_model.specs.Relatives.{root_id};
ghost use Rattle.widget_model.specs.Widgets.{IsLive, KeepsLive, rows_of, row_kind, place_at};
ghost use Rattle.scene_model.specs.Placing.{place_in};
ghost use Rattle.scene_core.specs.Children.{row_for, IsDeep};
ghost use Rattle.scene_core.specs.Known.{AreKnown};
ghost use Rattle.scene_core.specs.Laid.{AreLaid};
ghost use Rattle.scene_core.specs.Places.{HasPlaces};

use crate::children::child_keys;
use crate::known::Known;
use crate::least::{as_child, most_levels, tracks_for};
use crate::places::{child_place, sides_of, window_place};
use crate::reading::kind_of;
use geom_core::Rect;
use tree_core::{Id, Tree, has_children};

/// Keeps this place of the widget and, from it, the place of each widget below it.
fn lay(tree: &mut Tree, known: &mut Known, most: u32, id: Id, place: Rect)
    requires valid { IsWidgets tree.old }
    requires live { IsLive tree.old id.key }
    requires deep { IsDeep tree.old most id.key }
    requires known { AreKnown tree.old known.old }
    requires place { place ≡ place_in (rows_of tree.old) (row_for tree.old id.key) }
    ensures laid { AreLaid most tree.old id.key tree.new }
    ensures known { AreKnown tree.old known.new }
{
    tree.set_place(id, Some(place));
    if !has_children(kind_of(tree, id)) {
        return;
    }
    let tracks = tracks_for(tree, known, most, id);
    let sides = sides_of(tree, id, place, &tracks);
    let keys = child_keys(tree, id);
    for key in keys.as_slice() {
        let kid = Id { key: *key };
        let child = as_child(tree, known, most - 1, kid);
        let place = child_place(tree, id, &sides, &child);
        lay(tree, known, most - 1, kid, place);
    }
}

/// Makes the kept place of the Window, and of each widget under it, its place. No row and no other kept place changes.
/// The least size of each widget is worked out once, from the leaves up, and with it the tracks of each Grid; the places
/// go from the Window down, with one `spread` for each side of a Grid. A widget costs some six look-ups in hash maps, a
/// Grid one more for the rule of each of its 32 tracks, and its 256 cells are read twice. Where numbers of two Grids are
/// alike modulo 16, the tracks of one may be worked out again. It takes no memory: a table of 28 KB on the stack has what
/// is known. See docs/MACHINE.md, "Layout".
pub fn relayout(tree: &mut Tree, window: Id)
    requires valid { IsWidgets tree.old }
    requires window { row_kind tree.old.entries window.key ≡ Some Window }
    ensures clients { tree.new.clients ≡ tree.old.clients }
    ensures rows { tree.new.entries ≡ tree.old.entries }
    ensures placed { HasPlaces tree.new window.key }
    ensures others { (other : ℕ) → root_id tree.old other ≢ Some window.key → place_at tree.new other ≡ place_at tree.old other }
    ensures kept { KeepsLive tree.old tree.new }
    ensures valid { IsWidgets tree.new }
{
    let mut known = Known::new();
    let place = window_place(tree, window);
    lay(tree, &mut known, most_levels(), window, place);
}

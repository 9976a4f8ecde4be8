//! What the screen shows at one moment, by the numbers of the widgets.
ghost use Rattle.std.specs.Prelude.{◌≡◌, Some, Contains};
ghost use Rattle.shot_core.specs.Shot.{IsShot};
ghost use Rattle.widget_model.specs.Relatives.{parent_id};
ghost use Rattle.widget_model.specs.Widgets.{IsLive, rows_of, place_at};
ghost use Rattle.scene_model.specs.Placing.{place_in};
ghost use Rattle.scene_core.specs.Children.{row_for, IsDeep};
ghost use Rattle.view_shots.specs.Shots.{IsSpotBy, IsShotBy};
ghost use Rattle.view_shots.specs.Spots.{AreSpots, ArePut};
ghost use Rattle.scene_core.specs.View.{IsView, KeepsPlaces, IsUnderOpen, scene_of};

use geom_core::{Rect, meet};
use scene_core::{View, child_keys, most_levels};
use shot_core::{Shot, Spot};
use tree_core::{Id, Tree};

/// Makes `out` the shot of the view, in place of what it held: the open windows from top to bottom, each with its place,
/// and the spot of each widget that is an open window or hangs under one. It reads the kept places, in pixels of the
/// screen. It visits each shown widget once, with a few look-ups in hash maps, a Grid with its 256 cells, and goes down
/// 12 levels at the most. See docs/MACHINE.md, "The reach of a change".
pub fn shot(view: &View<'_>, out: &mut Shot)
    requires view { IsView view.now }
    requires kept { KeepsPlaces view.now.tree.now view.now.stack.now }
    ensures shot { IsShotBy view.now.tree.now view.now.stack.now view.now.pointer.now view.now.width view.now.height out.new }
    ensures valid { IsShot out.new }
{
    out.clear();
    for index in 0..view.stack.len() {
        let window = Id {
            key: view.stack.at(index).unwrap(),
        };
        let spot = window_spot(view, window);
        out.put_window(window.key, spot.place);
        put_shown(view, out, most_levels(), window, spot);
    }
}

/// Puts in the spot of the widget and, from it, the spot of each widget below it.
fn put_shown(view: &View<'_>, out: &mut Shot, most: u32, id: Id, spot: Spot)
    requires view { IsView view.now }
    requires kept { KeepsPlaces view.now.tree.now view.now.stack.now }
    requires under { IsUnderOpen view.now.tree.now view.now.stack.now id.key }
    requires deep { IsDeep view.now.tree.now most id.key }
    requires spot { IsSpotBy view.now.tree.now (scene_of view.now) id.key spot }
    requires spots { AreSpots view.now.tree.now view.now.stack.now (scene_of view.now) out.old }
    ensures { ArePut most view.now.tree.now view.now.stack.now (scene_of view.now) id.key out.old out.new }
{
    out.put_spot(id.key, spot);
    let keys = child_keys(view.tree, id);
    for key in keys.as_slice() {
        let kid = Id { key: *key };
        let below = child_spot(view, id, spot, kid);
        put_shown(view, out, most - 1, kid, below);
    }
}

/// The spot of an open window: it shows the pixels of its place that are on the screen.
fn window_spot(view: &View<'_>, window: Id) -> Spot
    requires view { IsView view.now }
    requires kept { KeepsPlaces view.now.tree.now view.now.stack.now }
    requires among { Contains view.now.stack.now window.key }
    ensures { IsSpotBy view.now.tree.now (scene_of view.now) window.key result }
{
    let place = kept_place(view.tree, window);
    let screen = Rect {
        x: 0,
        y: 0,
        w: view.width,
        h: view.height,
    };
    Spot {
        parent: None,
        window: window.key,
        place,
        shown: meet(place, screen),
    }
}

/// The spot of a child, from its parent's: it shows the pixels of its place that its parent shows.
fn child_spot(view: &View<'_>, parent: Id, spot: Spot, kid: Id) -> Spot
    requires view { IsView view.now }
    requires kept { KeepsPlaces view.now.tree.now view.now.stack.now }
    requires under { IsUnderOpen view.now.tree.now view.now.stack.now parent.key }
    requires spot { IsSpotBy view.now.tree.now (scene_of view.now) parent.key spot }
    requires parent { parent_id view.now.tree.now kid.key ≡ Some parent.key }
    ensures { IsSpotBy view.now.tree.now (scene_of view.now) kid.key result }
{
    let place = kept_place(view.tree, kid);
    Spot {
        parent: Some(parent.key),
        window: spot.window,
        place,
        shown: meet(place, spot.shown),
    }
}

/// The place of a widget that has a kept one.
fn kept_place(tree: &Tree, id: Id) -> Rect
    requires live { IsLive tree.now id.key }
    requires kept { place_at tree.now id.key ≡ Some (place_in (rows_of tree.now) (row_for tree.now id.key)) }
    ensures { result ≡ place_in (rows_of tree.now) (row_for tree.now id.key) }
{
    tree.place_of(id).unwrap()
}

//! What an input asks for on the desk that a view shows.

ghost use Rattle.std.specs.Prelude.{◌≡◌, ◌<◌, IfSome};
ghost use Rattle.std.specs.Option.{option_map};
ghost use Rattle.geom_core.specs.Rect.{IsInRange};
ghost use Rattle.widget_model.specs.Widgets.{IsLive, rows_of};
ghost use Rattle.widget_model.specs.Forest.{IsWidgets};
ghost use Rattle.scene_model.specs.Scene.{Scene};
ghost use Rattle.scene_model.specs.Showing.{place_of};
ghost use Rattle.scene_core.specs.View.{scene_of, IsView, KeepsPlaces};
ghost use Rattle.desk_layout.specs.Placed.{HaveDuePlaces};
ghost use Rattle.input_core.specs.Seen.{key_seen, hit_seen, effects_seen};
ghost use Rattle.input_core.specs.Live.{AreLive, HoldsLive};
ghost use Rattle.desk_inputs.specs.Asked.{IsUnderWindow, GrabIsUnderWindow, hit_in, held_in, effects_in};

use cmd_words::Input;
use geom_core::Rect;
use input_core::{Effects, Hit, route};
use scene_core::{View, top_at};
use tree_core::{Grab, Id, Tree};

/// The place that is kept of a widget under a Window.
fn kept_place(tree: &Tree, id: Id) -> Rect
    requires widgets { IsWidgets tree.now }
    requires live { IsLive tree.now id.key }
    requires placed { HaveDuePlaces tree.now }
    requires window { IsUnderWindow (rows_of tree.now) (key_seen tree.now.entries id) }
    ensures place { (scene : Scene) → scene.rows ≡ rows_of tree.now → place_of scene (key_seen tree.now.entries id) ≡ result }
    ensures range { IsInRange result }
{
    match tree.place_of(id) {
        Some(place) => place,
        None => unreachable!(),
    }
}

/// The widget on top at the pointer's pixel, with its place.
fn hit_at(view: &View<'_>) -> Option<Hit>
    requires view { IsView view.now }
    requires kept { KeepsPlaces view.now.tree.now view.now.stack.now }
    requires placed { HaveDuePlaces view.now.tree.now }
    requires x { view.now.pointer.now.x < view.now.width }
    requires y { view.now.pointer.now.y < view.now.height }
    ensures hit { option_map (hit_seen view.now.tree.now.entries) result ≡ hit_in (scene_of view.now) }
    ensures live { IfSome result (λ hit. IsLive view.now.tree.now hit.id.key) }
    ensures place { IfSome result (λ hit. IsInRange hit.place) }
{
    let id = match top_at(view, view.pointer.x as i32, view.pointer.y as i32) {
        Some(id) => id,
        None => return None,
    };
    let place = kept_place(view.tree, id);
    Some(Hit { id, place })
}

/// The place of the widget that the pointer has grabbed.
fn held_at(view: &View<'_>) -> Option<Rect>
    requires view { IsView view.now }
    requires placed { HaveDuePlaces view.now.tree.now }
    requires holds { HoldsLive view.now.tree.now view.now.pointer.now }
    requires held { GrabIsUnderWindow view.now.tree.now view.now.pointer.now.grab }
    ensures held { result ≡ held_in (scene_of view.now) }
    ensures range { IfSome result IsInRange }
{
    match view.pointer.grab {
        Grab::Nothing => None,
        Grab::Widget { id } => Some(kept_place(view.tree, id)),
        Grab::Drag { id, .. } => Some(kept_place(view.tree, id)),
    }
}

/// What the input asks for on the desk that the view shows, whose pointer is on the screen and holds nothing that isn't
/// under a Window. The widget that is hit is the top one at the pointer's pixel. Nothing is changed and nothing is
/// refused; it takes no memory. See docs/MACHINE.md, "Input".
pub fn asked(view: &View<'_>, input: Input) -> Effects
    requires view { IsView view.now }
    requires kept { KeepsPlaces view.now.tree.now view.now.stack.now }
    requires placed { HaveDuePlaces view.now.tree.now }
    requires holds { HoldsLive view.now.tree.now view.now.pointer.now }
    requires held { GrabIsUnderWindow view.now.tree.now view.now.pointer.now.grab }
    requires x { view.now.pointer.now.x < view.now.width }
    requires y { view.now.pointer.now.y < view.now.height }
    ensures effects { effects_seen view.now.tree.now.entries result ≡ effects_in (scene_of view.now) input }
    ensures live { AreLive view.now.tree.now result }
{
    let hit = hit_at(view);
    let held = held_at(view);
    route(
        view.tree,
        view.pointer,
        hit,
        held,
        view.width,
        view.height,
        input,
    )
}

//! What a press of the pointer's button does.

ghost use Rattle.std.specs.Prelude.{◌≡◌, ◌<◌, Some, None, IfSome, if◌then◌else◌};
ghost use Rattle.widget_model.specs.Keys.{key_of};
ghost use Rattle.widget_model.specs.Widgets.{key_at, IsLive, rows_of};
ghost use Rattle.geom_core.specs.Rect.{IsInRange};
ghost use Rattle.widget_model.specs.Forest.{IsWidgets};
ghost use Rattle.desk_model.specs.InputTable.{takes_keys, pressed, grabbed_title, press_on, on_press};
ghost use Rattle.std.specs.Option.{option_map, option_and_then};
ghost use Rattle.tree_core.specs.Holds.{pointer_seen};
ghost use Rattle.input_core.specs.Numbered.{numbered};
ghost use Rattle.input_core.specs.Seen.{effects_seen, hit_seen};
ghost use Rattle.input_core.specs.Live.{AreLive, HoldsLive};

use crate::edits::caret_at;
use crate::effects::{Effects, only_pointer};
use crate::hit::Hit;
use crate::pixel::{local_x, local_y};
use crate::posts::Posts;
use crate::reading::{kind, posted, root, text};
use crate::values::valued;
use geom_core::Rect;
use kind_core::{EventKind, Kind};
use tree_core::{Grab, Id, Pointer, Tree};

/// Whether keys go to a widget of the kind after a press on it.
fn takes_keys(kind: Kind) -> bool
    ensures { result ≡ takes_keys kind }
{
    matches!(kind, Kind::Entry | Kind::VScreen)
}

/// The widget that has the focus after a press on this one.
fn focus_of(tree: &Tree, id: Id) -> Option<Id>
    requires { IsLive tree.now id.key }
    ensures focus { option_and_then (λ id. key_at tree.now.entries id.key) result ≡ (if takes_keys (numbered tree.now.entries id.key).kind then Some (key_of (numbered tree.now.entries id.key)) else None) }
    ensures live { IfSome result (λ id. IsLive tree.now id.key) }
{
    if takes_keys(kind(tree, id)) {
        return Some(id);
    }
    None
}

/// The widget is grabbed, has the focus where it takes keys, and its window goes to the top.
fn pressed(tree: &Tree, id: Id, pointer: &Pointer) -> Effects
    requires widgets { IsWidgets tree.now }
    requires live { IsLive tree.now id.key }
    ensures seen { effects_seen tree.now.entries result ≡ pressed (rows_of tree.now) (pointer_seen tree.now.entries pointer.now) (numbered tree.now.entries id.key) }
    ensures live { AreLive tree.now result }
    ensures x { result.pointer.x ≡ pointer.now.x }
    ensures y { result.pointer.y ≡ pointer.now.y }
{
    let mut effects = only_pointer(Pointer {
        x: pointer.x,
        y: pointer.y,
        down: true,
        grab: Grab::Widget { id },
        focus: focus_of(tree, id),
    });
    effects.raise = Some(root(tree, id));
    effects
}

/// A press on a Window's title drags it.
#[tactic(auto, unfolding(desk_model::specs::InputTable::grabbed_title))]
fn grabbed_title(tree: &Tree, id: Id, place: Rect, pointer: &Pointer, effects: Effects) -> Effects
    requires live { IsLive tree.now id.key }
    requires x { pointer.now.x < 1024 }
    requires y { pointer.now.y < 1024 }
    requires place { IsInRange place }
    requires effects { AreLive tree.now effects }
    ensures seen { effects_seen tree.now.entries result ≡ grabbed_title (pointer_seen tree.now.entries pointer.now) place (numbered tree.now.entries id.key) (effects_seen tree.now.entries effects) }
    ensures live { AreLive tree.now result }
{
    let v = local_y(pointer, place);
    if v >= 12 {
        return effects;
    }
    let mut effects = effects;
    effects.pointer.grab = Grab::Drag {
        id,
        dx: local_x(pointer, place).unsigned_abs(),
        dy: v.unsigned_abs(),
    };
    effects
}

/// What a press on the widget in that place does beyond grabbing it.
#[tactic(auto, unfolding(desk_model::specs::InputTable::press_on))]
fn press_on(tree: &Tree, id: Id, place: Rect, pointer: &Pointer, effects: Effects) -> Effects
    requires widgets { IsWidgets tree.now }
    requires live { IsLive tree.now id.key }
    requires x { pointer.now.x < 1024 }
    requires y { pointer.now.y < 1024 }
    requires same_x { effects.pointer.x ≡ pointer.now.x }
    requires same_y { effects.pointer.y ≡ pointer.now.y }
    requires place { IsInRange place }
    requires effects { AreLive tree.now effects }
    ensures seen { effects_seen tree.now.entries result ≡ press_on (numbered tree.now.entries id.key).kind (rows_of tree.now) (pointer_seen tree.now.entries pointer.now) place (numbered tree.now.entries id.key) (effects_seen tree.now.entries effects) }
    ensures live { AreLive tree.now result }
{
    let mut effects = effects;
    match kind(tree, id) {
        Kind::Window => grabbed_title(tree, id, place, pointer, effects),
        Kind::Button | Kind::VScreen => {
            let u = local_x(pointer, place);
            let v = local_y(pointer, place);
            effects.posts = Posts::of(posted(tree, id, EventKind::Press, u, v), None);
            effects
        }
        Kind::Entry => {
            let length = text(tree, id).as_slice().len() as u32;
            let caret = caret_at(local_x(pointer, place), length);
            effects.caret = Some((id, caret as i32));
            effects
        }
        Kind::Scale | Kind::Scrollbar => valued(tree, id, place, effects),
        _ => effects,
    }
}

/// The button goes down.
#[tactic(auto, unfolding(desk_model::specs::InputTable::on_press))]
pub(crate) fn on_press(tree: &Tree, pointer: &Pointer, hit: Option<Hit>) -> Effects
    requires widgets { IsWidgets tree.now }
    requires holds { HoldsLive tree.now pointer.now }
    requires x { pointer.now.x < 1024 }
    requires y { pointer.now.y < 1024 }
    requires hit { IfSome hit (λ hit. IsLive tree.now hit.id.key) }
    requires place { IfSome hit (λ hit. IsInRange hit.place) }
    ensures seen { effects_seen tree.now.entries result ≡ on_press (rows_of tree.now) (pointer_seen tree.now.entries pointer.now) (option_map (hit_seen tree.now.entries) hit) }
    ensures live { AreLive tree.now result }
{
    if pointer.down {
        return only_pointer(*pointer);
    }
    match hit {
        Some(hit) => {
            let effects = pressed(tree, hit.id, pointer);
            press_on(tree, hit.id, hit.place, pointer, effects)
        }
        None => only_pointer(Pointer {
            x: pointer.x,
            y: pointer.y,
            down: true,
            grab: pointer.grab,
            focus: None,
        }),
    }
}

//! What a motion of the pointer does.

ghost use Rattle.std.specs.Prelude.{◌≡◌, ◌≤◌, ◌<◌, ◌-ℤ◌, ◌&&◌, pos, IfSome};
ghost use Rattle.std.specs.Ordering.{int_eq};
ghost use Rattle.scene_model.specs.Values.{number_of};
ghost use Rattle.kind_core.specs.Attributes.{minus};
ghost use Rattle.kind_core.specs.Effective.{clamp};
ghost use Rattle.geom_core.specs.Rect.{IsInRange};
ghost use Rattle.widget_model.specs.Widgets.{IsLive, rows_of};
ghost use Rattle.widget_model.specs.Forest.{IsWidgets};
ghost use Rattle.desk_model.specs.InputTable.{dragged, drag_on, motion_on, on_motion};
ghost use Rattle.tree_core.specs.Holds.{pointer_seen};
ghost use Rattle.input_core.specs.Numbered.{numbered};
ghost use Rattle.input_core.specs.Seen.{effects_seen};
ghost use Rattle.input_core.specs.Live.{AreLive, HoldsLive};

use crate::effects::{Effects, only_pointer};
use crate::pixel::{local_x, local_y};
use crate::posts::Posts;
use crate::reading::{kind, number, posted};
use crate::trough::clamp;
use crate::values::valued;
use geom_core::Rect;
use kind_core::{Attr, EventKind, Kind};
use tree_core::{Grab, Id, Pointer, Tree};

/// Where a Window goes along an axis whose pixel `held` is to be at the pointer's, within its range.
fn dragged_to(pointer: u32, held: u32) -> i32
    ensures { result ≡ clamp (pos pointer -ℤ pos held) (minus 1024) (pos 1024) }
{
    clamp(i64::from(pointer) - i64::from(held), -1024, 1024) as i32
}

/// Whether the Window is at these x and y.
fn is_at(tree: &Tree, id: Id, x: i32, y: i32) -> bool
    requires { IsLive tree.now id.key }
    ensures { result ≡ (int_eq x (number_of Attr.X (numbered tree.now.entries id.key)) && int_eq y (number_of Attr.Y (numbered tree.now.entries id.key))) }
{
    x == number(tree, id, Attr::X) && y == number(tree, id, Attr::Y)
}

/// A Window is dragged by its pixel (dx, dy).
#[tactic(auto, unfolding(desk_model::specs::InputTable::dragged))]
fn dragged(tree: &Tree, id: Id, dx: u32, dy: u32, pointer: Pointer) -> Effects
    requires live { IsLive tree.now id.key }
    requires holds { HoldsLive tree.now pointer }
    ensures seen { effects_seen tree.now.entries result ≡ dragged (pointer_seen tree.now.entries pointer) dx dy (numbered tree.now.entries id.key) }
    ensures live { AreLive tree.now result }
{
    let x = dragged_to(pointer.x, dx);
    let y = dragged_to(pointer.y, dy);
    let mut effects = only_pointer(pointer);
    if is_at(tree, id, x, y) {
        return effects;
    }
    effects.moved = Some((id, x, y));
    effects.posts = Posts::of(posted(tree, id, EventKind::Move, x, y), None);
    effects
}

/// Only a Window is dragged.
#[tactic(auto, unfolding(desk_model::specs::InputTable::drag_on))]
fn drag_on(tree: &Tree, id: Id, dx: u32, dy: u32, pointer: Pointer) -> Effects
    requires live { IsLive tree.now id.key }
    requires holds { HoldsLive tree.now pointer }
    ensures seen { effects_seen tree.now.entries result ≡ drag_on (numbered tree.now.entries id.key).kind (pointer_seen tree.now.entries pointer) dx dy (numbered tree.now.entries id.key) }
    ensures live { AreLive tree.now result }
{
    match kind(tree, id) {
        Kind::Window => dragged(tree, id, dx, dy, pointer),
        _ => only_pointer(pointer),
    }
}

/// The pointer moves while the widget in that place is grabbed.
#[tactic(auto, unfolding(desk_model::specs::InputTable::motion_on))]
fn motion_on(tree: &Tree, id: Id, place: Rect, pointer: Pointer) -> Effects
    requires widgets { IsWidgets tree.now }
    requires live { IsLive tree.now id.key }
    requires holds { HoldsLive tree.now pointer }
    requires x { pointer.x < 1024 }
    requires y { pointer.y < 1024 }
    requires place { IsInRange place }
    ensures seen { effects_seen tree.now.entries result ≡ motion_on (numbered tree.now.entries id.key).kind (rows_of tree.now) (pointer_seen tree.now.entries pointer) place (numbered tree.now.entries id.key) }
    ensures live { AreLive tree.now result }
{
    let mut effects = only_pointer(pointer);
    match kind(tree, id) {
        Kind::Scale | Kind::Scrollbar => valued(tree, id, place, effects),
        Kind::VScreen => {
            let u = local_x(&pointer, place);
            let v = local_y(&pointer, place);
            effects.posts = Posts::of(posted(tree, id, EventKind::Motion, u, v), None);
            effects
        }
        _ => effects,
    }
}

/// The pointer goes to the pixel (x, y), or to the nearest one of the screen.
#[tactic(auto, unfolding(desk_model::specs::InputTable::on_motion))]
pub(crate) fn on_motion(
    tree: &Tree,
    pointer: &Pointer,
    held: Option<Rect>,
    width: u32,
    height: u32,
    x: u32,
    y: u32,
) -> Effects
    requires widgets { IsWidgets tree.now }
    requires holds { HoldsLive tree.now pointer.now }
    requires held { IfSome held IsInRange }
    requires some_width { 1 ≤ width }
    requires width { width ≤ 1024 }
    requires some_height { 1 ≤ height }
    requires height { height ≤ 1024 }
    ensures seen { effects_seen tree.now.entries result ≡ on_motion (rows_of tree.now) (pointer_seen tree.now.entries pointer.now) held width height x y }
    ensures live { AreLive tree.now result }
{
    let there = Pointer {
        x: x.min(width - 1),
        y: y.min(height - 1),
        down: pointer.down,
        grab: pointer.grab,
        focus: pointer.focus,
    };
    if !pointer.down {
        return only_pointer(there);
    }
    match pointer.grab {
        Grab::Nothing => only_pointer(there),
        Grab::Widget { id } => match held {
            Some(place) => motion_on(tree, id, place, there),
            None => only_pointer(there),
        },
        Grab::Drag { id, dx, dy } => drag_on(tree, id, dx, dy, there),
    }
}

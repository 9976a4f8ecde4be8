//! How a Scale or Scrollbar takes its value from the pointer.

ghost use Rattle.std.specs.Prelude.{◌≡◌, ◌≤◌, ◌<◌, pos};
ghost use Rattle.geom_core.specs.Rect.{IsInRange};
ghost use Rattle.widget_model.specs.Widgets.{IsLive, rows_of};
ghost use Rattle.widget_model.specs.Forest.{IsWidgets};
ghost use Rattle.kind_core.specs.Effective.{raw_value, scale_value, scrollbar_value};
ghost use Rattle.scene_model.specs.Values.{is_vertical, linked_value, number_of};
ghost use Rattle.desk_model.specs.InputValues.{pointed_value, shown_value, valued, knob_length, greatest_value};
ghost use Rattle.tree_core.specs.Holds.{pointer_seen};
ghost use Rattle.input_core.specs.Numbered.{numbered};
ghost use Rattle.input_core.specs.Seen.{effects_seen};
ghost use Rattle.input_core.specs.Live.{AreLive};

use crate::effects::Effects;
use crate::pixel::{local_x, local_y};
use crate::posts::Posts;
use crate::reading::{count, kind, linked_value, number, posted, value_id};
use crate::trough::{clamp, scrollbar_knob_length, value_at};
use geom_core::Rect;
use kind_core::{Attr, EventKind, Kind};
use tree_core::{Id, Pointer, Tree};

/// Whether the widget goes down in place of across.
fn is_vertical(tree: &Tree, id: Id) -> bool
    requires { IsLive tree.now id.key }
    ensures { result ≡ is_vertical (numbered tree.now.entries id.key) }
{
    0 < number(tree, id, Attr::Vert)
}

/// How long the widget's knob is in a trough of that length.
fn knob_length(tree: &Tree, id: Id, trough: u32) -> u32
    requires widgets { IsWidgets tree.now }
    requires live { IsLive tree.now id.key }
    requires trough { trough ≤ 1048576 }
    ensures { result ≡ knob_length (numbered tree.now.entries id.key).kind trough (numbered tree.now.entries id.key) }
{
    match kind(tree, id) {
        Kind::Scrollbar => {
            let real = count(tree, id, Attr::Real);
            let view = count(tree, id, Attr::View);
            scrollbar_knob_length(trough, real, view)
        }
        _ => 8,
    }
}

/// The greatest value that the widget can show.
fn greatest_value(tree: &Tree, id: Id) -> u32
    requires widgets { IsWidgets tree.now }
    requires live { IsLive tree.now id.key }
    ensures value { result ≡ greatest_value (numbered tree.now.entries id.key).kind (numbered tree.now.entries id.key) }
    ensures most { result ≤ 10000 }
{
    match kind(tree, id) {
        Kind::Scrollbar => {
            let real = count(tree, id, Attr::Real);
            let view = count(tree, id, Attr::View);
            real.saturating_sub(view)
        }
        _ => count(tree, id, Attr::Max),
    }
}

/// The value that the pointer gives the widget.
#[tactic(auto, unfolding(desk_model::specs::InputValues::pointed_value))]
fn pointed_value(tree: &Tree, id: Id, pointer: &Pointer, place: Rect) -> i32
    requires widgets { IsWidgets tree.now }
    requires live { IsLive tree.now id.key }
    requires x { pointer.now.x < 1024 }
    requires y { pointer.now.y < 1024 }
    requires place { IsInRange place }
    ensures { result ≡ pointed_value (pointer_seen tree.now.entries pointer.now) place (numbered tree.now.entries id.key) }
{
    let most = greatest_value(tree, id);
    if is_vertical(tree, id) {
        let knob = knob_length(tree, id, place.h);
        return value_at(place.h, knob, most, local_y(pointer, place)) as i32;
    }
    let knob = knob_length(tree, id, place.w);
    value_at(place.w, knob, most, local_x(pointer, place)) as i32
}

/// The number of the Variable that the widget is linked to, or its own without a link.
fn raw_value(tree: &Tree, id: Id) -> i32
    requires widgets { IsWidgets tree.now }
    requires live { IsLive tree.now id.key }
    ensures { result ≡ raw_value (linked_value (rows_of tree.now) (numbered tree.now.entries id.key)) (number_of Attr.Value (numbered tree.now.entries id.key)) }
{
    match linked_value(tree, id) {
        Some(value) => value,
        None => number(tree, id, Attr::Value),
    }
}

/// What a Scale with that greatest value shows.
fn scale_value(raw: i32, max: i32) -> i64
    ensures { result ≡ scale_value raw max }
{
    clamp(i64::from(raw), 0, i64::from(max))
}

/// What a Scrollbar with that real length and view shows.
fn scrollbar_value(raw: i32, real: i32, view: i32) -> i64
    ensures { result ≡ scrollbar_value raw real view }
{
    if real <= view {
        return 0;
    }
    clamp(i64::from(raw), 0, i64::from(real) - i64::from(view))
}

/// The value that the widget shows.
fn shown_value(tree: &Tree, id: Id) -> i64
    requires widgets { IsWidgets tree.now }
    requires live { IsLive tree.now id.key }
    ensures { result ≡ shown_value (rows_of tree.now) (numbered tree.now.entries id.key) }
{
    let raw = raw_value(tree, id);
    match kind(tree, id) {
        Kind::Scrollbar => {
            let real = number(tree, id, Attr::Real);
            let view = number(tree, id, Attr::View);
            scrollbar_value(raw, real, view)
        }
        _ => scale_value(raw, number(tree, id, Attr::Max)),
    }
}

/// The effects, and where the value from the pointer differs from the one that the widget shows, that it takes it
/// and `change` is posted.
#[tactic(auto, unfolding(desk_model::specs::InputValues::valued))]
pub(crate) fn valued(tree: &Tree, id: Id, place: Rect, effects: Effects) -> Effects
    requires widgets { IsWidgets tree.now }
    requires live { IsLive tree.now id.key }
    requires x { effects.pointer.x < 1024 }
    requires y { effects.pointer.y < 1024 }
    requires place { IsInRange place }
    requires effects { AreLive tree.now effects }
    ensures seen { effects_seen tree.now.entries result ≡ valued (rows_of tree.now) place (numbered tree.now.entries id.key) (effects_seen tree.now.entries effects) }
    ensures live { AreLive tree.now result }
{
    let value = pointed_value(tree, id, &effects.pointer, place);
    if i64::from(value) == shown_value(tree, id) {
        return effects;
    }
    let mut effects = effects;
    effects.value = Some((value_id(tree, id), value));
    effects.posts = Posts::of(posted(tree, id, EventKind::Change, value, 0), None);
    effects
}

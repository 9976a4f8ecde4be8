//! The widget on top at a pixel.
ghost use Rattle.std.specs.Prelude.{◌≡◌, true, Some, IfSome, Contains};
ghost use Rattle.std.specs.Option.{option_map, option_and_then};
ghost use Rattle.widget_model.specs.Keys.{key_of};
ghost use Rattle.widget_model.specs.Widgets.{key_at, IsLive};
ghost use Rattle.widget_model.specs.Relatives.{parent_id, root_id};
ghost use Rattle.scene_model.specs.Showing.{shows_at, on_screen, child_at, lowest_in, top_of, window_at};
ghost use Rattle.scene_core.specs.Children.{row_for};
ghost use Rattle.scene_core.specs.View.{IsView, KeepsPlaces, IsUnderOpen, scene_of};

use crate::children::child_keys;
use crate::least::most_levels;
use crate::shown::holds_pixel;
use crate::view::View;
use geom_core::{Rect, holds};
use tree_core::Id;

/// The widget on top at the pixel (x, y), counted from 0 at the screen's upper left corner: the first open window, from
/// the top, that shows the pixel, or else from there down the child that shows it, as long as there is one. None exactly
/// where no open window shows it. It reads the place of each open window down to that one, and then the places of the
/// children on one path down, at most 12 levels, whatever the number of other widgets. See docs/MACHINE.md, "Layout".
pub fn top_at(view: &View<'_>, x: i32, y: i32) -> Option<Id>
    requires view { IsView view.now }
    requires kept { KeepsPlaces view.now.tree.now view.now.stack.now }
    ensures top { option_and_then (λ id. key_at view.now.tree.now.entries id.key) result ≡ top_of (scene_of view.now) x y }
    ensures live { IfSome result (λ id. IsLive view.now.tree.now id.key) }
{
    match top_window(view, x, y) {
        Some(window) => Some(lowest(view, most_levels(), window, x, y)),
        None => None,
    }
}

/// Whether the pixel is on the screen.
fn is_on_screen(view: &View<'_>, x: i32, y: i32) -> bool
    ensures { result ≡ on_screen (scene_of view.now) x y }
{
    holds(
        Rect {
            x: 0,
            y: 0,
            w: view.width,
            h: view.height,
        },
        x,
        y,
    )
}

/// The first open window, from the top, that shows the pixel.
fn top_window(view: &View<'_>, x: i32, y: i32) -> Option<Id>
    requires view { IsView view.now }
    requires kept { KeepsPlaces view.now.tree.now view.now.stack.now }
    ensures window { option_map (λ id. key_of (row_for view.now.tree.now id.key)) result ≡ window_at (scene_of view.now) x y }
    ensures among { IfSome result (λ id. Contains view.now.stack.now id.key) }
    ensures shown { IfSome result (λ id. shows_at (scene_of view.now) (key_of (row_for view.now.tree.now id.key)) x y ≡ true) }
{
    if !is_on_screen(view, x, y) {
        return None;
    }
    for index in 0..view.stack.len() {
        let window = Id {
            key: view.stack.at(index).unwrap(),
        };
        if holds_pixel(view.tree, window, x, y) {
            return Some(window);
        }
    }
    None
}

/// The child that shows the pixel, of a widget that shows it.
fn child_at(view: &View<'_>, id: Id, x: i32, y: i32) -> Option<Id>
    requires view { IsView view.now }
    requires kept { KeepsPlaces view.now.tree.now view.now.stack.now }
    requires under { IsUnderOpen view.now.tree.now view.now.stack.now id.key }
    requires live { IsLive view.now.tree.now id.key }
    requires shown { shows_at (scene_of view.now) (key_of (row_for view.now.tree.now id.key)) x y ≡ true }
    ensures child { option_map (λ kid. key_of (row_for view.now.tree.now kid.key)) result ≡ child_at (scene_of view.now) (key_of (row_for view.now.tree.now id.key)) x y }
    ensures parent { IfSome result (λ kid. parent_id view.now.tree.now kid.key ≡ Some id.key) }
    ensures shown { IfSome result (λ kid. shows_at (scene_of view.now) (key_of (row_for view.now.tree.now kid.key)) x y ≡ true) }
{
    let keys = child_keys(view.tree, id);
    for key in keys.as_slice() {
        let kid = Id { key: *key };
        if holds_pixel(view.tree, kid, x, y) {
            return Some(kid);
        }
    }
    None
}

/// From the widget down to the child that shows the pixel, as long as there is one, at most so many levels.
fn lowest(view: &View<'_>, most: u32, id: Id, x: i32, y: i32) -> Id
    requires view { IsView view.now }
    requires kept { KeepsPlaces view.now.tree.now view.now.stack.now }
    requires under { IsUnderOpen view.now.tree.now view.now.stack.now id.key }
    requires live { IsLive view.now.tree.now id.key }
    requires shown { shows_at (scene_of view.now) (key_of (row_for view.now.tree.now id.key)) x y ≡ true }
    ensures lowest { key_of (row_for view.now.tree.now result.key) ≡ lowest_in most (scene_of view.now) x y (key_of (row_for view.now.tree.now id.key)) }
    ensures live { IsLive view.now.tree.now result.key }
{
    if most == 0 {
        return id;
    }
    match child_at(view, id, x, y) {
        Some(kid) => lowest(view, most - 1, kid, x, y),
        None => id,
    }
}

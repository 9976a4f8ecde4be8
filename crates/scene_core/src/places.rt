//! The places of widgets from scratch.
ghost use Rattle.std.specs.Prelude.{◌≡◌, true, Some};
ghost use Rattle.std.specs.Option.{option_map};
ghost use Rattle.kind_core.specs.declared.kinds.Kind.TheVariants.{Window, Grid};
ghost use Rattle.widget_model.specs.Forest.{IsWidgets};
ghost use Rattle.widget_model.specs.Relatives.{parent_id};
ghost use Rattle.widget_model.specs.Trees.{ends_within};
ghost use Rattle.widget_model.specs.Widgets.{IsLive, rows_of, row_at, row_kind};
ghost use Rattle.scene_model.specs.declared.axis.Axis.TheVariants.{Across, Down};
ghost use Rattle.scene_model.specs.Placing.{place_in};
ghost use Rattle.scene_model.specs.Spans.{rect_of, span_of};
ghost use Rattle.scene_core.specs.Children.{row_for, child_for};
ghost use Rattle.scene_core.specs.Known.{AreKnown, AreBothTracks};
ghost use Rattle.scene_core.specs.Places.{IsInWindow};
ghost use Rattle.scene_core.specs.Sides.{IsSide};

use crate::child::Child;
use crate::known::Known;
use crate::least::{as_child, most_levels, tracks_for};
use crate::sides::{Side, child_span, side_of, window_span};
use crate::tracks::BothTracks;
use geom_core::Rect;
use scene_model::{Axis, Span};
use tree_core::{Id, Tree};

/// Both axes of a widget with children.
#[derive(Clone, Copy)]
pub(crate) struct Sides {
    pub(crate) across: Side,
    pub(crate) down: Side,
}

/// The rectangle that two spans make.
fn rect_of(across: Span, down: Span) -> Rect
    ensures { result ≡ rect_of across down }
{
    Rect {
        x: across.from,
        y: down.from,
        w: across.len,
        h: down.len,
    }
}

/// The span of a place on the axis.
fn span_of(axis: Axis, place: Rect) -> Span
    ensures { result ≡ span_of axis place }
{
    match axis {
        Axis::Across => Span {
            from: place.x,
            len: place.w,
        },
        Axis::Down => Span {
            from: place.y,
            len: place.h,
        },
    }
}

/// Both axes of a widget that has this place and, where it is a Grid, these tracks.
pub(crate) fn sides_of(tree: &Tree, id: Id, place: Rect, tracks: &BothTracks) -> Sides
    requires valid { IsWidgets tree.now }
    requires live { IsLive tree.now id.key }
    requires tracks { (row_for tree.now id.key).kind ≡ Grid → AreBothTracks tree.now id.key tracks.now }
    requires place { place ≡ place_in (rows_of tree.now) (row_for tree.now id.key) }
    ensures across { IsSide Across tree.now id.key result.across }
    ensures down { IsSide Down tree.now id.key result.down }
{
    let across = span_of(Axis::Across, place);
    let down = span_of(Axis::Down, place);
    Sides {
        across: side_of(tree, id, Axis::Across, across, &tracks.across),
        down: side_of(tree, id, Axis::Down, down, &tracks.down),
    }
}

/// The place of a child of the widget.
pub(crate) fn child_place(tree: &Tree, id: Id, sides: &Sides, child: &Child) -> Rect
    requires valid { IsWidgets tree.now }
    requires live { IsLive tree.now id.key }
    requires across { IsSide Across tree.now id.key sides.now.across }
    requires down { IsSide Down tree.now id.key sides.now.down }
    requires parent { parent_id tree.now child.now.key ≡ Some id.key }
    requires child { child.now ≡ child_for tree.now child.now.key }
    ensures { result ≡ place_in (rows_of tree.now) (row_for tree.now child.now.key) }
{
    let across = child_span(tree, id, Axis::Across, &sides.across, child);
    let down = child_span(tree, id, Axis::Down, &sides.down, child);
    rect_of(across, down)
}

/// The place of a Window.
pub(crate) fn window_place(tree: &Tree, id: Id) -> Rect
    requires valid { IsWidgets tree.now }
    requires window { row_kind tree.now.entries id.key ≡ Some Window }
    ensures { result ≡ place_in (rows_of tree.now) (row_for tree.now id.key) }
{
    let across = window_span(tree, id, Axis::Across);
    let down = window_span(tree, id, Axis::Down);
    rect_of(across, down)
}

/// The place of the widget, where going up from it ends within so many levels.
fn place_up(tree: &Tree, known: &mut Known, most: u32, id: Id) -> Rect
    requires valid { IsWidgets tree.now }
    requires live { IsLive tree.now id.key }
    requires ends { ends_within most (rows_of tree.now) (row_for tree.now id.key).client (row_for tree.now id.key).name ≡ true }
    requires window { IsInWindow tree.now id.key }
    requires known { AreKnown tree.now known.old }
    ensures place { result ≡ place_in (rows_of tree.now) (row_for tree.now id.key) }
    ensures known { AreKnown tree.now known.new }
{
    match tree.parent(id) {
        Some(parent) => {
            let place = place_up(tree, known, most - 1, parent);
            let tracks = tracks_for(tree, known, most_levels(), parent);
            let sides = sides_of(tree, parent, place, &tracks);
            let child = as_child(tree, known, most_levels(), id);
            child_place(tree, parent, &sides, &child)
        }
        None => window_place(tree, id),
    }
}

/// The place of the widget, in pixels of the screen, from its Window down. It is worked out from scratch, with the tracks
/// of each Grid above it, for which the least sizes of all that is below are measured once: `relayout` keeps the places of
/// a whole Window in one pass. See docs/MACHINE.md, "Layout".
pub fn place(tree: &Tree, id: Id) -> Rect
    requires valid { IsWidgets tree.now }
    requires live { IsLive tree.now id.key }
    requires window { IsInWindow tree.now id.key }
    ensures { option_map (place_in (rows_of tree.now)) (row_at tree.now.entries id.key) ≡ Some result }
{
    let mut known = Known::new();
    place_up(tree, &mut known, most_levels(), id)
}

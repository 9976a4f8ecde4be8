//! What a widget has for its children, along one axis.
ghost use Rattle.std.specs.Prelude.{◌≡◌, ◌≤◌, pos, ◌≤ℤ◌, Some};
ghost use Rattle.kind_core.specs.Effective.{frame_offset};
ghost use Rattle.kind_core.specs.declared.kinds.Kind.TheVariants.{Grid};
ghost use Rattle.widget_model.specs.Relatives.{parent_id};
ghost use Rattle.widget_model.specs.Widgets.{IsLive, rows_of};
ghost use Rattle.scene_model.specs.Placing.{span_along, window_span};
ghost use Rattle.scene_model.specs.Tracks.{rules_of};
ghost use Rattle.scene_model.specs.Values.{offset_of};
ghost use Rattle.scene_core.specs.Children.{row_for, child_for, needs_for};
ghost use Rattle.scene_core.specs.Measured.{AreTracks};
ghost use Rattle.widget_model.specs.Forest.{IsWidgets};
ghost use Rattle.scene_core.specs.Sides.{IsSide};

use crate::asked::{side, track_of};
use crate::child::Child;
use crate::own::count_of;
use crate::reading::{kind_of, linked_value, number_of};
use crate::spans::{content, framed, inset, track_span};
use crate::tracks::{Tracks, lengths_in};
use kind_core::{Attr, Kind};
use scene_model::{Axis, Span};
use tree_core::{Id, Tree};

/// One axis of a widget with children: its kind, its span, by how much a Frame moves its child to the left or up, and the lengths
/// of a Grid's tracks in use, the first at index 0.
#[derive(Clone, Copy)]
pub(crate) struct Side {
    pub(crate) kind: Kind,
    pub(crate) span: Span,
    pub(crate) offset: i32,
    pub(crate) used: usize,
    pub(crate) lengths: [u32; 16],
}

/// A Frame's offset down, from the linked value and its own.
fn frame_offset(linked: Option<i32>, own: i32) -> i32
    ensures { result ≡ frame_offset linked own }
{
    match linked {
        Some(value) => value.clamp(0, 4096),
        None => own,
    }
}

/// By how much a Frame's child is moved to the left, or up.
fn offset_of(tree: &Tree, id: Id, axis: Axis) -> i32
    requires { IsLive tree.now id.key }
    ensures { result ≡ offset_of axis (rows_of tree.now) (row_for tree.now id.key) }
{
    match axis {
        Axis::Across => number_of(tree, id, Attr::X),
        Axis::Down => frame_offset(linked_value(tree, id), number_of(tree, id, Attr::Y)),
    }
}

/// A Window's span.
pub(crate) fn window_span(tree: &Tree, id: Id, axis: Axis) -> Span
    requires { IsLive tree.now id.key }
    ensures { result ≡ window_span axis (row_for tree.now id.key) }
{
    match axis {
        Axis::Across => Span {
            from: number_of(tree, id, Attr::X),
            len: count_of(tree, id, Attr::W),
        },
        Axis::Down => Span {
            from: number_of(tree, id, Attr::Y),
            len: count_of(tree, id, Attr::H),
        },
    }
}

/// One axis of a widget that has this span and, where it is a Grid, these tracks.
pub(crate) fn side_of(tree: &Tree, id: Id, axis: Axis, span: Span, tracks: &Tracks) -> Side
    requires valid { IsWidgets tree.now }
    requires live { IsLive tree.now id.key }
    requires tracks { (row_for tree.now id.key).kind ≡ Grid → AreTracks (needs_for axis tree.now id.key) (rules_of axis (row_for tree.now id.key)) tracks.now }
    requires span { span ≡ span_along (rows_of tree.now) axis (row_for tree.now id.key) }
    ensures { IsSide axis tree.now id.key result }
{
    let kind = kind_of(tree, id);
    match kind {
        Kind::Grid => Side {
            kind,
            span,
            offset: 0,
            used: tracks.used,
            lengths: lengths_in(tracks, span.len),
        },
        Kind::Frame => Side {
            kind,
            span,
            offset: offset_of(tree, id, axis),
            used: 0,
            lengths: [0; 16],
        },
        _ => Side {
            kind,
            span,
            offset: 0,
            used: 0,
            lengths: [0; 16],
        },
    }
}

/// The span of a child of the widget.
pub(crate) fn child_span(tree: &Tree, id: Id, axis: Axis, whole: &Side, child: &Child) -> Span
    requires valid { IsWidgets tree.now }
    requires live { IsLive tree.now id.key }
    requires side { IsSide axis tree.now id.key whole.now }
    requires parent { parent_id tree.now child.now.key ≡ Some id.key }
    requires child { child.now ≡ child_for tree.now child.now.key }
    ensures { result ≡ span_along (rows_of tree.now) axis (row_for tree.now child.now.key) }
{
    let pad = child.cell.pad;
    match whole.kind {
        Kind::Window => inset(pad, content(axis, whole.span)),
        Kind::Grid => inset(
            pad,
            track_span(
                &whole.lengths[..whole.used],
                whole.span,
                track_of(axis, child.cell),
            ),
        ),
        Kind::Frame => framed(pad, whole.offset, side(axis, child.least), whole.span),
        _ => Span { from: 0, len: 0 },
    }
}

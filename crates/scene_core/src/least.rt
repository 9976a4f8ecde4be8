//! Least sizes, from the leaves up.
ghost use Rattle.std.specs.Prelude.{◌≡◌, Some};
ghost use Rattle.std.specs.Option.{option_map};
ghost use Rattle.kind_core.specs.declared.kinds.Kind.TheVariants.{Grid};
ghost use Rattle.widget_model.specs.Trees.{most_levels};
ghost use Rattle.widget_model.specs.Widgets.{IsLive, IsGrid, rows_of, row_at};
ghost use Rattle.scene_model.specs.declared.axis.Axis.TheVariants.{Across, Down};
ghost use Rattle.widget_model.specs.Forest.{IsWidgets};
ghost use Rattle.scene_core.specs.Children.{row_for, size_of, size_for, child_for, needs_for, AreChildren, IsDeep};
ghost use Rattle.scene_core.specs.Known.{AreKnown, AreBothTracks};
ghost use Rattle.scene_core.specs.Measured.{AreAsked};

use crate::asked::{BothAsked, none_asked, raise};
use crate::child::Child;
use crate::children::child_keys;
use crate::known::Known;
use crate::own::own_size;
use crate::reading::{cell_of, kind_of};
use crate::size::Size;
use crate::tracks::{BothTracks, least_length, no_tracks, tracks_of};
use kind_core::Kind;
use scene_model::Axis;
use tree_core::{Id, Tree};

/// The widget as a measured child.
#[cycle(least)]
pub(crate) fn as_child(tree: &Tree, known: &mut Known, most: u32, id: Id) -> Child
    requires valid { IsWidgets tree.now }
    requires live { IsLive tree.now id.key }
    requires deep { IsDeep tree.now most id.key }
    requires known { AreKnown tree.now known.old }
    ensures child { result ≡ child_for tree.now id.key }
    ensures known { AreKnown tree.now known.new }
{
    let cell = cell_of(tree, id);
    let least = least(tree, known, most, id);
    Child {
        key: id.key,
        cell,
        least,
    }
}

/// What the children of the widget, with these numbers, ask for.
#[cycle(least)]
fn asked_by(tree: &Tree, known: &mut Known, most: u32, id: Id, keys: &[u32]) -> BothAsked
    requires valid { IsWidgets tree.now }
    requires live { IsLive tree.now id.key }
    requires deep { IsDeep tree.now most id.key }
    requires known { AreKnown tree.now known.old }
    requires children { AreChildren tree.now id.key keys.now }
    ensures across { AreAsked (needs_for Across tree.now id.key) result.across }
    ensures down { AreAsked (needs_for Down tree.now id.key) result.down }
    ensures known { AreKnown tree.now known.new }
{
    let mut across = none_asked();
    let mut down = none_asked();
    for key in keys {
        let child = as_child(tree, known, most - 1, Id { key: *key });
        raise(&mut across, Axis::Across, child);
        raise(&mut down, Axis::Down, child);
    }
    BothAsked { across, down }
}

/// The least size of the widget. It is worked out once, and then known.
#[cycle(least)]
pub(crate) fn least(tree: &Tree, known: &mut Known, most: u32, id: Id) -> Size
    requires valid { IsWidgets tree.now }
    requires live { IsLive tree.now id.key }
    requires deep { IsDeep tree.now most id.key }
    requires known { AreKnown tree.now known.old }
    ensures size { result ≡ size_for tree.now id.key }
    ensures known { AreKnown tree.now known.new }
{
    match known.get(id.key) {
        Some(size) => return size,
        None => {}
    }
    let size = fresh(tree, known, most, id);
    known.put(id.key, size);
    size
}

/// The least size of the widget, from its kind or its children.
#[cycle(least)]
fn fresh(tree: &Tree, known: &mut Known, most: u32, id: Id) -> Size
    requires valid { IsWidgets tree.now }
    requires live { IsLive tree.now id.key }
    requires deep { IsDeep tree.now most id.key }
    requires known { AreKnown tree.now known.old }
    ensures size { result ≡ size_for tree.now id.key }
    ensures known { AreKnown tree.now known.new }
{
    let kind = kind_of(tree, id);
    match kind {
        Kind::Grid => grid_size(tree, known, most, id),
        _ => own_size(tree, id, kind),
    }
}

/// The least size of a Grid, from its tracks.
#[cycle(least)]
fn grid_size(tree: &Tree, known: &mut Known, most: u32, id: Id) -> Size
    requires valid { IsWidgets tree.now }
    requires grid { IsGrid tree.now id.key }
    requires live { IsLive tree.now id.key }
    requires deep { IsDeep tree.now most id.key }
    requires known { AreKnown tree.now known.old }
    ensures size { result ≡ size_for tree.now id.key }
    ensures known { AreKnown tree.now known.new }
{
    let tracks = grid_tracks(tree, known, most, id);
    let w = least_length(&tracks.across);
    let h = least_length(&tracks.down);
    Size { w, h }
}

/// The tracks of a Grid. They are kept, until those of another Grid take their place.
#[cycle(least)]
fn grid_tracks(tree: &Tree, known: &mut Known, most: u32, id: Id) -> BothTracks
    requires valid { IsWidgets tree.now }
    requires grid { IsGrid tree.now id.key }
    requires live { IsLive tree.now id.key }
    requires deep { IsDeep tree.now most id.key }
    requires known { AreKnown tree.now known.old }
    ensures tracks { AreBothTracks tree.now id.key result }
    ensures known { AreKnown tree.now known.new }
{
    match known.tracks(id.key) {
        Some(kept) => return kept.tracks,
        None => {}
    }
    let tracks = fresh_tracks(tree, known, most, id);
    known.put_tracks(id.key, tracks);
    tracks
}

/// The tracks of a Grid, from its children.
#[cycle(least)]
fn fresh_tracks(tree: &Tree, known: &mut Known, most: u32, id: Id) -> BothTracks
    requires valid { IsWidgets tree.now }
    requires grid { IsGrid tree.now id.key }
    requires live { IsLive tree.now id.key }
    requires deep { IsDeep tree.now most id.key }
    requires known { AreKnown tree.now known.old }
    ensures tracks { AreBothTracks tree.now id.key result }
    ensures known { AreKnown tree.now known.new }
{
    let keys = child_keys(tree, id);
    let asked = asked_by(tree, known, most, id, keys.as_slice());
    let across = tracks_of(tree, id, Axis::Across, &asked.across);
    let down = tracks_of(tree, id, Axis::Down, &asked.down);
    BothTracks { across, down }
}

/// The tracks of the widget where it is a Grid; another has none.
pub(crate) fn tracks_for(tree: &Tree, known: &mut Known, most: u32, id: Id) -> BothTracks
    requires valid { IsWidgets tree.now }
    requires live { IsLive tree.now id.key }
    requires deep { IsDeep tree.now most id.key }
    requires known { AreKnown tree.now known.old }
    ensures tracks { (row_for tree.now id.key).kind ≡ Grid → AreBothTracks tree.now id.key result }
    ensures known { AreKnown tree.now known.new }
{
    match kind_of(tree, id) {
        Kind::Grid => grid_tracks(tree, known, most, id),
        _ => BothTracks {
            across: no_tracks(),
            down: no_tracks(),
        },
    }
}

/// The least size of the widget, in pixels: what it needs to show all that it has. It is worked out from scratch: each
/// widget below a Grid is visited once, with some four look-ups in hash maps and, for a Grid, one for the rule of each of
/// its 32 tracks, and its 256 cells. Another kind needs nothing of its children. See docs/MACHINE.md, "Layout".
pub fn least_size(tree: &Tree, id: Id) -> Size
    requires valid { IsWidgets tree.now }
    requires live { IsLive tree.now id.key }
    ensures { option_map (size_of (rows_of tree.now)) (row_at tree.now.entries id.key) ≡ Some result }
{
    let mut known = Known::new();
    least(tree, &mut known, most_levels(), id)
}

/// A tree has at most that many levels, which are 12. See docs/MACHINE.md, "Widgets".
#[tactic(auto, unfolding(widget_model::specs::Trees::most_levels))]
pub fn most_levels() -> u32
    ensures { result ≡ most_levels }
{
    12
}

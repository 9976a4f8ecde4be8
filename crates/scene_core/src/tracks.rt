//! The tracks of a Grid along one axis.
ghost use Rattle.std.specs.Prelude.{◌≡◌, ◌≤◌, ◌<◌, ◌+◌, ◌||◌, nat_lt, take, sum, min, max, All, slice_set, if◌then◌else◌};
ghost use Rattle.grid_layout.specs.Spread.{widths_of};
ghost use Rattle.widget_model.specs.Widgets.{IsGrid};
ghost use Rattle.scene_model.specs.Tracks.{rules_of};
ghost use Rattle.widget_model.specs.Forest.{IsWidgets};
ghost use Rattle.scene_core.specs.Children.{row_for, needs_for};
ghost use Rattle.scene_core.specs.Measured.{AreAsked, AreTracks};

use crate::asked::Asked;
use crate::reading::rule_of;
use crate::spans::sum_of;
use grid_layout::spread;
use scene_model::Axis;
use tree_core::{Id, Tree};

/// The tracks in use of a Grid, columns or rows: how many there are, and the least length and the weight of each, the
/// first at index 0.
#[derive(Clone, Copy)]
pub(crate) struct Tracks {
    pub(crate) used: usize,
    pub(crate) least: [u32; 16],
    pub(crate) weights: [u32; 16],
}

/// The tracks in use of a Grid along both axes.
#[derive(Clone, Copy)]
pub(crate) struct BothTracks {
    pub(crate) across: Tracks,
    pub(crate) down: Tracks,
}

/// No tracks.
pub(crate) fn no_tracks() -> Tracks
    ensures { result.used ≡ 0 }
{
    Tracks {
        used: 0,
        least: [0; 16],
        weights: [0; 16],
    }
}

/// The lengths of the tracks in that room, the first at index 0.
pub(crate) fn lengths_in(tracks: &Tracks, room: u32) -> [u32; 16]
    requires few { tracks.now.used ≤ 16 }
    requires least_small { All (λ n. n ≤ 4128) tracks.now.least }
    requires weights_small { All (λ n. n ≤ 1000) tracks.now.weights }
    requires room_small { room ≤ 4128 }
    ensures { take tracks.now.used result ≡ widths_of (take tracks.now.used tracks.now.least) (take tracks.now.used tracks.now.weights) room }
{
    let used = tracks.used;
    let mut lengths = [0; 16];
    spread(
        &tracks.least[..used],
        &tracks.weights[..used],
        room,
        &mut lengths[..used],
    );
    lengths
}

/// What the tracks need together, and at most 4,096.
#[tactic(auto, using(crate::proofs::Lengths::sum_take_small))]
pub(crate) fn least_length(tracks: &Tracks) -> u32
    requires few { tracks.now.used ≤ 16 }
    requires least_small { All (λ n. n ≤ 4128) tracks.now.least }
    ensures { result ≡ min (sum (take tracks.now.used tracks.now.least)) 4096 }
{
    sum_of(&tracks.least[..tracks.used]).min(4096)
}

/// Gives the track with that index, from 0, its least length and its weight, and counts it where it has a rule.
fn set_track(tracks: &mut Tracks, index: usize, rule: (u32, u32), room: u32)
    requires { index < 16 }
    ensures least { tracks.new.least ≡ slice_set tracks.old.least index (max rule.0 room) }
    ensures weights { tracks.new.weights ≡ slice_set tracks.old.weights index rule.1 }
    ensures used { tracks.new.used ≡ max tracks.old.used (if nat_lt 0 rule.0 || nat_lt 0 rule.1 then index + 1 else 0) }
{
    tracks.least[index] = rule.0.max(room);
    tracks.weights[index] = rule.1;
    if rule.0 > 0 || rule.1 > 0 {
        tracks.used = tracks.used.max(index + 1);
    }
}

/// The tracks in use of a Grid along the axis, where its children ask for this.
pub(crate) fn tracks_of(tree: &Tree, id: Id, axis: Axis, asked: &Asked) -> Tracks
    requires valid { IsWidgets tree.now }
    requires grid { IsGrid tree.now id.key }
    requires asked { AreAsked (needs_for axis tree.now id.key) asked.now }
    ensures { AreTracks (needs_for axis tree.now id.key) (rules_of axis (row_for tree.now id.key)) result }
{
    let mut tracks = Tracks {
        used: asked.last as usize,
        least: [0; 16],
        weights: [0; 16],
    };
    for index in 0..16 {
        let rule = rule_of(tree, id, axis, index as u32 + 1);
        set_track(&mut tracks, index, rule, asked.rooms[index]);
    }
    tracks
}

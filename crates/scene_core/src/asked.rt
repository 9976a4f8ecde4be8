//! What children ask for of the tracks of a Grid.
ghost use Rattle.std.specs.Prelude.{◌≡◌, ◌≤◌, ◌<◌, ◌+◌, ◌==◌, ℕ, [], slice_index, max, if◌then◌else◌};
ghost use Rattle.scene_model.specs.Tracks.{track_in};
ghost use Rattle.scene_core.specs.Measured.{AreAsked, IsMeasured, need_seen, side};

use crate::child::Child;
use crate::size::Size;
use kind_core::Cell;
use scene_model::Axis;

/// What children ask for along one axis: the most room in each track, the first at index 0, and the last track with a
/// child, 0 where there is none.
#[derive(Clone, Copy)]
pub(crate) struct Asked {
    pub(crate) rooms: [u32; 16],
    pub(crate) last: u32,
}

/// What children ask for along both axes.
#[derive(Clone, Copy)]
pub(crate) struct BothAsked {
    pub(crate) across: Asked,
    pub(crate) down: Asked,
}

/// The column of a cell, or its row.
pub(crate) fn track_of(axis: Axis, cell: Cell) -> u32
    ensures { result ≡ track_in axis cell }
{
    match axis {
        Axis::Across => cell.column,
        Axis::Down => cell.row,
    }
}

/// The width of a size, or its height.
pub(crate) fn side(axis: Axis, size: Size) -> u32
    ensures { result ≡ side axis size }
{
    match axis {
        Axis::Across => size.w,
        Axis::Down => size.h,
    }
}

/// No child asks for room.
pub(crate) fn none_asked() -> Asked
    ensures { AreAsked [] result }
{
    Asked {
        rooms: [0; 16],
        last: 0,
    }
}

/// Adds what the child asks for.
pub(crate) fn raise(asked: &mut Asked, axis: Axis, child: Child)
    requires { IsMeasured child }
    ensures rooms { (index : ℕ) → index < 16 → slice_index asked.new.rooms index ≡ max (slice_index asked.old.rooms index) (if (need_seen axis child).track == index + 1 then (need_seen axis child).room else 0) }
    ensures last { asked.new.last ≡ max asked.old.last (need_seen axis child).track }
    ensures small { (need_seen axis child).room ≤ 4128 }
    ensures within { (need_seen axis child).track ≤ 16 }
{
    let track = track_of(axis, child.cell);
    let room = side(axis, child.least) + 2 * child.cell.pad;
    let index = track as usize - 1;
    asked.rooms[index] = asked.rooms[index].max(room);
    asked.last = asked.last.max(track);
}

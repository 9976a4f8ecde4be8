ghost use Rattle.std.specs.Prelude.{◌≤◌, length, IfSome, MatchOption};
ghost use Rattle.painter_core.specs.Stage.{layers_of, IsPaintable, IsThere};
ghost use Rattle.painter_core.specs.Trail.{PassesAll, Finds};

use crate::slots::{in_slot, place, slot_count};
use geom_core::{Rect, meet};
use scene_core::View;

/// A slot whose widget shares pixels with a piece.
#[derive(Clone, Copy, Debug)]
pub struct Meeting {
    pub slot: u32,
    pub id: u32,
    /// The pixels that are in both.
    pub shared: Rect,
}

/// The first slot from `from` on, below the widget or among the open windows, whose widget shares pixels with the
/// piece.
pub fn first_meeting(view: &View<'_>, under: Option<u32>, from: u32, piece: Rect) -> Option<Meeting>
    requires stage { IsPaintable view.now }
    requires there { IfSome under (IsThere view.now) }
    ensures found { MatchOption result (PassesAll (layers_of view.now) under from piece)
        (λ found. Finds (layers_of view.now) under from piece found.slot found.id found.shared) }
    ensures there { IfSome result (λ found. IsThere view.now found.id) }
{
    for slot in from..slot_count(view, under) {
        match in_slot(view, under, slot) {
            Some(id) => {
                let shared = meet(piece, place(view, id));
                if shared.w != 0 && shared.h != 0 {
                    return Some(Meeting { slot, id, shared });
                }
            }
            None => {}
        }
    }
    None
}

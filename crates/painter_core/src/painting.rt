ghost use Rattle.std.specs.Prelude.{◌≡◌, ◌+◌, ◌^◌, ◌<◌, ◌≤◌, length, IfSome};
ghost use Rattle.canvas_core.specs.Screen.{IsScreen};
ghost use Rattle.geom_core.specs.Rect.{area_of, IsEnclosed, IsInside};
ghost use Rattle.geom_core.specs.Count.{screen_of};
ghost use Rattle.painter_core.specs.Painted.{Paints};
ghost use Rattle.painter_core.specs.Stage.{layers_of, IsPaintable, IsThere};
ghost use Rattle.painter_core.specs.Trail.{trail, slots_from};

use crate::filling::fill_wanted;
use crate::meeting::first_meeting;
use canvas_core::Canvas;
use geom_core::{Rect, cut};
use scene_core::View;

/// Paints the wanted pixels of the piece, which the widget `under` shows where nothing from the slot `from` on below
/// it does, and answers how many they are. It goes so many levels down at the most.
pub fn paint_from(
    view: &View<'_>,
    only: Option<u32>,
    under: Option<u32>,
    depth: u32,
    from: u32,
    piece: Rect,
    canvas: &mut Canvas,
) -> u32
    requires stage { IsPaintable view.now }
    requires there { IfSome under (IsThere view.now) }
    requires inside { IfSome under (λ id. IsInside piece ((layers_of view.now).rect id)) }
    requires few_slots { length ((layers_of view.now).below under) ≤ 256 }
    requires filled { 0 < area_of piece }
    requires on_screen { IsEnclosed piece (screen_of canvas.old.width canvas.old.height) }
    requires valid { IsScreen canvas.old }
    requires count_fits { canvas.old.writes + area_of piece < 2 ^ 32 }
    ensures { Paints (layers_of view.now) only under (trail depth (layers_of view.now) (slots_from (layers_of view.now) under from)) piece result canvas.old canvas.new }
{
    if depth == 0 {
        return fill_wanted(view, only, under, piece, canvas);
    }
    match first_meeting(view, under, from, piece) {
        None => fill_wanted(view, only, under, piece, canvas),
        Some(found) => {
            let shared = found.shared;
            let mut count = paint_from(view, only, Some(found.id), depth - 1, 0, shared, canvas);
            let parts = cut(piece, shared);
            for part in parts.as_slice() {
                count += paint_from(view, only, under, depth, found.slot + 1, *part, canvas);
            }
            count
        }
    }
}

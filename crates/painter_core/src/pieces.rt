ghost use Rattle.std.specs.Prelude.{◌≡◌, ◌+◌, ◌-◌, ◌^◌, ◌<◌, ◌≤◌};
ghost use Rattle.canvas_core.specs.Screen.{IsScreen, risen};
ghost use Rattle.geom_core.specs.Rect.{area_of, in_rect, IsInside};
ghost use Rattle.geom_core.specs.Count.{screen_of};
ghost use Rattle.painter_core.specs.Painting.{ShowsScene, HasOneTop};
ghost use Rattle.scene_core.specs.View.{IsView, KeepsPlaces, scene_of};

use crate::painting::paint_from;
use canvas_core::Canvas;
use geom_core::{Rect, area};
use scene_core::View;

/// How many levels there are: the windows', and 12 below.
pub const LEVELS: u32 = 13;

/// Draws the piece, a rectangle of pixels of the screen, as the view shows it: each of its pixels gets its colour, and
/// no other pixel changes. As many bytes are written as it has pixels, by the counts of all time too. A piece that one
/// widget shows, or none does, is written in whole rows, a span for each.
///
/// The canvas has the view's size, the piece is on it, and its count of writes has room for the piece's area. The
/// view's widgets and the places that are kept of them are as every call of a desk leaves them. Nothing is refused, and
/// no memory is taken. See docs/MACHINE.md, "Painting".
pub fn paint(piece: Rect, view: &View<'_>, canvas: &mut Canvas)
    requires view { IsView view.now }
    requires places { KeepsPlaces view.now.tree.now view.now.stack.now }
    requires valid { IsScreen canvas.old }
    requires width { canvas.old.width ≡ view.now.width }
    requires height { canvas.old.height ≡ view.now.height }
    requires on_screen { IsInside piece (screen_of canvas.old.width canvas.old.height) }
    requires count_fits { canvas.old.writes + area_of piece < 2 ^ 32 }
    ensures pixels { ShowsScene (in_rect piece) (scene_of view.now) canvas.old canvas.new }
    ensures writes { canvas.new.writes ≡ canvas.old.writes + area_of piece }
    ensures all_writes { canvas.new.all_writes ≡ risen canvas.old.all_writes (area_of piece) }
    ensures spans_grow { canvas.old.spans ≤ canvas.new.spans }
    ensures all_spans { canvas.new.all_spans ≡ risen canvas.old.all_spans (canvas.new.spans - canvas.old.spans) }
    ensures spans { 0 < area_of piece → HasOneTop (scene_of view.now) piece → canvas.new.spans ≡ canvas.old.spans + piece.h }
    ensures width { canvas.new.width ≡ canvas.old.width }
    ensures height { canvas.new.height ≡ canvas.old.height }
    ensures valid { IsScreen canvas.new }
{
    if area(piece) == 0 {
        return;
    }
    paint_from(view, None, None, LEVELS, 0, piece, canvas);
}

//! What a tick does to the dirt.
ghost use Rattle.std.specs.Prelude.{◌≡◌, ◌+◌, ◌^◌, ◌<◌, ◌≤◌, min};
ghost use Rattle.canvas_core.specs.Screen.{IsScreen};
ghost use Rattle.scene_core.specs.View.{IsView, KeepsPlaces, scene_of};
ghost use Rattle.redraw_core.specs.Dirt.{IsDirt, dirty_count};
ghost use Rattle.drawing_core.specs.Drawing.{Drawn};

use canvas_core::Canvas;
use painter_core::paint;
use redraw_core::Queue;
use scene_core::View;

/// Draws dirty pixels as the view shows them, which are clean then, until `room` of them are drawn or none is dirty, and
/// answers how many it drew. No other pixel is written.
///
/// The queue, the canvas and the view have one size, the view's widgets and the places that are kept of them are as
/// every call of a desk leaves them, and the canvas's count of writes has room. It takes no memory. See docs/MACHINE.md,
/// "A tick".
pub fn draw(view: &View<'_>, queue: &mut Queue, canvas: &mut Canvas, room: u32) -> u32
    requires view { IsView view.now }
    requires places { KeepsPlaces view.now.tree.now view.now.stack.now }
    requires dirt { IsDirt queue.old }
    requires screen { IsScreen canvas.old }
    requires width { canvas.old.width ≡ view.now.width }
    requires height { canvas.old.height ≡ view.now.height }
    requires dirt_width { queue.old.width ≡ view.now.width }
    requires dirt_height { queue.old.height ≡ view.now.height }
    requires count_fits { canvas.old.writes + room < 2 ^ 32 }
    ensures many { result ≡ min (dirty_count queue.old) room }
    ensures drawn { Drawn (scene_of view.now) queue.old canvas.old result queue.new canvas.new }
{
    let mut drawn = 0;
    while drawn < room {
        let count = draw_piece(view, queue, canvas, room - drawn);
        if count == 0 {
            return drawn;
        }
        drawn += count;
    }
    drawn
}

/// Draws one rectangle of at most `room` dirty pixels, and answers how many they are: 0 exactly where none is dirty.
fn draw_piece(view: &View<'_>, queue: &mut Queue, canvas: &mut Canvas, room: u32) -> u32
    requires view { IsView view.now }
    requires places { KeepsPlaces view.now.tree.now view.now.stack.now }
    requires dirt { IsDirt queue.old }
    requires screen { IsScreen canvas.old }
    requires width { canvas.old.width ≡ view.now.width }
    requires height { canvas.old.height ≡ view.now.height }
    requires dirt_width { queue.old.width ≡ view.now.width }
    requires dirt_height { queue.old.height ≡ view.now.height }
    requires count_fits { canvas.old.writes + room < 2 ^ 32 }
    requires some { 1 ≤ room }
    ensures few { result ≤ room }
    ensures none { result ≡ 0 → dirty_count queue.old ≡ 0 }
    ensures drawn { Drawn (scene_of view.now) queue.old canvas.old result queue.new canvas.new }
{
    match queue.next(room) {
        Some(piece) => {
            paint(piece, view, canvas);
            piece.w * piece.h
        }
        None => 0,
    }
}

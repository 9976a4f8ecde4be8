//! What a tick does to the bands of films.
ghost use Rattle.std.specs.Prelude.{◌≡◌, ◌+◌, ◌*◌, ◌^◌, ◌<◌};
ghost use Rattle.std.specs.List.{All};
ghost use Rattle.canvas_core.specs.Screen.{IsScreen};
ghost use Rattle.widget_model.specs.Widgets.{IsLive};
ghost use Rattle.scene_core.specs.View.{IsView, KeepsPlaces};
ghost use Rattle.drawing_core.specs.Banding.{AreOfOneEach, BandsDrawn};

use canvas_core::Canvas;
use painter_core::paint_band;
use scene_core::View;
use tree_core::Id;
use vscreen_core::Band;

/// Draws the bands of these widgets' films wherever the screen shows them, and answers how many pixels that is: exactly
/// the screen's pixels on which one of the widgets is on top, at a pixel of its film that is in its band, get their
/// colour, as many bytes are written, by the counts of all time too, and no other pixel changes.
///
/// Each widget is live, and none is named twice; where it has no film, or no open window shows it, nothing is drawn of
/// it. The canvas and the view have one size, the view's widgets and the places that are kept of them are as every call
/// of a desk leaves them, and the canvas's count of writes has room for the pixels of two screens. It takes no memory.
/// See docs/MACHINE.md, "A tick".
pub fn draw_bands(view: &View<'_>, bands: &[(Id, Band)], canvas: &mut Canvas) -> u32
    requires view { IsView view.now }
    requires places { KeepsPlaces view.now.tree.now view.now.stack.now }
    requires live { All (λ entry. IsLive view.now.tree.now entry.0.key) bands.now }
    requires one_each { AreOfOneEach bands.now }
    requires screen { IsScreen canvas.old }
    requires width { canvas.old.width ≡ view.now.width }
    requires height { canvas.old.height ≡ view.now.height }
    requires count_fits { canvas.old.writes + 2 * (canvas.old.width * canvas.old.height) < 2 ^ 32 }
    ensures { BandsDrawn view.now bands.now result canvas.old canvas.new }
{
    let mut count = 0;
    for entry in bands {
        count += paint_band(entry.0, entry.1, view, canvas);
    }
    count
}

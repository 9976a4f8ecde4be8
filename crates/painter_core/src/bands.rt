ghost use Rattle.std.specs.Prelude.{◌≡◌, ◌+◌, ◌-◌, ◌*◌, ◌^◌, ◌<◌, ◌≤◌, ℤ, true, Some, None};
ghost use Rattle.canvas_core.specs.Screen.{IsScreen, risen};
ghost use Rattle.geom_core.specs.Count.{count_in, screen_of};
ghost use Rattle.geom_core.specs.Pieces.{covers, total_area, AreDisjoint, HavePixels};
ghost use Rattle.geom_core.specs.Rect.{in_rect};
ghost use Rattle.painter_core.specs.Banding.{view_shows_band};
ghost use Rattle.scene_model.specs.Bands.{lying_at};
ghost use Rattle.painter_core.specs.Painted.{PaintsAll};
ghost use Rattle.painter_core.specs.Painting.{ShowsScene};
ghost use Rattle.painter_core.specs.Stage.{layers_of, IsPaintable, IsThere};
ghost use Rattle.painter_core.specs.Trail.{trail, slots_from};
ghost use Rattle.scene_core.specs.View.{IsView, KeepsPlaces, scene_of};
ghost use Rattle.widget_model.specs.Widgets.{IsLive};

use crate::painting::paint_from;
use crate::pieces::LEVELS;
use crate::runs::band_parts;
use canvas_core::Canvas;
use geom_core::Rect;
use scene_core::View;
use tree_core::Id;
use vscreen_core::{Band, Film};

/// Where a film of that size lies, of a VScreen that has this place.
fn lying_at(place: Rect, width: u32, height: u32) -> Rect
    ensures { result ≡ lying_at place width height }
{
    Rect {
        w: width,
        h: height,
        ..place
    }
}

/// Where the film of a widget lies that an open window shows.
fn film_at(view: &View<'_>, id: Id, film: &Film) -> Rect
    requires kept { KeepsPlaces view.now.tree.now view.now.stack.now }
    requires live { IsLive view.now.tree.now id.key }
    ensures place { IsThere view.now id.key → result ≡ lying_at ((layers_of view.now).rect id.key) film.now.width film.now.height }
    ensures some { 0 < result.w }
    ensures wide { result.w ≤ 256 }
    ensures high { result.h ≤ 256 }
{
    let width = film.width();
    let height = film.height();
    match view.tree.place_of(id) {
        Some(place) => lying_at(place, width, height),
        None => lying_at(Rect::default(), width, height),
    }
}

/// Paints the pixels of the parts on which the widget is on top, and answers how many they are.
fn paint_parts(view: &View<'_>, id: u32, parts: &[Rect], canvas: &mut Canvas) -> u32
    requires stage { IsPaintable view.now }
    requires on_screen { (x y : ℤ) → covers parts.now x y ≡ true → in_rect (screen_of canvas.old.width canvas.old.height) x y ≡ true }
    requires disjoint { AreDisjoint parts.now }
    requires filled { HavePixels parts.now }
    requires valid { IsScreen canvas.old }
    requires count_fits { canvas.old.writes + total_area parts.now < 2 ^ 32 }
    ensures { PaintsAll (layers_of view.now) (Some id) None (trail 13 (layers_of view.now) (slots_from (layers_of view.now) None 0)) parts.now result canvas.old canvas.new }
{
    let mut count = 0;
    for part in parts {
        count += paint_from(view, Some(id), None, LEVELS, 0, *part, canvas);
    }
    count
}

/// Draws a band of the widget's film wherever the screen shows it, and answers how many pixels that is: exactly the
/// screen's pixels on which the widget is on top, at a pixel of its film that is in the band, get their colour, and no
/// other pixel changes. As many bytes are written, by the counts of all time too. A band is drawn as at most three
/// rectangles: the rest of its first row, whole rows, and the start of its last row.
///
/// The widget is live; where it has no film, or no open window shows it, nothing is drawn. The canvas has the view's size,
/// and its count of writes has room for all pixels of the screen. The view is as every call of a desk leaves it. Nothing
/// is refused, and no memory is taken. See docs/MACHINE.md, "Painting".
pub fn paint_band(id: Id, band: Band, view: &View<'_>, canvas: &mut Canvas) -> u32
    requires view { IsView view.now }
    requires places { KeepsPlaces view.now.tree.now view.now.stack.now }
    requires live { IsLive view.now.tree.now id.key }
    requires valid { IsScreen canvas.old }
    requires width { canvas.old.width ≡ view.now.width }
    requires height { canvas.old.height ≡ view.now.height }
    requires count_fits { canvas.old.writes + canvas.old.width * canvas.old.height < 2 ^ 32 }
    ensures pixels { ShowsScene (view_shows_band view.now id.key band) (scene_of view.now) canvas.old canvas.new }
    ensures count { result ≡ count_in (view_shows_band view.now id.key band) (screen_of view.now.width view.now.height) }
    ensures writes { canvas.new.writes ≡ canvas.old.writes + result }
    ensures all_writes { canvas.new.all_writes ≡ risen canvas.old.all_writes result }
    ensures spans_grow { canvas.old.spans ≤ canvas.new.spans }
    ensures all_spans { canvas.new.all_spans ≡ risen canvas.old.all_spans (canvas.new.spans - canvas.old.spans) }
    ensures width { canvas.new.width ≡ canvas.old.width }
    ensures height { canvas.new.height ≡ canvas.old.height }
    ensures valid { IsScreen canvas.new }
{
    match view.tree.film(id) {
        Some(film) => {
            let parts = band_parts(film_at(view, id, film), band, view.width, view.height);
            paint_parts(view, id.key, parts.as_slice(), canvas)
        }
        None => 0,
    }
}

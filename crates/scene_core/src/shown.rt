//! Whether a kept place holds a pixel.
ghost use Rattle.std.specs.Prelude.{◌≡◌, Some};
ghost use Rattle.geom_core.specs.Rect.{in_rect};
ghost use Rattle.widget_model.specs.Widgets.{IsLive, rows_of, place_at};
ghost use Rattle.scene_model.specs.Placing.{place_in};
ghost use Rattle.scene_core.specs.Children.{row_for};

use geom_core::holds;
use tree_core::{Id, Tree};

/// Whether the widget's place holds the pixel.
pub(crate) fn holds_pixel(tree: &Tree, id: Id, x: i32, y: i32) -> bool
    requires live { IsLive tree.now id.key }
    requires kept { place_at tree.now id.key ≡ Some (place_in (rows_of tree.now) (row_for tree.now id.key)) }
    ensures { result ≡ in_rect (place_in (rows_of tree.now) (row_for tree.now id.key)) x y }
{
    match tree.place_of(id) {
        Some(place) => holds(place, x, y),
        None => false,
    }
}

//! What lies in what: the windows from top to bottom, and the children of a widget, in slots.
ghost use Rattle.std.specs.Prelude.{◌≡◌, ◌<◌, ◌≤◌, length, slice_index_or, None, IfSome};
ghost use Rattle.tree_core.specs.Children.{cells_of};
ghost use Rattle.painter_core.specs.Stage.{layers_of, child_in_slot, IsPaintable, IsThere};

use geom_core::Rect;
use kind_core::Kind;
use scene_core::View;
use tree_core::Id;

/// How many cells a widget of the kind has.
fn cells_of(kind: Kind) -> u32
    ensures count { result ≡ cells_of kind }
    ensures few { result ≤ 256 }
{
    match kind {
        Kind::Grid => 256,
        Kind::Window | Kind::Frame => 1,
        _ => 0,
    }
}

/// How many slots there are below the widget, or, below none, how many open windows.
pub fn slot_count(view: &View<'_>, under: Option<u32>) -> u32
    requires stage { IsPaintable view.now }
    requires there { IfSome under (IsThere view.now) }
    ensures count { result ≡ length ((layers_of view.now).below under) }
    ensures few { result ≤ 256 }
{
    match under {
        None => view.stack.len() as u32,
        Some(key) => cells_of(view.tree.kind(Id { key })),
    }
}

/// The widget in that slot below the widget, or, below none, the open window of that slot. Slots count from 0, from the
/// top window on, and down column by column.
pub fn in_slot(view: &View<'_>, under: Option<u32>, slot: u32) -> Option<u32>
    requires stage { IsPaintable view.now }
    requires there { IfSome under (IsThere view.now) }
    requires within { slot < length ((layers_of view.now).below under) }
    ensures found { result ≡ slice_index_or ((layers_of view.now).below under) slot None }
    ensures there { IfSome result (IsThere view.now) }
{
    match under {
        None => view.stack.at(slot as usize),
        Some(key) => child_in(view, key, slot),
    }
}

/// The widget in that slot below the widget.
fn child_in(view: &View<'_>, key: u32, slot: u32) -> Option<u32>
    requires there { IsThere view.now key }
    ensures found { result ≡ child_in_slot view.now.tree.now key slot }
    ensures there { IfSome result (IsThere view.now) }
{
    match view.tree.child_at(Id { key }, slot / 16 + 1, slot % 16 + 1) {
        Some(child) => Some(child.key),
        None => None,
    }
}

/// The kept place of the widget.
pub fn place(view: &View<'_>, id: u32) -> Rect
    requires stage { IsPaintable view.now }
    requires there { IsThere view.now id }
    ensures { result ≡ (layers_of view.now).rect id }
{
    match view.tree.place_of(Id { key: id }) {
        Some(place) => place,
        None => Rect {
            x: 0,
            y: 0,
            w: 0,
            h: 0,
        },
    }
}

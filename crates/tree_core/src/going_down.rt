ghost use Rattle.std.specs.Prelude.{◌≡◌, ◌≤◌, Some, IsSome};
ghost use Rattle.std.specs.Option.{option_map};
ghost use Rattle.std.specs.List.{list_any};
ghost use Rattle.widget_model.specs.Trees.{height_in, is_child};
ghost use Rattle.widget_model.specs.Widgets.{row_at};
ghost use Rattle.widget_model.specs.Widgets.{rows_in};
ghost use Rattle.tree_core.specs.Children.{HasChildren};
ghost use Rattle.tree_core.specs.Kept.{IsGrove};

use crate::kinds::cells_of;
use row_store::{Cells, Store};

/// How many levels there are from the live widget down, at most `most`.
pub(crate) fn height_in(store: &Store, cells: &Cells, most: u32, id: u32) -> u32
    requires grove { IsGrove store.now }
    requires children { HasChildren store.now cells.now }
    requires live { IsSome (row_at store.now id) }
    ensures height { option_map (λ row. height_in most (rows_in store.now) row.client row.name) (row_at store.now id) ≡ Some result }
    ensures within { result ≤ most }
{
    if most == 0 {
        return 0;
    }
    let mut greatest = 0;
    for index in 0..cells_of(store.row(id).kind()) {
        match cells.nth(id, index) {
            Some(child) => greatest = greatest.max(height_in(store, cells, most - 1, child)),
            None => {}
        }
    }
    1 + greatest
}

/// Whether a widget hangs in the live one.
pub(crate) fn has_child(store: &Store, cells: &Cells, id: u32) -> bool
    requires grove { IsGrove store.now }
    requires children { HasChildren store.now cells.now }
    requires live { IsSome (row_at store.now id) }
    ensures { option_map (λ row. list_any (is_child row.client row.name) (rows_in store.now)) (row_at store.now id) ≡ Some result }
{
    for index in 0..cells_of(store.row(id).kind()) {
        if cells.nth(id, index).is_some() {
            return true;
        }
    }
    false
}

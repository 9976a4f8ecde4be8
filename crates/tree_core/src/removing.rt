ghost use Rattle.std.specs.Prelude.{◌≡◌, Some, IsSome, not, nat_eq};
ghost use Rattle.std.specs.Option.{option_map};
ghost use Rattle.std.specs.List.{list_any, filter};
ghost use Rattle.widget_model.specs.Trees.{links_to, is_admitted, is_used};
ghost use Rattle.widget_model.specs.Widgets.{row_at};
ghost use Rattle.widget_model.specs.Widgets.{rows_in};
ghost use Rattle.tree_core.specs.Children.{HasChildren};
ghost use Rattle.tree_core.specs.Kept.{IsGrove};

use crate::going_down::has_child;
use crate::hanging::hangs;
use kind_core::Name;
use row_store::{Cells, Names, Row, Store};

/// Whether the row is another than the named one and is linked to it.
fn links_to(row: &Row, client: u32, name: &Name) -> bool
    ensures { result ≡ links_to client name.now row.now }
{
    let linked = match row.link() {
        Some(link) => *name == link,
        None => false,
    };
    client == row.client() && (linked && *name != row.name())
}

/// Whether another row is linked to the named one.
fn is_linked(store: &Store, client: u32, name: &Name) -> bool
    ensures { result ≡ list_any (links_to client name.now) (rows_in store.now) }
{
    for i in 0..store.len() {
        let (_, row) = store.at(i);
        if links_to(row, client, name) {
            return true;
        }
    }
    false
}

/// Whether the row is an admitted VScreen: whether its film has a period.
fn is_admitted(row: &Row) -> bool
    ensures { result ≡ is_admitted row.now }
{
    match row.film() {
        Some(film) => film.period() > 0,
        None => false,
    }
}

/// Whether the live widget hangs in another, or has a child, or is linked by another, or is admitted.
pub(crate) fn is_used(store: &Store, cells: &Cells, id: u32) -> bool
    requires grove { IsGrove store.now }
    requires children { HasChildren store.now cells.now }
    requires live { IsSome (row_at store.now id) }
    ensures { option_map (is_used (rows_in store.now)) (row_at store.now id) ≡ Some result }
{
    let row = store.row(id);
    hangs(row)
        || has_child(store, cells, id)
        || is_linked(store, row.client(), &row.name())
        || is_admitted(row)
}

/// Takes the client out of the joined ones.
pub(crate) fn drop_number(clients: &mut Vec<u32>, client: u32)
    ensures { clients.new.items ≡ filter (λ other. not (nat_eq client other)) clients.old.items }
{
    clients.retain(|other| client != *other);
}

ghost use Rattle.std.specs.Prelude.{◌≡◌, IsSome, IfSome};
ghost use Rattle.std.specs.Option.{option_and_then};
ghost use Rattle.widget_model.specs.Nodes.{id_named};
ghost use Rattle.widget_model.specs.Widgets.{row_at, nodes};
ghost use Rattle.widget_model.specs.Links.{name_at};
ghost use Rattle.row_store.specs.Index.{IsIndexed};

use crate::id::Id;
use kind_core::Name;
use row_store::{Names, Store, number_of};

/// The number of the row that the live row is linked to.
pub(crate) fn link_of(names: &Names, store: &Store, id: u32) -> Option<u32>
    requires indexed { IsIndexed names.now (nodes store.now) }
    requires live { IsSome (row_at store.now id) }
    ensures { result ≡ option_and_then (λ row. option_and_then (id_named (nodes store.now) row.client) row.link) (row_at store.now id) }
{
    let row = store.row(id);
    match row.link() {
        Some(name) => number_of(names, store, row.client(), &name),
        None => None,
    }
}

/// The name of the row, where there is one.
pub(crate) fn name_of(store: &Store, id: Option<Id>) -> Option<Name>
    requires { IfSome id (λ id. IsSome (row_at store.now id.key)) }
    ensures { result ≡ option_and_then (λ id. name_at store.now id.key) id }
{
    match id {
        Some(id) => Some(store.row(id.key).name()),
        None => None,
    }
}

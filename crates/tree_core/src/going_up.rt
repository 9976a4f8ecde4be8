ghost use Rattle.std.specs.Prelude.{◌≡◌, ◌≤◌, Some, IsSome};
ghost use Rattle.widget_model.specs.Trees.{parent_of, depth_in, is_above_in, root_in, most_levels};
ghost use Rattle.widget_model.specs.Relatives.{parent_id, root_id};
ghost use Rattle.widget_model.specs.Widgets.{row_at, nodes};
ghost use Rattle.widget_model.specs.Widgets.{rows_in};
ghost use Rattle.tree_core.specs.Children.{widgets_in};
ghost use Rattle.row_store.specs.Index.{IsIndexed};
ghost use Rattle.tree_core.specs.Kept.{IsGrove};

use kind_core::Name;
use row_store::{Names, Store, number_of};

/// A tree has at most that many levels.
const MOST_LEVELS: u32 = 12;

#[tactic(auto, unfolding(widget_model::specs::Trees::most_levels))]
pub(crate) fn most_levels() -> u32
    ensures most { result ≡ most_levels }
    ensures few { result ≤ 12 }
{
    MOST_LEVELS
}

/// The name of the named widget's parent.
fn parent_of(names: &Names, store: &Store, client: u32, name: &Name) -> Option<Name>
    requires indexed { IsIndexed names.now (nodes store.now) }
    requires grove { IsGrove store.now }
    ensures { result ≡ parent_of (rows_in store.now) client name.now }
{
    match number_of(names, store, client, name) {
        Some(id) => match store.row(id).attached() {
            Some((parent, _)) => Some(parent),
            None => None,
        },
        None => None,
    }
}

/// On which level the named widget is, of at most `most`.
pub(crate) fn depth_in(names: &Names, store: &Store, most: u32, client: u32, name: &Name) -> u32
    requires indexed { IsIndexed names.now (nodes store.now) }
    requires grove { IsGrove store.now }
    ensures depth { result ≡ depth_in most (rows_in store.now) client name.now }
    ensures within { result ≤ most }
{
    if most == 0 {
        return 0;
    }
    match parent_of(names, store, client, name) {
        Some(parent) => 1 + depth_in(names, store, most - 1, client, &parent),
        None => 1,
    }
}

/// Whether `upper` is the named widget or above it, in at most `most` levels.
pub(crate) fn is_above_in(
    names: &Names,
    store: &Store,
    most: u32,
    client: u32,
    upper: &Name,
    name: &Name,
) -> bool
    requires indexed { IsIndexed names.now (nodes store.now) }
    requires grove { IsGrove store.now }
    ensures { result ≡ is_above_in most (rows_in store.now) client upper.now name.now }
{
    if most == 0 {
        return false;
    }
    if *upper == *name {
        return true;
    }
    match parent_of(names, store, client, name) {
        Some(parent) => is_above_in(names, store, most - 1, client, upper, &parent),
        None => false,
    }
}

/// The name of the widget that is above the named one and hangs in none, after at most `most` levels.
fn root_in(names: &Names, store: &Store, most: u32, client: u32, name: &Name) -> Name
    requires indexed { IsIndexed names.now (nodes store.now) }
    requires grove { IsGrove store.now }
    ensures { result ≡ root_in most (rows_in store.now) client name.now }
{
    if most == 0 {
        return *name;
    }
    match parent_of(names, store, client, name) {
        Some(parent) => root_in(names, store, most - 1, client, &parent),
        None => *name,
    }
}

/// The number of the widget in which the live one hangs.
pub(crate) fn parent_number(names: &Names, store: &Store, id: u32) -> Option<u32>
    requires indexed { IsIndexed names.now (nodes store.now) }
    requires live { IsSome (row_at store.now id) }
    ensures { result ≡ parent_id (widgets_in store.now) id }
{
    let row = store.row(id);
    match row.attached() {
        Some((parent, _)) => number_of(names, store, row.client(), &parent),
        None => None,
    }
}

/// The number of the live widget's root.
pub(crate) fn root_number(names: &Names, store: &Store, id: u32) -> u32
    requires indexed { IsIndexed names.now (nodes store.now) }
    requires grove { IsGrove store.now }
    requires live { IsSome (row_at store.now id) }
    ensures { root_id (widgets_in store.now) id ≡ Some result }
{
    let row = store.row(id);
    let root = root_in(names, store, most_levels(), row.client(), &row.name());
    number_of(names, store, row.client(), &root).unwrap()
}

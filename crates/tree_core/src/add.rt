ghost use Rattle.std.specs.Prelude.{◌≡◌, ◌<◌, ◌≤◌, ◌++◌, ◌∷◌, [], None, true, is_ok, if◌then◌else◌};
ghost use Rattle.std.specs.List.{list_all};
ghost use Rattle.widget_model.specs.Rows.{new_row};
ghost use Rattle.widget_model.specs.Nodes.{id_named, is_number_of};
ghost use Rattle.widget_model.specs.Named.{rows_counted};
ghost use Rattle.widget_model.specs.Kinds.{any_kind, counts_with};
ghost use Rattle.widget_model.specs.Widgets.{row_at, nodes};
ghost use Rattle.row_store.specs.Counts.{AreCounts};
ghost use Rattle.row_store.specs.Index.{IsIndexed};
ghost use Rattle.widget_model.specs.Widgets.{rows_in};
ghost use Rattle.tree_core.specs.Refusals.{add_refusal};

use crate::refusal::AddRefusal;
use kind_core::{Kind, Name};
use row_store::{Counts, Names, Store, number_of, put_new};
use std::alloc::AllocError;

/// A number of the client that no row has: the first from the start on, which counts from the client's first
/// number, and goes round.
pub(crate) fn free_number(store: &Store, client: u32, start: u32) -> u32
    requires low { 1 ≤ client }
    requires high { client ≤ 16 }
    requires start { start < 128 }
    requires room { rows_counted client any_kind (rows_in store.now) < 128 }
    requires numbers { list_all (λ entry. is_number_of entry.1.client entry.0) (nodes store.now) ≡ true }
    ensures own { is_number_of client result ≡ true }
    ensures below { result < 2048 }
    ensures free { row_at store.now result ≡ None }
{
    let first = 128 * (client - 1);
    for k in 0..128 {
        let id = first + (start + k) % 128;
        if store.get(id).is_none() {
            return id;
        }
    }
    unreachable!()
}

/// Why the client can't have a new widget of that name and kind.
#[tactic(auto, using(crate::proofs::Listed::named_live))]
pub(crate) fn add_refusal(
    names: &Names,
    store: &Store,
    counts: &Counts,
    client: u32,
    name: &Name,
    kind: Kind,
) -> Option<AddRefusal>
    requires client { client < 17 }
    requires indexed { IsIndexed names.now (nodes store.now) }
    requires counted { AreCounts counts.now (rows_in store.now) }
    ensures { result ≡ add_refusal (rows_in store.now) client name.now kind }
{
    if number_of(names, store, client, name).is_some() {
        return Some(AddRefusal::NameTaken);
    }
    if counts.has(client, None) >= 128 {
        return Some(AddRefusal::Full { limit: 128 });
    }
    if counts.has(client, Some(kind)) >= 8 {
        return Some(AddRefusal::Full { limit: 8 });
    }
    None
}

/// Puts a new row last, under its number and its name, and counts it. An error leaves the rows as they were.
pub(crate) fn put_counted(
    names: &mut Names,
    store: &mut Store,
    counts: &mut Counts,
    id: u32,
    client: u32,
    name: Name,
    kind: Kind,
) -> Result<(), AllocError>
    requires client { client < 17 }
    requires indexed { IsIndexed names.old (nodes store.old) }
    requires counted { AreCounts counts.old (rows_in store.old) }
    requires free { row_at store.old id ≡ None }
    requires new_name { id_named (nodes store.old) client name ≡ None }
    requires room { rows_counted client any_kind (rows_in store.old) < 128 }
    requires alike { rows_counted client (counts_with kind) (rows_in store.old) < 8 }
    ensures rows { store.new ≡ (if is_ok result then store.old ++ (id, new_row client name kind) ∷ [] else store.old) }
    ensures indexed { IsIndexed names.new (nodes store.new) }
    ensures counted { AreCounts counts.new (rows_in store.new) }
{
    put_new(names, store, id, client, name, kind)?;
    counts.gain(client, kind, id);
    Ok(())
}

ghost use Rattle.std.specs.Prelude.{◌≡◌, ◌++◌, ◌∷◌, [], None, IsSome, IfOk, is_ok, if◌then◌else◌, not, nat_eq};
ghost use Rattle.std.specs.List.{filter};
ghost use Rattle.widget_model.specs.Rows.{new_row};
ghost use Rattle.widget_model.specs.Nodes.{id_named};
ghost use Rattle.widget_model.specs.Named.{AreNamedApart};
ghost use Rattle.widget_model.specs.Widgets.{row_at, nodes, rows_in, without_row};
ghost use Rattle.widget_model.specs.Forest.{HaveOwnNumbers};
ghost use Rattle.row_store.specs.Index.{IsIndexed};

use crate::row::Row;
use crate::store::Store;
use indexmap::IndexMap;
use kind_core::{Kind, Name};
use std::alloc::{AllocError, Global};
use std::marker::Model;

/// The numbers of the rows, under client and name, which contracts see as a list of entries. See
/// docs/MACHINE.md, "Widgets".
pub struct Names {
    numbers: IndexMap<(u32, Name), u32>,
}

impl Model for Names {
    ghost use Rattle.std.specs.Prelude.{ℕ, List};

    ghost Value = { List ((ℕ × List ℕ) × ℕ) };

    ghost view = { λ n. n.numbers.entries };
}

impl Drop for Names {
    fn drop(self) {
        let Names { numbers: _ } = self;
    }
}

impl Names {
    /// No names. It takes no memory yet.
    pub fn new(alloc: Global) -> Names
        ensures { result ≡ [] }
    {
        Names {
            numbers: IndexMap::new(alloc),
        }
    }

    /// The same numbers under the same names, in the same order. An error, which is want of memory, leaves nothing
    /// behind.
    pub fn copy(&self) -> Result<Names, AllocError>
        ensures { IfOk result (λ copy. copy ≡ self.now) }
    {
        Ok(Names {
            numbers: copy_numbers(&self.numbers)?,
        })
    }
}

/// The same numbers under the same names, in the same order.
fn copy_numbers(
    numbers: &IndexMap<(u32, Name), u32>,
) -> Result<IndexMap<(u32, Name), u32>, AllocError>
    ensures { IfOk result (λ copy. copy.entries ≡ numbers.now.entries) }
{
    numbers.clone()
}

/// The number of the client's row of that name, None exactly where there is none. One look-up in a hash map.
pub fn number_of(names: &Names, store: &Store, client: u32, name: &Name) -> Option<u32>
    requires { IsIndexed names.now (nodes store.now) }
    ensures { result ≡ id_named (nodes store.now) client name.now }
{
    names.numbers.get(&(client, *name)).copied()
}

/// Puts a new row last, under its number and its name. An error, which is want of memory, leaves the rows as
/// they were.
pub fn put_new(
    names: &mut Names,
    store: &mut Store,
    id: u32,
    client: u32,
    name: Name,
    kind: Kind,
) -> Result<(), AllocError>
    requires indexed { IsIndexed names.old (nodes store.old) }
    requires free { row_at store.old id ≡ None }
    requires new_name { id_named (nodes store.old) client name ≡ None }
    ensures rows { store.new ≡ (if is_ok result then store.old ++ (id, new_row client name kind) ∷ [] else store.old) }
    ensures indexed { IsIndexed names.new (nodes store.new) }
{
    names.numbers.reserve(1)?;
    store.push(id, Row::new(client, name, kind))?;
    let _ = names.numbers.insert((client, name), id);
    Ok(())
}

/// Takes out a live row, and its name. The later names move up, so the cost grows with their number.
pub fn take_out(names: &mut Names, store: &mut Store, id: u32)
    requires indexed { IsIndexed names.old (nodes store.old) }
    requires own_numbers { HaveOwnNumbers (nodes store.old) }
    requires own_names { AreNamedApart (rows_in store.old) }
    requires live { IsSome (row_at store.old id) }
    ensures rows { store.new ≡ without_row id store.old }
    ensures indexed { IsIndexed names.new (nodes store.new) }
{
    let row = store.row(id);
    let _ = names.numbers.shift_remove(&(row.client(), row.name()));
    store.remove(id);
}

/// Takes out the client's names. It goes over all names.
pub fn drop_names(names: &mut Names, client: u32)
    ensures { names.new ≡ filter (λ entry. not (nat_eq client entry.0.0)) names.old }
{
    names.numbers.retain(
        |key: &(u32, Name), id: &mut u32| -> bool
            ensures { (result ≡ not (nat_eq client key.now.0)) × (id.new ≡ id.old) }
        { client != key.0 },
    );
}

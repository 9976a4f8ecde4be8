ghost use Rattle.std.specs.Prelude.{◌≡◌, ◌<◌, ◌≤◌, not, ◌++◌, ◌∷◌, [], Some, None, IsSome, OnOk, OnErr, IfOk, length, slice_get, is_some};
ghost use Rattle.std.specs.Option.{option_copied, option_map};
ghost use Rattle.std.specs.List.{filter};
ghost use Rattle.slab.specs.Slab.{get as slab_get};
ghost use Rattle.widget_model.specs.Rows.{with_film};
ghost use Rattle.widget_model.specs.Nodes.{is_number_of};
ghost use Rattle.widget_model.specs.Widgets.{row_at, with_row, without_row};
ghost use Rattle.row_store.specs.Changes.{changed_by, CanBeMade};
ghost use Rattle.row_store.specs.Shown.{shown, IsShown};

use crate::change::Change;
use crate::row::Row;
use indexmap::IndexMap;
use slab::Slab;
use std::alloc::{AllocError, Global};
use std::marker::Model;
use vscreen_core::Film;

/// The numbered rows in the order of making, which contracts see as a list of numbers with rows. The rows lie
/// in a slab, whose keys a table keeps beside the numbers. See docs/MACHINE.md, "Widgets".
pub struct Store {
    keys: IndexMap<u32, usize>,
    rows: Slab<Row>,
}

impl Model for Store {
    ghost use Rattle.std.specs.Prelude.{ℕ, List};
    ghost use Rattle.slab.specs.Slab.{get as slab_get};
    ghost use Rattle.widget_model.specs.Rows.{Row as Seen};
    ghost use Rattle.row_store.specs.Shown.{shown, IsShown};

    ghost Value = { List (ℕ × Seen) };

    ghost view = { λ s. shown (slab_get s.rows) s.keys.entries };

    ghost invariant = { λ s. IsShown (slab_get s.rows) s.keys.entries };
}

impl Drop for Store {
    fn drop(self) {
        let Store { keys: _, rows: _ } = self;
    }
}

impl Store {
    /// No rows. It takes no memory yet.
    pub fn new(alloc: Global) -> Store
        ensures { result ≡ [] }
    {
        Store {
            keys: IndexMap::new(alloc),
            rows: Slab::new(alloc),
        }
    }

    /// Other rows that equal these, under the same numbers and in the same order. An error, which is want of memory,
    /// leaves nothing behind.
    pub fn copy(&self) -> Result<Store, AllocError>
        ensures { IfOk result (λ copy. copy ≡ self.now) }
    {
        Ok(Store {
            keys: copy_keys(&self.keys)?,
            rows: copy_rows(&self.rows)?,
        })
    }

    /// How many rows there are.
    pub fn len(&self) -> usize
        ensures { result ≡ length self.now }
    {
        self.keys.len()
    }

    /// The number and the row at the index, from 0.
    pub fn at(&self, index: usize) -> (u32, &Row)
        requires { index < length self.now }
        ensures { slice_get self.now index ≡ Some (result.0, result.1.now) }
    {
        entry_at(&self.keys, &self.rows, index)
    }

    /// The row with the number, None exactly where there is none. One look-up in a hash map.
    pub fn get(&self, id: u32) -> Option<&Row>
        ensures { option_copied result ≡ row_at self.now id }
    {
        row_under(&self.keys, &self.rows, id)
    }

    /// The row with a live number. One look-up in a hash map.
    pub fn row(&self, id: u32) -> &Row
        requires { IsSome (row_at self.now id) }
        ensures { row_at self.now id ≡ Some result.now }
    {
        self.get(id).unwrap()
    }

    /// Puts a row last, under a number that no row has. An error, which is want of memory, leaves the rows as
    /// they were.
    pub fn push(&mut self, id: u32, row: Row) -> Result<(), AllocError>
        requires { row_at self.old id ≡ None }
        ensures ok { OnOk result (self.new ≡ self.old ++ (id, row) ∷ []) }
        ensures err { OnErr result (self.new ≡ self.old) }
    {
        put_last(&mut self.keys, &mut self.rows, id, row)
    }

    /// Changes the row with a live number, and no other.
    pub fn change(&mut self, id: u32, change: Change)
        requires live { IsSome (row_at self.old id) }
        requires made { CanBeMade change }
        ensures { self.new ≡ with_row id (changed_by change) self.old }
    {
        change_under(&self.keys, &mut self.rows, id, change);
    }

    /// Puts that film into the row with a live number, or none, and hands out the one that it had.
    pub fn swap_film(&mut self, id: u32, film: Option<Film>) -> Option<Film>
        requires { IsSome (row_at self.old id) }
        ensures was { option_map (λ row. row.film) (row_at self.old id) ≡ Some result }
        ensures film { self.new ≡ with_row id (with_film film) self.old }
    {
        swap_film_under(&self.keys, &mut self.rows, id, film)
    }

    /// Takes out the row with a live number. The later numbers move up, so the cost grows with theirs.
    pub fn remove(&mut self, id: u32)
        requires { IsSome (row_at self.old id) }
        ensures { self.new ≡ without_row id self.old }
    {
        take_out(&mut self.keys, &mut self.rows, id);
    }
}

/// The same keys under the same numbers, in the same order.
fn copy_keys(keys: &IndexMap<u32, usize>) -> Result<IndexMap<u32, usize>, AllocError>
    ensures { IfOk result (λ copy. copy.entries ≡ keys.now.entries) }
{
    keys.clone()
}

/// The same rows under the same keys.
fn copy_rows(rows: &Slab<Row>) -> Result<Slab<Row>, AllocError>
    ensures { IfOk result (λ copy. slab_get copy ≡ slab_get rows.now) }
{
    rows.clone()
}

/// Takes out the rows under the numbers of the client, 1 to 16, and no others. It tries each of the 128
/// numbers.
pub fn drop_rows(store: &mut Store, client: u32)
    requires low { 1 ≤ client }
    requires high { client ≤ 16 }
    ensures { store.new ≡ filter (λ entry. not (is_number_of client entry.0)) store.old }
{
    let first = 128 * (client - 1);
    for id in first..first + 128 {
        if store.get(id).is_some() {
            store.remove(id);
        }
    }
}

/// The number and the row at the index.
fn entry_at<'a>(keys: &'a IndexMap<u32, usize>, rows: &'a Slab<Row>, index: usize) -> (u32, &'a Row)
    requires kept { IsShown (slab_get rows.now) keys.now.entries }
    requires within { index < length (shown (slab_get rows.now) keys.now.entries) }
    ensures { slice_get (shown (slab_get rows.now) keys.now.entries) index ≡ Some (result.0, result.1.now) }
{
    let (id, key) = keys.get_index(index).unwrap();
    (*id, &rows[*key])
}

/// The row with the number.
fn row_under<'a>(keys: &IndexMap<u32, usize>, rows: &'a Slab<Row>, id: u32) -> Option<&'a Row>
    requires { IsShown (slab_get rows.now) keys.now.entries }
    ensures { option_copied result ≡ row_at (shown (slab_get rows.now) keys.now.entries) id }
{
    match keys.get(&id) {
        Some(key) => rows.get(*key),
        None => None,
    }
}

/// Puts a row last.
fn put_last(
    keys: &mut IndexMap<u32, usize>,
    rows: &mut Slab<Row>,
    id: u32,
    row: Row,
) -> Result<(), AllocError>
    requires kept { IsShown (slab_get rows.old) keys.old.entries }
    requires absent { row_at (shown (slab_get rows.old) keys.old.entries) id ≡ None }
    ensures kept { IsShown (slab_get rows.new) keys.new.entries }
    ensures ok { OnOk result (shown (slab_get rows.new) keys.new.entries ≡ shown (slab_get rows.old) keys.old.entries ++ (id, row) ∷ []) }
    ensures err { OnErr result (shown (slab_get rows.new) keys.new.entries ≡ shown (slab_get rows.old) keys.old.entries) }
{
    rows.reserve(1)?;
    let key = rows.vacant_key();
    keys.insert(id, key)?;
    rows.insert_reserved(row);
    Ok(())
}

/// Changes the row with the number.
fn change_under(keys: &IndexMap<u32, usize>, rows: &mut Slab<Row>, id: u32, change: Change)
    requires kept { IsShown (slab_get rows.old) keys.now.entries }
    requires live { IsSome (row_at (shown (slab_get rows.old) keys.now.entries) id) }
    requires made { CanBeMade change }
    ensures kept { IsShown (slab_get rows.new) keys.now.entries }
    ensures changed { shown (slab_get rows.new) keys.now.entries ≡ with_row id (changed_by change) (shown (slab_get rows.old) keys.now.entries) }
{
    let key = *keys.get(&id).unwrap();
    let row = &mut rows[key];
    row.change(change);
}

/// Puts that film into the row with the number, and hands out the one that it had.
fn swap_film_under(
    keys: &IndexMap<u32, usize>,
    rows: &mut Slab<Row>,
    id: u32,
    film: Option<Film>,
) -> Option<Film>
    requires kept { IsShown (slab_get rows.old) keys.now.entries }
    requires live { IsSome (row_at (shown (slab_get rows.old) keys.now.entries) id) }
    ensures kept { IsShown (slab_get rows.new) keys.now.entries }
    ensures was { option_map (λ row. row.film) (row_at (shown (slab_get rows.old) keys.now.entries) id) ≡ Some result }
    ensures film { shown (slab_get rows.new) keys.now.entries ≡ with_row id (with_film film) (shown (slab_get rows.old) keys.now.entries) }
{
    let key = *keys.get(&id).unwrap();
    let row = &mut rows[key];
    row.swap_film(film)
}

/// Takes out the row with the number.
fn take_out(keys: &mut IndexMap<u32, usize>, rows: &mut Slab<Row>, id: u32)
    requires kept { IsShown (slab_get rows.old) keys.old.entries }
    requires live { IsSome (row_at (shown (slab_get rows.old) keys.old.entries) id) }
    ensures kept { IsShown (slab_get rows.new) keys.new.entries }
    ensures gone { shown (slab_get rows.new) keys.new.entries ≡ without_row id (shown (slab_get rows.old) keys.old.entries) }
{
    let key = keys.shift_remove(&id).unwrap();
    rows.remove(key);
}

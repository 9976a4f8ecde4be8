ghost use Rattle.std.specs.Prelude.{◌≡◌, ◌<◌, ◌≤◌, ◌+◌, ◌-◌, ◌*◌, ℕ, [], None, OnOk, IfOk, length, slice_set, slice_index_or};
ghost use Rattle.widget_model.specs.Rows.{IsIndex};
ghost use Rattle.row_store.specs.CellTable.{cell_offset};

use std::alloc::{AllocError, Global};
use std::marker::Model;

/// How many cells a Grid has, and how many of the table each widget has.
const GRID_CELLS: usize = 256;

/// How many cells of the table each client has: those of its 128 numbers.
const CLIENT_CELLS: usize = 32768;

/// The number of the child in each cell of each widget: 256 cells for each of a client's 128 numbers. See
/// docs/ARCHITECTURE.md, "Cost".
pub struct Cells {
    children: Vec<Option<u32>>,
}

impl Model for Cells {
    ghost use Rattle.std.specs.Prelude.{ℕ, List, Option};

    ghost Value = { List (Option ℕ) };

    ghost view = { λ c. c.children.items };
}

impl Drop for Cells {
    fn drop(self) {
        let Cells { children: _ } = self;
    }
}

/// The offset of the cell in that column and row, 1 to 16, of the widget with that number.
fn offset_of(id: u32, column: u32, line: u32) -> usize
    requires column { IsIndex column }
    requires line { IsIndex line }
    ensures { result ≡ cell_offset id column line }
{
    id as usize * GRID_CELLS + (column as usize - 1) * 16 + (line as usize - 1)
}

impl Cells {
    /// No children, and no cells. It takes no memory yet.
    pub fn new(alloc: Global) -> Cells
        ensures { result ≡ [] }
    {
        Cells {
            children: Vec::new(alloc),
        }
    }

    /// The same children in the same cells, in one move. An error, which is want of memory, leaves nothing behind.
    pub fn copy(&self) -> Result<Cells, AllocError>
        ensures { IfOk result (λ copy. copy ≡ self.now) }
    {
        Ok(Cells {
            children: Vec::from_slice(*self.children.allocator(), &self.children)?,
        })
    }

    /// Makes cells for the client's widgets, client 1 to 16. An error, which is want of memory, leaves each
    /// child where it was.
    pub fn grow(&mut self, client: u32) -> Result<(), AllocError>
        requires { client ≤ 16 }
        ensures kept { (offset : ℕ) → slice_index_or self.new offset None ≡ slice_index_or self.old offset None }
        ensures longer { length self.old ≤ length self.new }
        ensures reach { OnOk result (32768 * client ≤ length self.new) }
    {
        lengthen(&mut self.children, CLIENT_CELLS * client as usize)
    }

    /// The number of the child in that column and row, 1 to 16, of the widget, None exactly where there is
    /// none.
    pub fn at(&self, id: u32, column: u32, line: u32) -> Option<u32>
        requires column { IsIndex column }
        requires line { IsIndex line }
        ensures { result ≡ slice_index_or self.now (cell_offset id column line) None }
    {
        number_at(&self.children, offset_of(id, column, line))
    }

    /// The number of the child in one of the widget's 256 cells, which count from 0, row by row in each
    /// column; None exactly where there is none.
    pub fn nth(&self, id: u32, index: u32) -> Option<u32>
        requires { index < 256 }
        ensures { result ≡ slice_index_or self.now (id * 256 + index) None }
    {
        number_at(&self.children, id as usize * GRID_CELLS + index as usize)
    }

    /// Puts the number of a child into that column and row, 1 to 16, of the widget, or takes it out.
    pub fn put(&mut self, id: u32, column: u32, line: u32, child: Option<u32>)
        requires column { IsIndex column }
        requires line { IsIndex line }
        requires within { cell_offset id column line < length self.old }
        ensures { self.new ≡ slice_set self.old (cell_offset id column line) child }
    {
        self.children[offset_of(id, column, line)] = child;
    }

    /// Empties the cells of the client's widgets, client 1 to 16, and no others.
    pub fn clear(&mut self, client: u32)
        requires low { 1 ≤ client }
        requires high { client ≤ 16 }
        ensures empty { (offset : ℕ) → 32768 * (client - 1) ≤ offset → offset < 32768 * client → slice_index_or self.new offset None ≡ None }
        ensures below { (offset : ℕ) → offset < 32768 * (client - 1) → slice_index_or self.new offset None ≡ slice_index_or self.old offset None }
        ensures above { (offset : ℕ) → 32768 * client ≤ offset → slice_index_or self.new offset None ≡ slice_index_or self.old offset None }
        ensures length { length self.new ≡ length self.old }
    {
        let end = CLIENT_CELLS * client as usize;
        empty_cells(&mut self.children, end - CLIENT_CELLS, end);
    }
}

fn lengthen(children: &mut Vec<Option<u32>>, len: usize) -> Result<(), AllocError>
    ensures kept { (offset : ℕ) → slice_index_or children.new.items offset None ≡ slice_index_or children.old.items offset None }
    ensures longer { length children.old.items ≤ length children.new.items }
    ensures reach { OnOk result (len ≤ length children.new.items) }
{
    for offset in children.len()..len {
        children.push(None)?;
    }
    Ok(())
}

fn number_at(children: &[Option<u32>], offset: usize) -> Option<u32>
    ensures { result ≡ slice_index_or children.now offset None }
{
    match children.get(offset) {
        Some(child) => *child,
        None => None,
    }
}

fn empty_cells(children: &mut [Option<u32>], start: usize, end: usize)
    requires { start ≤ end }
    ensures empty { (offset : ℕ) → start ≤ offset → offset < end → slice_index_or children.new offset None ≡ None }
    ensures below { (offset : ℕ) → offset < start → slice_index_or children.new offset None ≡ slice_index_or children.old offset None }
    ensures above { (offset : ℕ) → end ≤ offset → slice_index_or children.new offset None ≡ slice_index_or children.old offset None }
    ensures length { length children.new ≡ length children.old }
{
    for offset in start..end {
        if offset < children.len() {
            children[offset] = None;
        }
    }
}

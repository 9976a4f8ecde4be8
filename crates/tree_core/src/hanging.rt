ghost use Rattle.std.specs.Prelude.{◌≡◌, ◌<◌, Some, None, IsSome, length, true, false};
ghost use Rattle.std.specs.Option.{option_map, option_map_or};
ghost use Rattle.widget_model.specs.Rows.{with_attached};
ghost use Rattle.widget_model.specs.Trees.{hangs};
ghost use Rattle.widget_model.specs.Relatives.{child_id};
ghost use Rattle.widget_model.specs.Planted.{takes_cell};
ghost use Rattle.widget_model.specs.Links.{name_at};
ghost use Rattle.widget_model.specs.Widgets.{row_at, row_kind, row_client, nodes, with_row};
ghost use Rattle.row_store.specs.CellTable.{cell_offset};
ghost use Rattle.tree_core.specs.Children.{widgets_in, HasChildren};
ghost use Rattle.row_store.specs.Index.{IsIndexed};
ghost use Rattle.tree_core.specs.Kept.{IsGrove};
ghost use Rattle.tree_core.specs.Refusals.{attach_refusal, attach_answer};

use crate::going_down::height_in;
use crate::going_up::{depth_in, is_above_in, most_levels, parent_number};
use crate::kinds::{can_be_child, has_children};
use crate::refusal::AttachRefusal;
use kind_core::Cell;
use row_store::{Cells, Change, Names, Row, Store};

/// Whether the row hangs in another.
pub(crate) fn hangs(row: &Row) -> bool
    ensures { result ≡ hangs row.now }
{
    row.attached().is_some()
}

/// Why the child can't hang in that cell of the parent.
pub(crate) fn attach_refusal(
    names: &Names,
    store: &Store,
    cells: &Cells,
    parent: u32,
    child: u32,
    cell: Cell,
) -> Option<AttachRefusal>
    requires indexed { IsIndexed names.now (nodes store.now) }
    requires grove { IsGrove store.now }
    requires children { HasChildren store.now cells.now }
    requires parent { IsSome (row_at store.now parent) }
    requires child { IsSome (row_at store.now child) }
    requires owner { row_client store.now parent ≡ row_client store.now child }
    requires cell { option_map_or (λ kind. takes_cell kind cell) (row_kind store.now parent) false ≡ true }
    ensures { attach_answer (widgets_in store.now) parent child cell ≡ Some result }
{
    let upper = store.row(parent);
    let lower = store.row(child);
    let most = most_levels();
    let client = upper.client();
    if !(has_children(upper.kind()) && can_be_child(lower.kind())) {
        return Some(AttachRefusal::WrongKind);
    }
    if hangs(lower) {
        return Some(AttachRefusal::HasParent);
    }
    if is_above_in(names, store, most, client, &lower.name(), &upper.name()) {
        return Some(AttachRefusal::Cycle);
    }
    let depth = depth_in(names, store, most, client, &upper.name());
    if depth + height_in(store, cells, most, child) > most {
        return Some(AttachRefusal::TooDeep);
    }
    if cells.at(parent, cell.column, cell.row).is_some() {
        return Some(AttachRefusal::CellTaken);
    }
    None
}

/// Hangs the child into that cell of the parent.
pub(crate) fn hang(store: &mut Store, cells: &mut Cells, parent: u32, child: u32, cell: Cell)
    requires grove { IsGrove store.old }
    requires children { HasChildren store.old cells.old }
    requires parent { IsSome (row_at store.old parent) }
    requires child { IsSome (row_at store.old child) }
    requires owner { row_client store.old parent ≡ row_client store.old child }
    requires cell { option_map_or (λ kind. takes_cell kind cell) (row_kind store.old parent) false ≡ true }
    requires answer { attach_answer (widgets_in store.old) parent child cell ≡ Some None }
    requires within { cell_offset parent cell.column cell.row < length cells.old }
    ensures rows { store.new ≡ with_row child (with_attached (option_map (λ name. (name, cell)) (name_at store.old parent))) store.old }
    ensures grove { IsGrove store.new }
    ensures children { HasChildren store.new cells.new }
    ensures length { length cells.new ≡ length cells.old }
{
    let name = store.row(parent).name();
    let attached = Some((name, cell));
    store.change(child, Change::Attached { attached });
    cells.put(parent, cell.column, cell.row, Some(child));
}

/// Takes the number of the live widget out of the cell in which it hangs.
fn empty_cell(names: &Names, store: &Store, cells: &mut Cells, child: u32)
    requires indexed { IsIndexed names.now (nodes store.now) }
    requires grove { IsGrove store.now }
    requires children { HasChildren store.now cells.old }
    requires child { IsSome (row_at store.now child) }
    ensures children { HasChildren (with_row child (with_attached None) store.now) cells.new }
    ensures length { length cells.new ≡ length cells.old }
{
    match store.row(child).attached() {
        Some((_, cell)) => match parent_number(names, store, child) {
            Some(parent) => cells.put(parent, cell.column, cell.row, None),
            None => {}
        },
        None => {}
    }
}

/// Takes the live widget out of the one in which it hangs.
pub(crate) fn unhang(names: &Names, store: &mut Store, cells: &mut Cells, child: u32)
    requires indexed { IsIndexed names.now (nodes store.old) }
    requires grove { IsGrove store.old }
    requires children { HasChildren store.old cells.old }
    requires child { IsSome (row_at store.old child) }
    ensures rows { store.new ≡ with_row child (with_attached None) store.old }
    ensures grove { IsGrove store.new }
    ensures children { HasChildren store.new cells.new }
    ensures length { length cells.new ≡ length cells.old }
{
    empty_cell(names, store, cells, child);
    store.change(child, Change::Attached { attached: None });
}

/// The number of the child in that column and row of the live widget.
pub(crate) fn child_number(
    store: &Store,
    cells: &Cells,
    id: u32,
    column: u32,
    line: u32,
) -> Option<u32>
    requires grove { IsGrove store.now }
    requires children { HasChildren store.now cells.now }
    requires live { IsSome (row_at store.now id) }
    ensures { result ≡ child_id (widgets_in store.now) id column line }
{
    if column < 1 || column > 16 || line < 1 || line > 16 {
        return None;
    }
    cells.at(id, column, line)
}

//! What a widget's row says, read by its number.
ghost use Rattle.std.specs.Prelude.{◌≡◌, ◌≤◌, length};
ghost use Rattle.std.specs.Option.{option_map_or};
ghost use Rattle.widget_model.specs.Rows.{IsIndex};
ghost use Rattle.widget_model.specs.Widgets.{IsLive, IsGrid, rows_of};
ghost use Rattle.scene_model.specs.Values.{number_in, number_of, text_in, text_of, linked_value};
ghost use Rattle.scene_model.specs.Tracks.{cell_of, rules_of, rule_of};
ghost use Rattle.scene_core.specs.Children.{row_for};

use kind_core::{Attr, Cell, Kind, Text, Value};
use scene_model::Axis;
use tree_core::{Id, Tree};

/// The kind of the widget.
pub(crate) fn kind_of(tree: &Tree, id: Id) -> Kind
    requires { IsLive tree.now id.key }
    ensures { result ≡ (row_for tree.now id.key).kind }
{
    tree.kind(id)
}

/// The number that a value is, 0 where it is none.
fn number_in(value: Option<Value>) -> i32
    ensures { result ≡ number_in value }
{
    match value {
        Some(Value::Number(number)) => number,
        _ => 0,
    }
}

/// The number that the attribute is, 0 where the widget has none.
pub(crate) fn number_of(tree: &Tree, id: Id, attr: Attr) -> i32
    requires { IsLive tree.now id.key }
    ensures { result ≡ number_of attr (row_for tree.now id.key) }
{
    number_in(tree.attr(id, attr))
}

/// How many bytes a text has.
fn length_of(text: &Text) -> usize
    ensures { result ≡ length text.now }
{
    text.as_slice().len()
}

/// How many bytes the text has that a value is, 0 where it is none.
fn length_in(value: &Option<Value>) -> usize
    ensures { result ≡ length (text_in value.now) }
{
    match value {
        Some(Value::Words(text)) => length_of(text),
        _ => 0,
    }
}

/// How many bytes the attribute's text has, 0 where the widget has none.
pub(crate) fn text_length(tree: &Tree, id: Id, attr: Attr) -> usize
    requires { IsLive tree.now id.key }
    ensures { result ≡ length (text_of attr (row_for tree.now id.key)) }
{
    length_in(&tree.attr(id, attr))
}

/// The value of the Variable that the widget is linked to.
pub(crate) fn linked_value(tree: &Tree, id: Id) -> Option<i32>
    requires { IsLive tree.now id.key }
    ensures { result ≡ linked_value (rows_of tree.now) (row_for tree.now id.key) }
{
    match tree.link(id) {
        Some(variable) => Some(number_of(tree, variable, Attr::Value)),
        None => None,
    }
}

/// The rule of a Grid's track, a size and a weight.
pub(crate) fn rule_of(tree: &Tree, id: Id, axis: Axis, track: u32) -> (u32, u32)
    requires grid { IsGrid tree.now id.key }
    requires track { IsIndex track }
    ensures { result ≡ rule_of (rules_of axis (row_for tree.now id.key)) track }
{
    match axis {
        Axis::Across => tree.column_rule(id, track),
        Axis::Down => tree.row_rule(id, track),
    }
}

/// The cell, or one with no column and no row where there is none.
fn cell_in(cell: Option<Cell>) -> Cell
    ensures { result ≡ option_map_or (λ cell. cell) cell (record { column = 0; row = 0; pad = 0 }) }
{
    match cell {
        Some(cell) => cell,
        None => Cell {
            column: 0,
            row: 0,
            pad: 0,
        },
    }
}

/// The cell in which the widget hangs.
pub(crate) fn cell_of(tree: &Tree, id: Id) -> Cell
    requires { IsLive tree.now id.key }
    ensures { result ≡ cell_of (row_for tree.now id.key) }
{
    cell_in(tree.cell(id))
}

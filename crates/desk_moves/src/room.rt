//! What room layout needs of a widget, and whether another value needs the same.

ghost use Rattle.std.specs.Prelude.{◌≡◌, Some, false, length};
ghost use Rattle.std.specs.Option.{option_map, option_map_or};
ghost use Rattle.std.specs.List.{list_any};
ghost use Rattle.kind_core.specs.declared.values.Value.TheVariants.{Number, Words};
ghost use Rattle.widget_model.specs.Widgets.{IsLive, rows_of, row_at};
ghost use Rattle.widget_model.specs.Forest.{IsWidgets};
ghost use Rattle.scene_model.specs.Values.{number_in, text_in};
ghost use Rattle.desk_moves.specs.Stays.{is_asked, letters_of, is_frame_of, needs_the_same, value_moves};

use crate::kinds::{is_entry, is_frame};
use desk_commands::is_variable;
use itoa::Buffer;
use kind_core::{Attr, Kind, Text, Value};
use tree_core::{Id, Tree};

/// How many numbers a client has.
const CLIENT_NUMBERS: u32 = 128;

/// Whether layout reads the attribute of a widget of the kind.
fn is_asked(kind: Kind, attr: Attr) -> bool
    ensures { result ≡ is_asked kind attr }
{
    match attr {
        Attr::X | Attr::Y | Attr::W | Attr::H | Attr::Cols | Attr::Vert => true,
        Attr::Text => !is_entry(kind),
        Attr::Value => is_variable(kind),
        Attr::Title | Attr::Caret | Attr::Max | Attr::Real | Attr::View => false,
    }
}

/// How many letters the number takes.
fn letters_of(number: i32) -> usize
    ensures { result ≡ letters_of number }
{
    let mut buffer = Buffer::new();
    buffer.format(number).len()
}

/// How many letters the number takes that a value is, 0 where it is none.
fn letters_in(value: &Option<Value>) -> usize
    ensures { result ≡ letters_of (number_in value.now) }
{
    match value {
        Some(Value::Number(number)) => letters_of(*number),
        _ => letters_of(0),
    }
}

/// How many bytes a text has.
fn length_of(text: &Text) -> usize
    ensures { result ≡ length text.now }
{
    text.as_slice().len()
}

/// How many bytes the text has that a value is, the empty one where it is none.
fn length_in(value: &Option<Value>) -> usize
    ensures { result ≡ length (text_in value.now) }
{
    match value {
        Some(Value::Words(text)) => length_of(text),
        _ => 0,
    }
}

/// Whether the number, any one, names a Frame that is linked to the Variable.
fn is_frame_of(tree: &Tree, variable: Id, id: Id) -> bool
    requires live { IsLive tree.now variable.key }
    ensures frame { option_map (λ row. option_map_or (is_frame_of row) (row_at tree.now.entries id.key) false) (row_at tree.now.entries variable.key) ≡ Some result }
    ensures valid { IsWidgets tree.now }
{
    if !tree.is_live(id) {
        return false;
    }
    if !is_frame(tree.kind(id)) {
        return false;
    }
    match tree.link(id) {
        Some(other) => other.key == variable.key,
        None => false,
    }
}

/// Whether a Frame is linked to the Variable. It goes over the numbers of its client.
fn has_frame(tree: &Tree, variable: Id) -> bool
    requires valid { IsWidgets tree.now }
    requires live { IsLive tree.now variable.key }
    ensures { option_map (λ row. list_any (is_frame_of row) (rows_of tree.now)) (row_at tree.now.entries variable.key) ≡ Some result }
{
    let first = variable.key / CLIENT_NUMBERS * CLIENT_NUMBERS;
    for k in 0..CLIENT_NUMBERS {
        if is_frame_of(tree, variable, Id { key: first + k }) {
            return true;
        }
    }
    false
}

/// Whether the text is as long as the one that the widget has.
fn is_as_long(tree: &Tree, id: Id, text: &Text) -> bool
    requires { IsLive tree.now id.key }
    ensures { option_map (λ row. needs_the_same (rows_of tree.now) row Attr.Text (Words text.now)) (row_at tree.now.entries id.key) ≡ Some result }
{
    length_of(text) == length_in(&tree.attr(id, Attr::Text))
}

/// Whether the number takes as many letters as the one that the Variable has, and no Frame is linked to it.
fn is_as_wide(tree: &Tree, id: Id, number: i32) -> bool
    requires { IsLive tree.now id.key }
    ensures { option_map (λ row. needs_the_same (rows_of tree.now) row Attr.Value (Number number)) (row_at tree.now.entries id.key) ≡ Some result }
{
    letters_of(number) == letters_in(&tree.attr(id, Attr::Value)) && !has_frame(tree, id)
}

/// Whether layout needs the same of the widget with the value.
fn needs_the_same(tree: &Tree, id: Id, attr: Attr, value: &Value) -> bool
    requires { IsLive tree.now id.key }
    ensures { option_map (λ row. needs_the_same (rows_of tree.now) row attr value.now) (row_at tree.now.entries id.key) ≡ Some result }
{
    match attr {
        Attr::Text => match value {
            Value::Words(text) => is_as_long(tree, id, text),
            Value::Number(_) => false,
        },
        Attr::Value => match value {
            Value::Number(number) => is_as_wide(tree, id, *number),
            Value::Words(_) => false,
        },
        Attr::X
        | Attr::Y
        | Attr::W
        | Attr::H
        | Attr::Title
        | Attr::Caret
        | Attr::Cols
        | Attr::Max
        | Attr::Real
        | Attr::View
        | Attr::Vert => false,
    }
}

/// Whether the widget, or one that is linked to it, may move when its attribute gets the value. It looks up the one
/// attribute, and goes over the client's widgets only for a Variable's value of as many letters. See docs/MACHINE.md,
/// "Colours and the picture".
pub fn value_moves(tree: &Tree, id: Id, attr: Attr, value: &Value) -> bool
    requires { IsLive tree.now id.key }
    ensures moves { option_map (λ row. value_moves (rows_of tree.now) row attr value.now) (row_at tree.now.entries id.key) ≡ Some result }
    ensures valid { IsWidgets tree.now }
{
    is_asked(tree.kind(id), attr) && !needs_the_same(tree, id, attr, value)
}

//! What a widget's row says, read by its number.
ghost use Rattle.std.specs.Prelude.{◌≡◌, Some, unsigned_abs};
ghost use Rattle.kind_core.specs.Effective.{clamp, scale_value, scrollbar_value, raw_value};
ghost use Rattle.scene_core.specs.Children.{row_for};
ghost use Rattle.scene_model.specs.Values.{number_in, text_in, count_of, number_of, text_of, linked_value, is_vertical, scale_of, scrollbar_of};
ghost use Rattle.widget_model.specs.Widgets.{IsLive, rows_of};

use kind_core::{Attr, Text, Value};
use tree_core::{Id, Tree};

fn number_in(value: Option<Value>) -> i32
    ensures { result ≡ number_in value }
{
    match value {
        Some(Value::Number(number)) => number,
        _ => 0,
    }
}

/// The text that a value is, empty where it is a number.
fn words_of(value: Value) -> Text
    ensures { result ≡ text_in (Some value) }
{
    match value {
        Value::Words(text) => text,
        Value::Number(_) => Text::empty(),
    }
}

/// The number that the attribute is, 0 where the widget has none.
pub(crate) fn number_of(tree: &Tree, id: Id, attr: Attr) -> i32
    requires { IsLive tree.now id.key }
    ensures { result ≡ number_of attr (row_for tree.now id.key) }
{
    number_in(tree.attr(id, attr))
}

/// The number that the attribute is, without its sign, and 0 where the widget has none. It costs one look-up in a hash map.
pub fn count_of(tree: &Tree, id: Id, attr: Attr) -> u32
    requires { IsLive tree.now id.key }
    ensures { result ≡ count_of attr (row_for tree.now id.key) }
{
    number_of(tree, id, attr).unsigned_abs()
}

/// The text that the attribute is, empty where the widget has none. It costs one look-up in a hash map.
pub fn text_of(tree: &Tree, id: Id, attr: Attr) -> Text
    requires { IsLive tree.now id.key }
    ensures { result ≡ text_of attr (row_for tree.now id.key) }
{
    match tree.attr(id, attr) {
        Some(value) => words_of(value),
        None => Text::empty(),
    }
}

/// The value of the Variable that the widget is linked to, none without a link. It costs two look-ups in hash maps, and
/// one more where there is a link.
pub fn linked_value(tree: &Tree, id: Id) -> Option<i32>
    requires { IsLive tree.now id.key }
    ensures { result ≡ linked_value (rows_of tree.now) (row_for tree.now id.key) }
{
    match tree.link(id) {
        Some(variable) => Some(number_of(tree, variable, Attr::Value)),
        None => None,
    }
}

/// Whether a Scale or Scrollbar goes down in place of across.
pub fn is_vertical(tree: &Tree, id: Id) -> bool
    requires { IsLive tree.now id.key }
    ensures { result ≡ is_vertical (row_for tree.now id.key) }
{
    0 < number_of(tree, id, Attr::Vert)
}

/// The number of the Variable that the widget is linked to, or its own without a link.
fn raw_value(tree: &Tree, id: Id) -> i32
    requires { IsLive tree.now id.key }
    ensures { result ≡ raw_value (linked_value (rows_of tree.now) (row_for tree.now id.key)) (number_of Attr.Value (row_for tree.now id.key)) }
{
    match linked_value(tree, id) {
        Some(value) => value,
        None => number_of(tree, id, Attr::Value),
    }
}

/// `low` where v is below it, `high` where v is above it, else v.
fn clamp(v: i64, low: i64, high: i64) -> i64
    ensures { result ≡ clamp v low high }
{
    if v < low {
        low
    } else if high < v {
        high
    } else {
        v
    }
}

/// What a Scale with that greatest value shows.
fn scale_number(raw: i32, max: i32) -> i64
    ensures { result ≡ scale_value raw max }
{
    clamp(i64::from(raw), 0, i64::from(max))
}

/// What a Scrollbar with that real length and view shows.
fn scrollbar_number(raw: i32, real: i32, view: i32) -> i64
    ensures { result ≡ scrollbar_value raw real view }
{
    if real <= view {
        return 0;
    }
    clamp(i64::from(raw), 0, i64::from(real) - i64::from(view))
}

/// The value that a Scale shows, 0 to its max: the linked one, or its own without a link. See docs/MACHINE.md, "Looks".
pub fn scale_value(tree: &Tree, id: Id) -> u32
    requires { IsLive tree.now id.key }
    ensures { result ≡ unsigned_abs (scale_of (rows_of tree.now) (row_for tree.now id.key)) }
{
    let max = number_of(tree, id, Attr::Max);
    let value = scale_number(raw_value(tree, id), max);
    value.unsigned_abs() as u32
}

/// The value that a Scrollbar shows, 0 to what its view leaves of its real length. See docs/MACHINE.md, "Looks".
pub fn scrollbar_value(tree: &Tree, id: Id) -> u32
    requires { IsLive tree.now id.key }
    ensures { result ≡ unsigned_abs (scrollbar_of (rows_of tree.now) (row_for tree.now id.key)) }
{
    let real = number_of(tree, id, Attr::Real);
    let shown = number_of(tree, id, Attr::View);
    let value = scrollbar_number(raw_value(tree, id), real, shown);
    value.unsigned_abs() as u32
}

//! What the tree says of a widget.

ghost use Rattle.std.specs.Prelude.{◌≡◌, ◌≤◌, ◌<◌, length, map, Some, IfSome};
ghost use Rattle.std.specs.Option.{option_to_list};
ghost use Rattle.widget_model.specs.Widgets.{IsLive, rows_of};
ghost use Rattle.widget_model.specs.Forest.{IsWidgets};
ghost use Rattle.widget_model.specs.Keys.{key_of, root_key};
ghost use Rattle.scene_model.specs.Values.{number_in, number_of, count_of, text_in, text_of, linked_value, caret_of};
ghost use Rattle.desk_model.specs.InputEffects.{posted};
ghost use Rattle.desk_model.specs.InputValues.{value_key};
ghost use Rattle.input_core.specs.Numbered.{numbered};
ghost use Rattle.input_core.specs.Seen.{key_seen, post_seen};

use crate::posts::Post;
use kind_core::{Attr, EventKind, Kind, Text, Value};
use tree_core::{Id, Tree};

/// The kind of the widget.
#[tactic(auto, using(crate::proofs::Numbers::numbered_kind))]
pub(crate) fn kind(tree: &Tree, id: Id) -> Kind
    requires { IsLive tree.now id.key }
    ensures { result ≡ (numbered tree.now.entries id.key).kind }
{
    tree.kind(id)
}

/// The number that the attribute is, 0 where the widget has none.
pub(crate) fn number(tree: &Tree, id: Id, attr: Attr) -> i32
    requires { IsLive tree.now id.key }
    ensures { result ≡ number_of attr (numbered tree.now.entries id.key) }
{
    number_in(tree.attr(id, attr))
}

/// The number that a value is, 0 where it is none.
fn number_in(value: Option<Value>) -> i32
    ensures { result ≡ number_in value }
{
    match value {
        Some(Value::Number(number)) => number,
        Some(Value::Words(_)) => 0,
        None => 0,
    }
}

/// The same of a number that isn't negative.
pub(crate) fn count(tree: &Tree, id: Id, attr: Attr) -> u32
    requires { IsLive tree.now id.key }
    ensures { result ≡ count_of attr (numbered tree.now.entries id.key) }
{
    number(tree, id, attr).unsigned_abs()
}

/// The widget's text, the empty one where it has none.
pub(crate) fn text(tree: &Tree, id: Id) -> Text
    requires { IsLive tree.now id.key }
    ensures { result ≡ text_of Attr.Text (numbered tree.now.entries id.key) }
{
    match tree.attr(id, Attr::Text) {
        Some(value) => words_of(value),
        None => Text::empty(),
    }
}

/// The text that a value is, the empty one where it is a number.
fn words_of(value: Value) -> Text
    ensures { result ≡ text_in (Some value) }
{
    match value {
        Value::Words(text) => text,
        Value::Number(_) => Text::empty(),
    }
}

/// Where an Entry's caret stands in its text.
pub(crate) fn caret(tree: &Tree, id: Id, text: &Text) -> u32
    requires live { IsLive tree.now id.key }
    requires text { text.now ≡ text_of Attr.Text (numbered tree.now.entries id.key) }
    ensures caret { result ≡ caret_of (numbered tree.now.entries id.key) }
    ensures within { result ≤ length text.now }
{
    let caret = count(tree, id, Attr::Caret);
    caret.min(text.as_slice().len() as u32)
}

/// The value of the Variable that the widget is linked to.
pub(crate) fn linked_value(tree: &Tree, id: Id) -> Option<i32>
    requires widgets { IsWidgets tree.now }
    requires live { IsLive tree.now id.key }
    ensures { result ≡ linked_value (rows_of tree.now) (numbered tree.now.entries id.key) }
{
    match tree.link(id) {
        Some(variable) => Some(number(tree, variable, Attr::Value)),
        None => None,
    }
}

/// The widget whose `value` this one shows: the Variable that it is linked to, or itself.
pub(crate) fn value_id(tree: &Tree, id: Id) -> Id
    requires widgets { IsWidgets tree.now }
    requires live { IsLive tree.now id.key }
    ensures key { key_seen tree.now.entries result ≡ value_key (numbered tree.now.entries id.key) }
    ensures live { IsLive tree.now result.key }
{
    match tree.link(id) {
        Some(variable) => variable,
        None => id,
    }
}

/// The widget's window.
pub(crate) fn root(tree: &Tree, id: Id) -> Id
    requires widgets { IsWidgets tree.now }
    requires live { IsLive tree.now id.key }
    ensures key { key_seen tree.now.entries result ≡ root_key (rows_of tree.now) (key_of (numbered tree.now.entries id.key)) }
    ensures live { IsLive tree.now result.key }
{
    tree.root(id)
}

/// The event, where the widget has a binding of that kind.
pub(crate) fn posted(tree: &Tree, id: Id, event: EventKind, a: i32, b: i32) -> Option<Post>
    requires { IsLive tree.now id.key }
    ensures posted { map (post_seen tree.now.entries) (option_to_list result) ≡ posted event a b (numbered tree.now.entries id.key) }
    ensures live { IfSome result (λ post. IsLive tree.now post.id.key) }
{
    match tree.binding(id, event) {
        Some(_) => Some(Post { id, event, a, b }),
        None => None,
    }
}

//! The commands that make, change, read and remove one widget.

ghost use Rattle.std.specs.Prelude.{◌≡◌, ◌↔◌, ◌≤◌, true, false, length, Some, None, IsTrue};
ghost use Rattle.desk_model.specs.AttrOptions.{attr_refusal, attrs_refusal, with_attrs, told};
ghost use Rattle.desk_model.specs.WidgetCommands.{step_new, step_set, step_get, step_drop, reply_with};
ghost use Rattle.std.specs.Option.{option_map};
ghost use Rattle.widget_model.specs.Widgets.{IsLive, row_at, row_kind, edited};
ghost use Rattle.widget_model.specs.Clients.{is_joined};
ghost use Rattle.widget_model.specs.Forest.{IsWidgets};
ghost use Rattle.desk_model.specs.Refusals.{is_memory};
ghost use Rattle.desk_commands.specs.Parts.{AreParts};
ghost use Rattle.desk_commands.specs.Effects.{Did, DidAll, TellsRows, TellsAll};
ghost use Rattle.desk_commands.specs.TreeRefusals.{refusal_of_add};
ghost use Rattle.desk_commands.specs.Lookup.{values_given};

use crate::answer::Answer;
use crate::lookup::find;
use arrayvec::ArrayVec;
use cmd_words::{Refusal, Reply};
use kind_core::{Attr, AttrRefusal, Kind, Name, Value, check};
use stack_core::Stack;
use tree_core::{AddRefusal, Id, Tree};

/// How a client is told why it can't have a new widget.
fn refusal_of_add(refusal: AddRefusal) -> Refusal
    ensures { result ≡ refusal_of_add refusal }
{
    match refusal {
        AddRefusal::NameTaken => Refusal::NameTaken,
        AddRefusal::Full { limit } => Refusal::Full { limit },
        AddRefusal::NoMemory => Refusal::Memory,
    }
}

/// `n = new K()`
pub(crate) fn make(tree: &mut Tree, client: u32, name: &Name, kind: Kind) -> Answer
    requires { is_joined tree.old.clients client ≡ true }
    ensures did { Did (λ desk. step_new desk client name.now kind (is_memory result.reply)) tree.old tree.new result.reply }
    ensures tells { TellsRows tree.old tree.new result.changed }
    ensures valid { IsWidgets tree.new }
{
    match tree.add(client, *name, kind) {
        Ok(_) => Answer::done(true),
        Err(refusal) => Answer::refused(refusal_of_add(refusal)),
    }
}

/// How a client is told what the table says of a value.
fn attr_refusal(kind: Kind, option: &(Attr, Value)) -> Option<Refusal>
    ensures { result ≡ attr_refusal kind option.now }
{
    match check(kind, option.0, &option.1) {
        Ok(()) => None,
        Err(AttrRefusal::NotOfKind) => Some(Refusal::WrongKind),
        Err(AttrRefusal::OutOfRange { least, greatest }) => Some(Refusal::BadValue {
            least,
            greatest,
        }),
    }
}

/// The first refusal of the options, from left to right.
fn attrs_refusal(kind: Kind, options: &[(Attr, Value)]) -> Option<Refusal>
    ensures { result ≡ attrs_refusal kind options.now }
{
    for option in options {
        match attr_refusal(kind, option) {
            Some(refusal) => return Some(refusal),
            None => {}
        }
    }
    None
}

/// Gives the widget the values, one after the other.
fn set_attrs(tree: &mut Tree, id: Id, kind: Kind, options: &[(Attr, Value)])
    requires valid { IsWidgets tree.old }
    requires kind { row_kind tree.old.entries id.key ≡ Some kind }
    requires allowed { attrs_refusal kind options.now ≡ None }
    ensures set { tree.new ≡ edited id.key (with_attrs options.now) tree.old }
    ensures valid { IsWidgets tree.new }
{
    for option in options {
        match tree.set_attr(id, option.0, &option.1) {
            Ok(()) => {}
            Err(_) => unreachable!(),
        }
    }
}

/// The values that the widget has for the attributes of the options.
fn values_of(tree: &Tree, id: Id, options: &[(Attr, Value)]) -> ArrayVec<Option<Value>, 8>
    requires live { IsLive tree.now id.key }
    requires few { length options.now ≤ 8 }
    ensures { option_map (λ row. values_given row options.now) (row_at tree.now.entries id.key) ≡ Some result.items }
{
    let mut values = ArrayVec::new();
    for option in options {
        values.push(tree.attr(id, option.0));
    }
    values
}

/// Whether the values are the same.
fn same_values(before: &[Option<Value>], after: &[Option<Value>]) -> bool
    ensures { IsTrue result ↔ (before.now ≡ after.now) }
{
    before == after
}

/// `n.set(options)`
pub(crate) fn set(tree: &mut Tree, client: u32, name: &Name, options: &[(Attr, Value)]) -> Answer
    requires { length options.now ≤ 8 }
    ensures did { Did (λ desk. step_set desk client name.now options.now) tree.old tree.new result.reply }
    ensures tells { TellsRows tree.old tree.new result.changed }
    ensures valid { IsWidgets tree.new }
{
    let found = match find(tree, client, name) {
        Ok(found) => found,
        Err(refusal) => return Answer::refused(refusal),
    };
    match attrs_refusal(found.kind, options) {
        Some(refusal) => return Answer::refused(refusal),
        None => {}
    }
    let before = values_of(tree, found.id, options);
    set_attrs(tree, found.id, found.kind, options);
    let after = values_of(tree, found.id, options);
    Answer::done(!same_values(before.as_slice(), after.as_slice()))
}

/// The reply with a value that was read.
fn reply_with(value: Value) -> Reply
    ensures { result ≡ reply_with (Some value) }
{
    match value {
        Value::Number(n) => Reply::Number(n),
        Value::Words(text) => Reply::Words(text),
    }
}

/// `n.get(attr)`, which changes nothing: the answer is the attribute's value, a Number or Words. Refuses NoSuchName
/// where the client has no widget of that name, and WrongKind where its kind has no such attribute. See docs/GUIDE.md,
/// "Commands".
pub fn get(tree: &Tree, client: u32, name: &Name, attr: Attr) -> Answer
    ensures did { Did (λ desk. step_get desk client name.now attr) tree.now tree.now result.reply }
    ensures changed { result.changed ≡ false }
    ensures valid { IsWidgets tree.now }
{
    let found = match find(tree, client, name) {
        Ok(found) => found,
        Err(refusal) => return Answer::refused(refusal),
    };
    match tree.attr(found.id, attr) {
        Some(value) => Answer {
            reply: reply_with(value),
            changed: false,
        },
        None => Answer::refused(Refusal::WrongKind),
    }
}

/// `n.drop()`
pub(crate) fn drop_widget(tree: &mut Tree, windows: &Stack, client: u32, name: &Name) -> Answer
    requires { AreParts tree.old.clients tree.old windows.now }
    ensures did { DidAll (λ desk. step_drop desk client name.now) tree.old tree.new windows.now windows.now result.reply }
    ensures tells { TellsAll tree.old tree.new windows.now windows.now result.changed }
{
    let found = match find(tree, client, name) {
        Ok(found) => found,
        Err(refusal) => return Answer::refused(refusal),
    };
    if windows.holds(found.id.key) {
        return Answer::refused(Refusal::InUse);
    }
    match tree.remove(found.id) {
        Ok(()) => Answer::done(true),
        Err(_) => Answer::refused(Refusal::InUse),
    }
}

//! Rows that make and change the widgets of client 1.
ghost use Rattle.std.specs.Prelude.{◌≡◌, true, IfSome};
ghost use Rattle.widget_model.specs.Clients.{is_joined};
ghost use Rattle.widget_model.specs.Planted.{takes_cell};

use crate::films::film;
use crate::tracks::{column, row};
use crate::widgets::widget;
use crate::words::{attr, event, integer, kind, name, number, word};
use kind_core::{Attr, Cell, Kind, Value, text_from};
use std::alloc::Global;
use std::str::SplitWhitespace;
use std::test::Fail;
use tree_core::Tree;

/// `add NAME KIND`: a new widget.
fn add(tree: &mut Tree, words: &mut SplitWhitespace<'_>) -> Result<(), Fail>
    requires { is_joined tree.old.clients 1 ≡ true }
    ensures { is_joined tree.new.clients 1 ≡ true }
{
    let name = name(words)?;
    let kind = kind(words)?;
    match tree.add(1, name, kind) {
        Ok(_) => Ok(()),
        Err(_) => Err("the widget isn't added".into()),
    }
}

/// `set WIDGET ATTRIBUTE NUMBER`.
fn set(tree: &mut Tree, words: &mut SplitWhitespace<'_>) -> Result<(), Fail>
    requires { is_joined tree.old.clients 1 ≡ true }
    ensures { is_joined tree.new.clients 1 ≡ true }
{
    let id = widget(tree, words)?;
    let attr = attr(words)?;
    let value = Value::Number(integer(words)?);
    match tree.set_attr(id, attr, &value) {
        Ok(()) => Ok(()),
        Err(_) => Err("the number isn't set".into()),
    }
}

/// `title WIDGET WORD` or `text WIDGET WORD`. Of the word each `_` stands for a space.
fn set_words(
    alloc: Global,
    tree: &mut Tree,
    attr: Attr,
    words: &mut SplitWhitespace<'_>,
) -> Result<(), Fail>
    requires { is_joined tree.old.clients 1 ≡ true }
    ensures { is_joined tree.new.clients 1 ≡ true }
{
    let id = widget(tree, words)?;
    let spaced = word(words)?.replace(alloc, "_", " ")?;
    let text = text_from(spaced.as_bytes()).ok_or("a word is no text")?;
    match tree.set_attr(id, attr, &Value::Words(text)) {
        Ok(()) => Ok(()),
        Err(_) => Err("the text isn't set".into()),
    }
}

/// The cell, where a widget of the kind takes it.
fn cell_for(kind: Kind, column: u32, row: u32, pad: u32) -> Option<Cell>
    ensures { IfSome result (λ cell. takes_cell kind cell ≡ true) }
{
    if column < 1 || column > 16 || row < 1 || row > 16 || pad > 16 {
        return None;
    }
    match kind {
        Kind::Window | Kind::Frame => {
            if column != 1 || row != 1 {
                return None;
            }
            Some(Cell { column, row, pad })
        }
        _ => Some(Cell { column, row, pad }),
    }
}

/// `hang PARENT CHILD COLUMN ROW PAD`.
fn hang(tree: &mut Tree, words: &mut SplitWhitespace<'_>) -> Result<(), Fail>
    requires { is_joined tree.old.clients 1 ≡ true }
    ensures { is_joined tree.new.clients 1 ≡ true }
{
    let parent = widget(tree, words)?;
    let child = widget(tree, words)?;
    if tree.owner(parent) != tree.owner(child) {
        return Err("the widgets have two owners".into());
    }
    let kind = tree.kind(parent);
    let column = number(words)?;
    let row = number(words)?;
    let cell = match cell_for(kind, column, row, number(words)?) {
        Some(cell) => cell,
        None => return Err("the widget has no such cell".into()),
    };
    match tree.attach(parent, child, cell) {
        Ok(()) => Ok(()),
        Err(_) => Err("the child isn't hung".into()),
    }
}

/// `lift WIDGET`: out of its parent.
fn lift(tree: &mut Tree, words: &mut SplitWhitespace<'_>) -> Result<(), Fail>
    requires { is_joined tree.old.clients 1 ≡ true }
    ensures { is_joined tree.new.clients 1 ≡ true }
{
    let child = widget(tree, words)?;
    tree.detach(child);
    Ok(())
}

/// `link WIDGET VARIABLE`.
fn link(tree: &mut Tree, words: &mut SplitWhitespace<'_>) -> Result<(), Fail>
    requires { is_joined tree.old.clients 1 ≡ true }
    ensures { is_joined tree.new.clients 1 ≡ true }
{
    let linked = widget(tree, words)?;
    let variable = widget(tree, words)?;
    match tree.kind(variable) {
        Kind::Variable => {}
        _ => return Err("it is no Variable".into()),
    }
    if tree.owner(variable) != tree.owner(linked) {
        return Err("the widgets have two owners".into());
    }
    tree.set_link(linked, Some(variable));
    Ok(())
}

/// `bind WIDGET EVENT TAG`.
fn bind(tree: &mut Tree, words: &mut SplitWhitespace<'_>) -> Result<(), Fail>
    requires { is_joined tree.old.clients 1 ≡ true }
    ensures { is_joined tree.new.clients 1 ≡ true }
{
    let bound = widget(tree, words)?;
    let event = event(words)?;
    let tag = name(words)?;
    tree.set_binding(bound, event, Some(tag));
    Ok(())
}

/// Makes the widget, or the change of one, that the call and the words behind it say.
pub fn make(
    alloc: Global,
    tree: &mut Tree,
    call: &str,
    words: &mut SplitWhitespace<'_>,
) -> Result<(), Fail>
    requires { is_joined tree.old.clients 1 ≡ true }
    ensures { is_joined tree.new.clients 1 ≡ true }
{
    match call {
        "add" => add(tree, words),
        "set" => set(tree, words),
        "title" => set_words(alloc, tree, Attr::Title, words),
        "text" => set_words(alloc, tree, Attr::Text, words),
        "hang" => hang(tree, words),
        "lift" => lift(tree, words),
        "link" => link(tree, words),
        "bind" => bind(tree, words),
        "column" => column(tree, words),
        "row" => row(tree, words),
        "film" => film(alloc, tree, words),
        _ => Err("a word is no call".into()),
    }
}

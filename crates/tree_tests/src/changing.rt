//! Calls that change the tree. Each answers a word.
ghost use Rattle.std.specs.Prelude.{◌≡◌, true};
ghost use Rattle.widget_model.specs.Clients.{is_joined};

use crate::tables::{index, kind, name, number, place, widget};
use kind_core::{Attr, AttrRefusal, Cell, EventKind, Kind, Value};
use std::str::SplitWhitespace;
use std::test::Fail;
use tree_core::{AddRefusal, AttachRefusal, Tree};

/// `add NAME KIND`: a new widget of client 1, which is then found under its name.
fn add(tree: &mut Tree, words: &mut SplitWhitespace<'_>) -> Result<&'static str, Fail>
    requires { is_joined tree.old.clients 1 ≡ true }
    ensures { is_joined tree.new.clients 1 ≡ true }
{
    let name = name(words)?;
    let kind = kind(words)?;
    match tree.add(1, name, kind) {
        Ok(id) => {
            if tree.find(1, &name) == Some(id) {
                return Ok("done");
            }
            Ok("found under another number")
        }
        Err(AddRefusal::NameTaken) => Ok("name taken"),
        Err(AddRefusal::Full { limit: 128 }) => Ok("full 128"),
        Err(AddRefusal::Full { limit: _ }) => Ok("full"),
        Err(AddRefusal::NoMemory) => Ok("no memory"),
    }
}

/// `hang GRID CHILD COLUMN ROW`.
fn hang(tree: &mut Tree, words: &mut SplitWhitespace<'_>) -> Result<&'static str, Fail>
    requires { is_joined tree.old.clients 1 ≡ true }
    ensures { is_joined tree.new.clients 1 ≡ true }
{
    let grid = widget(tree, words)?;
    let child = widget(tree, words)?;
    let column = index(words)?;
    let row = index(words)?;
    match tree.kind(grid) {
        Kind::Grid => {}
        _ => return Err("the parent is no Grid".into()),
    }
    if tree.owner(grid) != tree.owner(child) {
        return Err("the widgets have two owners".into());
    }
    let cell = Cell {
        column,
        row,
        pad: 0,
    };
    match tree.attach(grid, child, cell) {
        Ok(()) => Ok("done"),
        Err(AttachRefusal::WrongKind) => Ok("wrong kind"),
        Err(AttachRefusal::HasParent) => Ok("has parent"),
        Err(AttachRefusal::Cycle) => Ok("cycle"),
        Err(AttachRefusal::TooDeep) => Ok("too deep"),
        Err(AttachRefusal::CellTaken) => Ok("cell taken"),
    }
}

/// `lift CHILD`.
fn lift(tree: &mut Tree, words: &mut SplitWhitespace<'_>) -> Result<&'static str, Fail>
    requires { is_joined tree.old.clients 1 ≡ true }
    ensures { is_joined tree.new.clients 1 ≡ true }
{
    let child = widget(tree, words)?;
    tree.detach(child);
    Ok("done")
}

/// `remove WIDGET`.
fn remove(tree: &mut Tree, words: &mut SplitWhitespace<'_>) -> Result<&'static str, Fail>
    requires { is_joined tree.old.clients 1 ≡ true }
    ensures { is_joined tree.new.clients 1 ≡ true }
{
    let gone = widget(tree, words)?;
    match tree.remove(gone) {
        Ok(()) => Ok("done"),
        Err(_) => Ok("in use"),
    }
}

/// `width WIDGET PIXELS`.
fn width(tree: &mut Tree, words: &mut SplitWhitespace<'_>) -> Result<&'static str, Fail>
    requires { is_joined tree.old.clients 1 ≡ true }
    ensures { is_joined tree.new.clients 1 ≡ true }
{
    let id = widget(tree, words)?;
    let pixels = number(words)?.min(9999) as i32;
    match tree.set_attr(id, Attr::W, &Value::Number(pixels)) {
        Ok(()) => Ok("done"),
        Err(
            AttrRefusal::OutOfRange {
                least: 16,
                greatest: 1024,
            },
        ) => Ok("16 to 1024"),
        Err(_) => Ok("refused"),
    }
}

/// `column GRID NUMBER SIZE WEIGHT`.
fn column(tree: &mut Tree, words: &mut SplitWhitespace<'_>) -> Result<&'static str, Fail>
    requires { is_joined tree.old.clients 1 ≡ true }
    ensures { is_joined tree.new.clients 1 ≡ true }
{
    let grid = widget(tree, words)?;
    let at = index(words)?;
    let size = number(words)?.min(1024);
    let weight = number(words)?.min(1000);
    match tree.kind(grid) {
        Kind::Grid => tree.set_column_rule(grid, at, size, weight),
        _ => return Err("it is no Grid".into()),
    }
    Ok("done")
}

/// `row GRID NUMBER SIZE WEIGHT`.
fn row(tree: &mut Tree, words: &mut SplitWhitespace<'_>) -> Result<&'static str, Fail>
    requires { is_joined tree.old.clients 1 ≡ true }
    ensures { is_joined tree.new.clients 1 ≡ true }
{
    let grid = widget(tree, words)?;
    let at = index(words)?;
    let size = number(words)?.min(1024);
    let weight = number(words)?.min(1000);
    match tree.kind(grid) {
        Kind::Grid => tree.set_row_rule(grid, at, size, weight),
        _ => return Err("it is no Grid".into()),
    }
    Ok("done")
}

/// `link WIDGET VARIABLE`.
fn link(tree: &mut Tree, words: &mut SplitWhitespace<'_>) -> Result<&'static str, Fail>
    requires { is_joined tree.old.clients 1 ≡ true }
    ensures { is_joined tree.new.clients 1 ≡ true }
{
    let linked = widget(tree, words)?;
    let variable = widget(tree, words)?;
    match tree.kind(variable) {
        Kind::Variable => {}
        _ => return Err("it is no Variable".into()),
    }
    if tree.owner(variable) != tree.owner(linked) {
        return Err("the widgets have two owners".into());
    }
    tree.set_link(linked, Some(variable));
    Ok("done")
}

/// `unlink WIDGET`.
fn unlink(tree: &mut Tree, words: &mut SplitWhitespace<'_>) -> Result<&'static str, Fail>
    requires { is_joined tree.old.clients 1 ≡ true }
    ensures { is_joined tree.new.clients 1 ≡ true }
{
    let linked = widget(tree, words)?;
    tree.set_link(linked, None);
    Ok("done")
}

/// `bind WIDGET TAG`: its event `move`.
fn bind(tree: &mut Tree, words: &mut SplitWhitespace<'_>) -> Result<&'static str, Fail>
    requires { is_joined tree.old.clients 1 ≡ true }
    ensures { is_joined tree.new.clients 1 ≡ true }
{
    let bound = widget(tree, words)?;
    let tag = name(words)?;
    tree.set_binding(bound, EventKind::Move, Some(tag));
    Ok("done")
}

/// `unbind WIDGET`: its event `move`.
fn unbind(tree: &mut Tree, words: &mut SplitWhitespace<'_>) -> Result<&'static str, Fail>
    requires { is_joined tree.old.clients 1 ≡ true }
    ensures { is_joined tree.new.clients 1 ≡ true }
{
    let bound = widget(tree, words)?;
    tree.set_binding(bound, EventKind::Move, None);
    Ok("done")
}

/// `place WIDGET X Y WIDTH HEIGHT`.
fn set_place(tree: &mut Tree, words: &mut SplitWhitespace<'_>) -> Result<&'static str, Fail>
    requires { is_joined tree.old.clients 1 ≡ true }
    ensures { is_joined tree.new.clients 1 ≡ true }
{
    let id = widget(tree, words)?;
    let place = place(words)?;
    tree.set_place(id, Some(place));
    Ok("done")
}

/// `unplace WIDGET`.
fn unplace(tree: &mut Tree, words: &mut SplitWhitespace<'_>) -> Result<&'static str, Fail>
    requires { is_joined tree.old.clients 1 ≡ true }
    ensures { is_joined tree.new.clients 1 ≡ true }
{
    let id = widget(tree, words)?;
    tree.set_place(id, None);
    Ok("done")
}

/// What the call answers.
pub fn change(
    tree: &mut Tree,
    call: &str,
    words: &mut SplitWhitespace<'_>,
) -> Result<&'static str, Fail>
    requires { is_joined tree.old.clients 1 ≡ true }
    ensures { is_joined tree.new.clients 1 ≡ true }
{
    match call {
        "add" => add(tree, words),
        "hang" => hang(tree, words),
        "lift" => lift(tree, words),
        "remove" => remove(tree, words),
        "width" => width(tree, words),
        "column" => column(tree, words),
        "row" => row(tree, words),
        "link" => link(tree, words),
        "unlink" => unlink(tree, words),
        "bind" => bind(tree, words),
        "unbind" => unbind(tree, words),
        "place" => set_place(tree, words),
        "unplace" => unplace(tree, words),
        _ => Err("no such call".into()),
    }
}

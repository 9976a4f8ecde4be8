//! Calls that read the tree: whether it has what a row says. A name that no widget has stands for none.
use crate::tables::{index, kind, name, number, other, place, widget};
use kind_core::{Attr, Cell, EventKind, Kind, Value};
use std::str::SplitWhitespace;
use std::test::Fail;
use tree_core::Tree;

/// `found CLIENT NAME`.
fn found(tree: &Tree, words: &mut SplitWhitespace<'_>) -> Result<bool, Fail> {
    let client = number(words)?;
    Ok(tree.find(client, &name(words)?).is_some())
}

/// `count CLIENT NUMBER`.
fn count(tree: &Tree, words: &mut SplitWhitespace<'_>) -> Result<bool, Fail> {
    let client = number(words)?;
    if client > 16 {
        return Err("a client is at most 16".into());
    }
    Ok(tree.count(client) == number(words)?)
}

/// `kind WIDGET KIND`.
fn has_kind(tree: &Tree, words: &mut SplitWhitespace<'_>) -> Result<bool, Fail> {
    let id = widget(tree, words)?;
    Ok(tree.kind(id) == kind(words)?)
}

/// `owner WIDGET CLIENT`.
fn has_owner(tree: &Tree, words: &mut SplitWhitespace<'_>) -> Result<bool, Fail> {
    let id = widget(tree, words)?;
    Ok(tree.owner(id) == number(words)?)
}

/// `wide WIDGET PIXELS`.
fn is_wide(tree: &Tree, words: &mut SplitWhitespace<'_>) -> Result<bool, Fail> {
    let id = widget(tree, words)?;
    let pixels = number(words)?.min(9999) as i32;
    Ok(tree.attr(id, Attr::W) == Some(Value::Number(pixels)))
}

/// `parent WIDGET OTHER`.
fn has_parent(tree: &Tree, words: &mut SplitWhitespace<'_>) -> Result<bool, Fail> {
    let id = widget(tree, words)?;
    Ok(tree.parent(id) == other(tree, words)?)
}

/// `root WIDGET OTHER`.
fn has_root(tree: &Tree, words: &mut SplitWhitespace<'_>) -> Result<bool, Fail> {
    let id = widget(tree, words)?;
    Ok(Some(tree.root(id)) == other(tree, words)?)
}

/// `child WIDGET COLUMN ROW OTHER`.
fn has_child(tree: &Tree, words: &mut SplitWhitespace<'_>) -> Result<bool, Fail> {
    let id = widget(tree, words)?;
    let child = tree.child_at(id, number(words)?, number(words)?);
    Ok(child == other(tree, words)?)
}

/// `cell WIDGET COLUMN ROW`.
fn has_cell(tree: &Tree, words: &mut SplitWhitespace<'_>) -> Result<bool, Fail> {
    let id = widget(tree, words)?;
    let cell = Cell {
        column: number(words)?,
        row: number(words)?,
        pad: 0,
    };
    Ok(tree.cell(id) == Some(cell))
}

/// `rules GRID NUMBER SIZE WEIGHT SIZE WEIGHT`: those of the column and the row of that number.
fn has_rules(tree: &Tree, words: &mut SplitWhitespace<'_>) -> Result<bool, Fail> {
    let grid = widget(tree, words)?;
    let at = index(words)?;
    let column = (number(words)?, number(words)?);
    let row = (number(words)?, number(words)?);
    match tree.kind(grid) {
        Kind::Grid => { Ok(tree.column_rule(grid, at) == column && tree.row_rule(grid, at) == row) }
        _ => Err("it is no Grid".into()),
    }
}

/// `linked WIDGET OTHER`.
fn is_linked(tree: &Tree, words: &mut SplitWhitespace<'_>) -> Result<bool, Fail> {
    let id = widget(tree, words)?;
    Ok(tree.link(id) == other(tree, words)?)
}

/// `bound WIDGET TAG`: to the tag at the event `move`, and to none at `key`.
fn is_bound(tree: &Tree, words: &mut SplitWhitespace<'_>) -> Result<bool, Fail> {
    let id = widget(tree, words)?;
    let tag = name(words)?;
    Ok(tree.binding(id, EventKind::Move) == Some(tag) && tree.binding(id, EventKind::Key).is_none())
}

/// `free WIDGET`: to none at the event `move`.
fn is_free(tree: &Tree, words: &mut SplitWhitespace<'_>) -> Result<bool, Fail> {
    let id = widget(tree, words)?;
    Ok(tree.binding(id, EventKind::Move).is_none())
}

/// `placed WIDGET X Y WIDTH HEIGHT`.
fn is_placed(tree: &Tree, words: &mut SplitWhitespace<'_>) -> Result<bool, Fail> {
    let id = widget(tree, words)?;
    Ok(tree.place_of(id) == Some(place(words)?))
}

/// `unplaced WIDGET`.
fn is_unplaced(tree: &Tree, words: &mut SplitWhitespace<'_>) -> Result<bool, Fail> {
    let id = widget(tree, words)?;
    Ok(tree.place_of(id).is_none())
}

/// Whether the tree has what the row says.
pub fn has(tree: &Tree, call: &str, words: &mut SplitWhitespace<'_>) -> Result<bool, Fail> {
    match call {
        "found" => found(tree, words),
        "count" => count(tree, words),
        "kind" => has_kind(tree, words),
        "owner" => has_owner(tree, words),
        "wide" => is_wide(tree, words),
        "parent" => has_parent(tree, words),
        "root" => has_root(tree, words),
        "child" => has_child(tree, words),
        "cell" => has_cell(tree, words),
        "rules" => has_rules(tree, words),
        "linked" => is_linked(tree, words),
        "bound" => is_bound(tree, words),
        "free" => is_free(tree, words),
        "placed" => is_placed(tree, words),
        "unplaced" => is_unplaced(tree, words),
        _ => Err("no such call".into()),
    }
}

//! Tables of rows, played on a tree. Beside the rows that change the tree there are
//! - `layout WINDOW`: the Window is laid out;
//! - `at WIDGET X Y WIDTH HEIGHT` and `none WIDGET`: where the widget is;
//! - `top WIDGET WINDOW X Y` and `bare WINDOW X Y`: what is on top at a pixel.
ghost use Rattle.std.specs.Prelude.{◌≡◌, true, false, OnOk};
ghost use Rattle.widget_model.specs.Widgets.{IsLive};
ghost use Rattle.widget_model.specs.Clients.{is_joined};

use crate::shown::{is_bare, is_top};
use geom_core::Rect;
use kind_core::Kind;
use scene_core::{place, relayout};
use std::alloc::Global;
use std::process::Abort;
use std::str::SplitWhitespace;
use std::test::Fail;
use test_tables::{join, make, rect, rows, widget, word};
use tree_core::{Id, Tree};

/// `layout WINDOW`.
fn layout(tree: &mut Tree, words: &mut SplitWhitespace<'_>) -> Result<(), Fail>
    requires { is_joined tree.old.clients 1 ≡ true }
    ensures { is_joined tree.new.clients 1 ≡ true }
{
    let window = widget(tree, words)?;
    match tree.kind(window) {
        Kind::Window => relayout(tree, window),
        _ => return Err("it is no Window".into()),
    }
    Ok(())
}

/// The place of the widget from scratch, where its root is a Window.
fn place_of(tree: &Tree, id: Id) -> Option<Rect>
    requires { IsLive tree.now id.key }
{
    match tree.kind(tree.root(id)) {
        Kind::Window => Some(place(tree, id)),
        _ => None,
    }
}

/// `at WIDGET X Y WIDTH HEIGHT`: that is its place, worked out from scratch, and the one that is kept of it.
fn is_at(
    rt: &impl Abort,
    tree: &Tree,
    words: &mut SplitWhitespace<'_>,
    row: &str,
) -> Result<(), Fail> {
    let id = widget(tree, words)?;
    let wanted = rect(words)?;
    assert_eq!(rt; place_of(tree, id), Some(wanted), "from scratch, {row}");
    assert_eq!(rt; tree.place_of(id), Some(wanted), "kept, {row}");
    Ok(())
}

/// `none WIDGET`: no place is kept of it.
fn is_nowhere(
    rt: &impl Abort,
    tree: &Tree,
    words: &mut SplitWhitespace<'_>,
    row: &str,
) -> Result<(), Fail> {
    let id = widget(tree, words)?;
    assert_eq!(rt; tree.place_of(id), None, "{row}");
    Ok(())
}

/// Makes the row's change, or tests what it says.
pub fn play_row(rt: &impl Abort, alloc: Global, tree: &mut Tree, row: &str) -> Result<(), Fail>
    requires { is_joined tree.old.clients 1 ≡ true }
    ensures { is_joined tree.new.clients 1 ≡ true }
{
    let mut words = row.split_whitespace();
    match word(&mut words)? {
        "layout" => layout(tree, &mut words),
        "at" => is_at(rt, tree, &mut words, row),
        "none" => is_nowhere(rt, tree, &mut words, row),
        "top" => is_top(rt, tree, &mut words, row),
        "bare" => is_bare(rt, tree, &mut words, row),
        call => make(alloc, tree, call, &mut words),
    }
}

/// Plays each row of the table on the tree. The table has a row at least.
pub fn play(rt: &impl Abort, alloc: Global, tree: &mut Tree, table: &str) -> Result<(), Fail>
    requires { is_joined tree.old.clients 1 ≡ true }
    ensures { is_joined tree.new.clients 1 ≡ true }
{
    for row in rows(table)? {
        play_row(rt, alloc, tree, row)?;
    }
    Ok(())
}

/// Client 1 joins a tree that it isn't in, and the table is played.
pub fn begin(rt: &impl Abort, alloc: Global, tree: &mut Tree, table: &str) -> Result<(), Fail>
    requires { is_joined tree.old.clients 1 ≡ false }
    ensures { OnOk result (is_joined tree.new.clients 1 ≡ true) }
{
    join(tree)?;
    play(rt, alloc, tree, table)
}

/// Plays the table on a new tree that client 1 alone joined.
pub fn plays(rt: &impl Abort, alloc: Global, table: &str) -> Result<(), Fail> {
    begin(rt, alloc, &mut Tree::new(alloc), table)
}

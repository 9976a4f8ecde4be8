//! Tables of rows, played on a tree and a canvas. Beside the rows that change the tree there are
//! - `open WINDOW`: the Window is opened, on top;
//! - `paint X Y W H | WRITES SPANS`: so many bytes and spans are written where the piece is painted, and
//!   `paint X Y W H | WRITES` leaves the spans free;
//! - `band WIDGET FROM TO | COUNT`: so many pixels are drawn of that band of the widget's film, a byte each;
//! - `pixel X Y | BYTE`, and `line Y X | BYTES`: what the screen has, each byte of a line as a hexadecimal digit.
ghost use Rattle.std.specs.Prelude.{◌≡◌, true, false};
ghost use Rattle.widget_model.specs.Clients.{is_joined};

use crate::painting::{band, line, paint, pixel};
use canvas_core::Canvas;
use kind_core::Name;
use std::alloc::Global;
use std::process::Abort;
use std::str::SplitWhitespace;
use std::test::Fail;
use test_tables::{join, make, name, rows, word};
use tree_core::Tree;

/// `open WINDOW`.
fn open(windows: &mut Vec<Name>, words: &mut SplitWhitespace<'_>) -> Result<(), Fail> {
    windows.push(name(words)?)?;
    Ok(())
}

/// Makes the row's change, paints, or tests what it says.
fn play_row(
    rt: &impl Abort,
    alloc: Global,
    tree: &mut Tree,
    windows: &mut Vec<Name>,
    canvas: &mut Canvas,
    row: &str,
) -> Result<(), Fail>
    requires { is_joined tree.old.clients 1 ≡ true }
    ensures { is_joined tree.new.clients 1 ≡ true }
{
    let mut words = row.split_whitespace();
    match word(&mut words)? {
        "open" => open(windows, &mut words),
        "paint" => paint(rt, tree, windows.as_slice(), canvas, &mut words, row),
        "band" => band(rt, tree, windows.as_slice(), canvas, &mut words, row),
        "pixel" => pixel(rt, canvas, &mut words, row),
        "line" => line(rt, canvas, &mut words, row),
        call => make(alloc, tree, call, &mut words),
    }
}

/// Client 1 joins a tree that it isn't in, and each row of the table is played on the tree and the canvas. The table has
/// a row at least.
fn play(
    rt: &impl Abort,
    alloc: Global,
    tree: &mut Tree,
    canvas: &mut Canvas,
    table: &str,
) -> Result<(), Fail>
    requires { is_joined tree.old.clients 1 ≡ false }
{
    join(tree)?;
    let mut windows = Vec::new(alloc);
    for row in rows(table)? {
        play_row(rt, alloc, tree, &mut windows, canvas, row)?;
    }
    Ok(())
}

/// Plays the table on a new tree that client 1 alone joined, and a screen of that size.
pub fn plays(
    rt: &impl Abort,
    alloc: Global,
    width: u32,
    height: u32,
    table: &str,
) -> Result<(), Fail> {
    if width < 16 || width > 1024 || height < 16 || height > 768 {
        return Err("the screen has no such size".into());
    }
    let mut canvas = match Canvas::new(alloc, width, height) {
        Ok(canvas) => canvas,
        Err(_) => return Err("there is no memory".into()),
    };
    play(rt, alloc, &mut Tree::new(alloc), &mut canvas, table)
}

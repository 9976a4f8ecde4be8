//! Rows that paint, and rows that say what the screen has.
ghost use Rattle.std.specs.Prelude.{◌≡◌, ◌+◌, ◌*◌, ◌^◌, ◌<◌, true, IfOk};
ghost use Rattle.canvas_core.specs.Screen.{IsScreen};
ghost use Rattle.geom_core.specs.Count.{screen_of};
ghost use Rattle.geom_core.specs.Rect.{area_of, IsInside};
ghost use Rattle.widget_model.specs.Clients.{is_joined};
ghost use Rattle.widget_model.specs.Forest.{IsWidgets};
ghost use Rattle.widget_model.specs.Widgets.{IsLive};
ghost use Rattle.scene_core.specs.View.{AreWindows, IsView, KeepsPlaces};

use crate::showing::show;
use canvas_core::Canvas;
use geom_core::{Rect, area, meet};
use kind_core::Name;
use painter_core::{paint as paint_piece, paint_band};
use scene_core::{Grab, Pointer, View};
use stack_core::Stack;
use std::process::Abort;
use std::str::SplitWhitespace;
use std::test::Fail;
use test_tables::{number, rect, widget, word};
use tree_core::Tree;
use vscreen_core::Band;

/// A pointer that has grabbed nothing and gives keys to nothing.
fn resting() -> Pointer {
    Pointer {
        x: 0,
        y: 0,
        down: false,
        grab: Grab::Nothing,
        focus: None,
    }
}

/// The part of the piece that is on the canvas.
fn on_canvas(canvas: &Canvas, piece: Rect) -> Rect
    ensures { IsInside result (screen_of canvas.now.width canvas.now.height) }
{
    let screen = Rect {
        x: 0,
        y: 0,
        w: canvas.width(),
        h: canvas.height(),
    };
    meet(piece, screen)
}

/// `paint X Y W H | WRITES` or `paint X Y W H | WRITES SPANS`.
pub fn paint(
    rt: &impl Abort,
    tree: &mut Tree,
    windows: &[Name],
    canvas: &mut Canvas,
    words: &mut SplitWhitespace<'_>,
    row: &str,
) -> Result<(), Fail>
    requires { is_joined tree.old.clients 1 ≡ true }
    ensures { is_joined tree.new.clients 1 ≡ true }
{
    let stack = show(tree, windows)?;
    let piece = on_canvas(canvas, rect(words)?);
    if area(piece) > 1_000_000 {
        return Err("the piece is too large".into());
    }
    canvas.start_count();
    let pointer = resting();
    let view = View {
        tree,
        stack: &stack,
        pointer: &pointer,
        width: canvas.width(),
        height: canvas.height(),
    };
    paint_piece(piece, &view, canvas);
    let _ = word(words)?;
    assert_eq!(rt; canvas.writes(), number(words)?, "writes, {row}");
    if let Some(spans) = words.next() {
        assert_eq!(rt; canvas.spans(), spans.parse::<u32>()?, "spans, {row}");
    }
    Ok(())
}

/// `band WIDGET FROM TO | COUNT`.
pub fn band(
    rt: &impl Abort,
    tree: &mut Tree,
    windows: &[Name],
    canvas: &mut Canvas,
    words: &mut SplitWhitespace<'_>,
    row: &str,
) -> Result<(), Fail>
    requires { is_joined tree.old.clients 1 ≡ true }
    ensures { is_joined tree.new.clients 1 ≡ true }
{
    let stack = show(tree, windows)?;
    let id = widget(tree, words)?;
    let band = Band {
        from: number(words)?,
        to: number(words)?,
    };
    canvas.start_count();
    let pointer = resting();
    let view = View {
        tree,
        stack: &stack,
        pointer: &pointer,
        width: canvas.width(),
        height: canvas.height(),
    };
    let count = paint_band(id, band, &view, canvas);
    let _ = word(words)?;
    assert_eq!(rt; count, number(words)?, "the count, {row}");
    assert_eq!(rt; canvas.writes(), count, "writes, {row}");
    Ok(())
}

/// The byte of the pixel, where it is on the canvas.
fn byte_at(canvas: &Canvas, x: u32, y: u32) -> Option<u8> {
    if x < canvas.width() && y < canvas.height() {
        return Some(canvas.pixel(x, y));
    }
    None
}

/// `pixel X Y | BYTE`.
pub fn pixel(
    rt: &impl Abort,
    canvas: &Canvas,
    words: &mut SplitWhitespace<'_>,
    row: &str,
) -> Result<(), Fail> {
    let x = number(words)?;
    let y = number(words)?;
    let _ = word(words)?;
    let wanted: u8 = word(words)?.parse()?;
    assert_eq!(rt; byte_at(canvas, x, y), Some(wanted), "{row}");
    Ok(())
}

/// The number of a hexadecimal digit.
fn digit(byte: u8) -> Result<u8, Fail> {
    match byte {
        b'0'..=b'9' => Ok(byte - b'0'),
        b'a'..=b'f' => Ok(byte - b'a' + 10),
        _ => Err("a byte is a hexadecimal digit".into()),
    }
}

/// `line Y X | BYTES`: row `Y` has these bytes from column `X` on.
pub fn line(
    rt: &impl Abort,
    canvas: &Canvas,
    words: &mut SplitWhitespace<'_>,
    row: &str,
) -> Result<(), Fail> {
    let y = number(words)?;
    let mut x = number(words)?;
    let _ = word(words)?;
    for byte in word(words)?.as_bytes() {
        let wanted = digit(*byte)?;
        assert_eq!(rt; byte_at(canvas, x, y), Some(wanted), "column {x}, {row}");
        x = x.saturating_add(1);
    }
    Ok(())
}

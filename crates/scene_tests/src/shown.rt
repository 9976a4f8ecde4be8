//! What is on top at a pixel, where one Window is open.
ghost use Rattle.std.specs.Prelude.{◌≡◌, true, Some};
ghost use Rattle.kind_core.specs.declared.kinds.Kind.TheVariants.{Window};
ghost use Rattle.widget_model.specs.Clients.{is_joined};
ghost use Rattle.widget_model.specs.Forest.{IsWidgets};
ghost use Rattle.widget_model.specs.Widgets.{row_kind};
ghost use Rattle.scene_core.specs.Places.{HasPlaces};

use kind_core::Kind;
use scene_core::{Grab, Pointer, View, relayout, top_at};
use stack_core::Stack;
use std::process::Abort;
use std::str::SplitWhitespace;
use std::test::Fail;
use test_tables::{integer, widget};
use tree_core::{Id, Tree};

/// The number of the widget on top at a pixel of a screen of 100 by 80, on which the Window alone is open.
fn top_alone(tree: &Tree, window: Id, x: i32, y: i32) -> Option<u32>
    requires valid { IsWidgets tree.now }
    requires window { row_kind tree.now.entries window.key ≡ Some Window }
    requires placed { HasPlaces tree.now window.key }
{
    let mut stack = Stack::new();
    match stack.push_top(window.key) {
        Ok(()) => {}
        Err(_) => return None,
    }
    let pointer = Pointer {
        x: 0,
        y: 0,
        down: false,
        grab: Grab::Nothing,
        focus: None,
    };
    let view = View {
        tree,
        stack: &stack,
        pointer: &pointer,
        width: 100,
        height: 80,
    };
    match top_at(&view, x, y) {
        Some(id) => Some(id.key),
        None => None,
    }
}

/// The number of the widget on top, where the next words are a Window, X and Y.
fn top(tree: &mut Tree, words: &mut SplitWhitespace<'_>) -> Result<Option<u32>, Fail>
    requires { is_joined tree.old.clients 1 ≡ true }
    ensures { is_joined tree.new.clients 1 ≡ true }
{
    let window = widget(tree, words)?;
    let x = integer(words)?;
    let y = integer(words)?;
    match tree.kind(window) {
        Kind::Window => {
            relayout(tree, window);
            Ok(top_alone(tree, window, x, y))
        }
        _ => Err("it is no Window".into()),
    }
}

/// `top WIDGET WINDOW X Y`: where the Window alone is open on a screen of 100 by 80, that widget is on top at the pixel.
pub fn is_top(
    rt: &impl Abort,
    tree: &mut Tree,
    words: &mut SplitWhitespace<'_>,
    row: &str,
) -> Result<(), Fail>
    requires { is_joined tree.old.clients 1 ≡ true }
    ensures { is_joined tree.new.clients 1 ≡ true }
{
    let wanted = widget(tree, words)?;
    let found = top(tree, words)?;
    assert_eq!(rt; found, Some(wanted.key), "{row}");
    Ok(())
}

/// `bare WINDOW X Y`: where the Window alone is open on a screen of 100 by 80, no widget is on top at the pixel.
pub fn is_bare(
    rt: &impl Abort,
    tree: &mut Tree,
    words: &mut SplitWhitespace<'_>,
    row: &str,
) -> Result<(), Fail>
    requires { is_joined tree.old.clients 1 ≡ true }
    ensures { is_joined tree.new.clients 1 ≡ true }
{
    let found = top(tree, words)?;
    assert_eq!(rt; found, None, "{row}");
    Ok(())
}

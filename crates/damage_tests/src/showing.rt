//! What the screen shows.
ghost use Rattle.std.specs.Prelude.{◌≡◌, Some, IfOk, OnOk};
ghost use Rattle.kind_core.specs.declared.kinds.Kind.TheVariants.{Window};
ghost use Rattle.stack_core.specs.Stack.{holds_key, IsStack};
ghost use Rattle.widget_model.specs.Forest.{IsWidgets};
ghost use Rattle.widget_model.specs.Widgets.{row_kind};
ghost use Rattle.damage_tests.specs.Shown.{IsShown};

use kind_core::Kind;
use scene_core::{View, relayout};
use shot_core::Shot;
use stack_core::Stack;
use std::test::Fail;
use test_tables::named;
use tree_core::{Grab, Id, Pointer, Tree};
use view_shots::shot;

/// Opens the Window on top of the others, laid out.
fn open_window(tree: &mut Tree, stack: &mut Stack, window: Id) -> Result<(), Fail>
    requires valid { IsWidgets tree.old }
    requires window { row_kind tree.old.entries window.key ≡ Some Window }
    requires shown { IsShown tree.old stack.old }
    ensures clients { tree.new.clients ≡ tree.old.clients }
    ensures valid { IsWidgets tree.new }
    ensures shown { OnOk result (IsShown tree.new stack.new) }
{
    relayout(tree, window);
    let _ = stack.remove(window.key);
    match stack.push_top(window.key) {
        Ok(()) => Ok(()),
        Err(_) => Err("too many windows are open".into()),
    }
}

/// Opens the named Windows, the first one first, so that the last one is on top.
fn open_windows(tree: &mut Tree, names: &str) -> Result<Stack, Fail>
    requires valid { IsWidgets tree.old }
    ensures clients { tree.new.clients ≡ tree.old.clients }
    ensures valid { IsWidgets tree.new }
    ensures shown { IfOk result (λ stack. IsShown tree.new stack) }
{
    let mut stack = Stack::new();
    for name in names.split_whitespace() {
        let window = named(tree, name)?;
        match tree.kind(window) {
            Kind::Window => open_window(tree, &mut stack, window)?,
            _ => return Err("it is no Window".into()),
        }
    }
    Ok(stack)
}

/// Makes the shot of what a screen of 160 by 128 pixels shows with these windows open.
pub fn show(tree: &mut Tree, names: &str, out: &mut Shot) -> Result<(), Fail>
    requires valid { IsWidgets tree.old }
    ensures clients { tree.new.clients ≡ tree.old.clients }
    ensures valid { IsWidgets tree.new }
{
    let stack = open_windows(tree, names)?;
    let pointer = Pointer {
        x: 0,
        y: 0,
        down: false,
        grab: Grab::Nothing,
        focus: None,
    };
    let view = View {
        tree: &*tree,
        stack: &stack,
        pointer: &pointer,
        width: 160,
        height: 128,
    };
    shot(&view, out);
    Ok(())
}

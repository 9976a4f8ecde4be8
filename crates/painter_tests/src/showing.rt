//! The open windows of a tree, laid out.
ghost use Rattle.std.specs.Prelude.{◌≡◌, true, IfOk};
ghost use Rattle.widget_model.specs.Clients.{is_joined};
ghost use Rattle.widget_model.specs.Forest.{IsWidgets};
ghost use Rattle.scene_core.specs.View.{AreWindows, KeepsPlaces};

use kind_core::{Kind, Name};
use scene_core::relayout;
use stack_core::Stack;
use std::test::Fail;
use tree_core::Tree;

/// Lays the Window of that name out, and puts it on top.
fn put_on_top(tree: &mut Tree, stack: &mut Stack, name: &Name) -> Result<(), Fail>
    requires joined { is_joined tree.old.clients 1 ≡ true }
    requires windows { AreWindows tree.old stack.old }
    requires kept { KeepsPlaces tree.old stack.old }
    ensures joined { is_joined tree.new.clients 1 ≡ true }
    ensures windows { IfOk result (λ done. AreWindows tree.new stack.new) }
    ensures kept { IfOk result (λ done. KeepsPlaces tree.new stack.new) }
{
    let id = tree.find(1, name).ok_or("no widget has that name")?;
    match tree.kind(id) {
        Kind::Window => {}
        _ => return Err("it is no Window".into()),
    }
    if stack.remove(id.key) {
        return Err("the Window is open already".into());
    }
    relayout(tree, id);
    match stack.push_top(id.key) {
        Ok(()) => Ok(()),
        Err(_) => Err("too many windows are open".into()),
    }
}

/// The stack of the Windows of these names, the last one on top, all of them laid out.
pub fn show(tree: &mut Tree, windows: &[Name]) -> Result<Stack, Fail>
    requires { is_joined tree.old.clients 1 ≡ true }
    ensures joined { is_joined tree.new.clients 1 ≡ true }
    ensures valid { IfOk result (λ stack. IsWidgets tree.new) }
    ensures windows { IfOk result (λ stack. AreWindows tree.new stack) }
    ensures kept { IfOk result (λ stack. KeepsPlaces tree.new stack) }
{
    let mut stack = Stack::new();
    for name in windows {
        put_on_top(tree, &mut stack, name)?;
    }
    // A call of the tree says that it is a whole one.
    let _ = tree.count(1);
    Ok(stack)
}

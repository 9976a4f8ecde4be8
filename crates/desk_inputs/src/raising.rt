//! The window that an input raises.

ghost use Rattle.std.specs.Prelude.{◌≡◌, ◌↔◌, IsTrue, IfSome, Some, true, slice_get};
ghost use Rattle.std.specs.Option.{option_map, option_map_or};
ghost use Rattle.std.specs.List.{list_any};
ghost use Rattle.widget_model.specs.Widgets.{IsLive, nodes};
ghost use Rattle.desk_model.specs.Desk.{is_window};
ghost use Rattle.desk_model.specs.Windows.{with_top};
ghost use Rattle.input_core.specs.Seen.{key_seen};
ghost use Rattle.desk_commands.specs.Parts.{AreParts, windows_at};
ghost use Rattle.desk_commands.specs.Effects.{TellsAll};
ghost use Rattle.desk_inputs.specs.Raised.{is_open_at, windows_after};

use stack_core::Stack;
use tree_core::{Id, Tree};

/// Whether the window with that number is the top one.
fn is_on_top(windows: &Stack, key: u32) -> bool
    ensures { IsTrue result ↔ (slice_get windows.now 0 ≡ Some key) }
{
    match windows.at(0) {
        Some(top) => top == key,
        None => false,
    }
}

/// Raises the open window to the top, and answers whether the order changed.
fn raise_window(tree: &Tree, windows: &mut Stack, id: Id) -> bool
    requires parts { AreParts tree.now.clients tree.now windows.old }
    requires live { IsLive tree.now id.key }
    requires opened { is_open_at tree.now windows.old (key_seen tree.now.entries id) ≡ true }
    ensures windows { windows_at (nodes tree.now.entries) windows.new ≡ with_top (key_seen tree.now.entries id).0 (key_seen tree.now.entries id).1 (windows_at (nodes tree.now.entries) windows.old) }
    ensures parts { AreParts tree.now.clients tree.now windows.new }
    ensures tells { TellsAll tree.now tree.now windows.old windows.new result }
{
    let on_top = is_on_top(windows, id.key);
    if !windows.raise(id.key) {
        unreachable!();
    }
    !on_top
}

/// Raises the open window that an input asks for, where it asks for one: it is the top one then, and the others keep
/// their order. Answers whether the order of the open windows changed. See docs/MACHINE.md, "Input".
pub fn raise(tree: &Tree, windows: &mut Stack, asked: Option<Id>) -> bool
    requires parts { AreParts tree.now.clients tree.now windows.old }
    requires live { IfSome asked (λ id. IsLive tree.now id.key) }
    requires opened { IfSome asked (λ id. is_open_at tree.now windows.old (key_seen tree.now.entries id) ≡ true) }
    ensures windows { windows_at (nodes tree.now.entries) windows.new ≡ windows_after (option_map (key_seen tree.now.entries) asked) (windows_at (nodes tree.now.entries) windows.old) }
    ensures parts { AreParts tree.now.clients tree.now windows.new }
    ensures tells { TellsAll tree.now tree.now windows.old windows.new result }
{
    match asked {
        Some(id) => raise_window(tree, windows, id),
        None => false,
    }
}

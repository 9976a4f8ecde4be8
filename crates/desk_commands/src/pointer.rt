//! What the pointer may hold on to: open windows and widgets under them.

ghost use Rattle.std.specs.Prelude.{◌≡◌, IsSome, IfSome, List};
ghost use Rattle.std.specs.Option.{option_and_then};
ghost use Rattle.kind_core.specs.declared.shapes.Shape.{Shape};
ghost use Rattle.admit_core.specs.Roster.{RosterState};
ghost use Rattle.desk_model.specs.Desk.{Ring};
ghost use Rattle.widget_model.specs.Widgets.{key_at, row_at};
ghost use Rattle.tree_core.specs.Holds.{grab_seen};
ghost use Rattle.desk_model.specs.LetGo.{is_in_window, grab_left, focus_left, let_go};
ghost use Rattle.desk_commands.specs.Parts.{Stage, AreParts, desk_of, stage_of};
ghost use Rattle.desk_commands.specs.Pointer.{IsGrabLive, HoldsLive};

use stack_core::Stack;
use tree_core::{Grab, Id, Pointer, Tree};

/// Whether the widget is an open window or under one.
fn is_in_window(tree: &Tree, windows: &Stack, id: Id) -> bool
    requires parts { AreParts tree.now.clients tree.now windows.now }
    requires live { IsSome (row_at tree.now.entries id.key) }
    ensures { (stage : Stage) → IfSome (key_at tree.now.entries id.key) (λ key. result ≡ is_in_window (desk_of stage tree.now windows.now) key) }
{
    windows.holds(tree.root(id).key)
}

/// What stays of a grab.
fn grab_left(tree: &Tree, windows: &Stack, grab: Grab) -> Grab
    requires parts { AreParts tree.now.clients tree.now windows.now }
    requires live { IsGrabLive tree.now.entries grab }
    ensures left { (stage : Stage) → grab_seen tree.now.entries result ≡ grab_left (is_in_window (desk_of stage tree.now windows.now)) (grab_seen tree.now.entries grab) }
    ensures live { IsGrabLive tree.now.entries result }
{
    match grab {
        Grab::Nothing => Grab::Nothing,
        Grab::Widget { id } => {
            if is_in_window(tree, windows, id) {
                Grab::Widget { id }
            } else {
                Grab::Nothing
            }
        }
        Grab::Drag { id, dx, dy } => {
            if is_in_window(tree, windows, id) {
                Grab::Drag { id, dx, dy }
            } else {
                Grab::Nothing
            }
        }
    }
}

/// What stays of a focus.
fn focus_left(tree: &Tree, windows: &Stack, focus: Option<Id>) -> Option<Id>
    requires parts { AreParts tree.now.clients tree.now windows.now }
    requires live { IfSome focus (λ id. IsSome (row_at tree.now.entries id.key)) }
    ensures left { (stage : Stage) → option_and_then (λ id. key_at tree.now.entries id.key) result ≡ focus_left (is_in_window (desk_of stage tree.now windows.now)) (option_and_then (λ id. key_at tree.now.entries id.key) focus) }
    ensures live { IfSome result (λ id. IsSome (row_at tree.now.entries id.key)) }
{
    match focus {
        Some(id) => {
            if is_in_window(tree, windows, id) {
                Some(id)
            } else {
                None
            }
        }
        None => None,
    }
}

/// Lets the pointer go of what is neither an open window nor under one: its grab or focus becomes none, and it stays
/// where it is. See docs/MACHINE.md, "The pointer".
pub fn let_go(tree: &Tree, windows: &Stack, pointer: &mut Pointer)
    requires parts { AreParts tree.now.clients tree.now windows.now }
    requires live { HoldsLive tree.now.entries pointer.old }
    ensures left { (shape : Shape) (roster : RosterState) (rings : List Ring) → desk_of (stage_of shape roster rings tree.now pointer.new) tree.now windows.now ≡ let_go (desk_of (stage_of shape roster rings tree.now pointer.old) tree.now windows.now) }
    ensures live { HoldsLive tree.now.entries pointer.new }
{
    let grab = grab_left(tree, windows, pointer.grab);
    let focus = focus_left(tree, windows, pointer.focus);
    pointer.grab = grab;
    pointer.focus = focus;
}

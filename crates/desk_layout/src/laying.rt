//! The layout of a client's widgets: the kept places of its Windows and of what hangs under them.

ghost use Rattle.std.specs.Prelude.{◌≡◌, ◌≤◌, ◌&&◌};
ghost use Rattle.widget_model.specs.Forest.{IsWidgets};
ghost use Rattle.widget_model.specs.Nodes.{first_number};
ghost use Rattle.desk_layout.specs.Laid.{is_window_at, AreEmptied, AreLaidTo, AreLaidOut};
ghost use Rattle.desk_layout.specs.Settled.{IsSettled};

use crate::kinds::is_window;
use scene_core::relayout;
use tree_core::{Id, Tree};

/// How many numbers a client has.
const CLIENT_NUMBERS: u32 = 128;

/// The first number of a client.
fn first_number(client: u32) -> u32
    requires low { 1 ≤ client }
    requires high { client ≤ 16 }
    ensures first { result ≡ first_number client }
    ensures few { result ≤ 1920 }
{
    CLIENT_NUMBERS * (client - 1)
}

/// Whether the number names a Window.
fn is_window_number(tree: &Tree, id: Id) -> bool
    ensures window { result ≡ is_window_at tree.now.entries id.key }
    ensures valid { IsWidgets tree.now }
{
    if !tree.is_live(id) {
        return false;
    }
    is_window(tree.kind(id))
}

/// Keeps no place of any widget of the client.
fn empty_places(tree: &mut Tree, client: u32)
    requires valid { IsWidgets tree.old }
    requires low { 1 ≤ client }
    requires high { client ≤ 16 }
    ensures { AreEmptied client 128 tree.old tree.new }
{
    let first = first_number(client);
    for k in 0..CLIENT_NUMBERS {
        let id = Id { key: first + k };
        if tree.is_live(id) {
            tree.set_place(id, None);
        }
    }
}

/// Lays out each Window of the client, where no place is kept of its widgets.
fn lay_windows(tree: &mut Tree, client: u32)
    requires valid { IsWidgets tree.old }
    requires low { 1 ≤ client }
    requires high { client ≤ 16 }
    requires bare { AreEmptied client 128 tree.old tree.old }
    ensures { AreLaidTo client 128 tree.old tree.new }
{
    let first = first_number(client);
    for k in 0..CLIENT_NUMBERS {
        let id = Id { key: first + k };
        if is_window_number(tree, id) {
            relayout(tree, id);
        }
    }
}

/// Makes the kept places of the client's widgets the ones that they are due: those of its Windows and of what hangs under
/// them are their places, its other widgets have none.
fn lay_out(tree: &mut Tree, client: u32)
    requires valid { IsWidgets tree.old }
    requires low { 1 ≤ client }
    requires high { client ≤ 16 }
    ensures { AreLaidOut client tree.old tree.new }
{
    empty_places(tree, client);
    lay_windows(tree, client);
}

/// Lays out the widgets of a client, 1 to 16, where a command has changed something and may have moved one: the kept
/// place of each of its Windows and of each widget under one is then its place, in pixels of the screen, and its other
/// widgets have none. Else the tree stays as it is. The kept places of other clients' widgets stay in any case. See
/// docs/MACHINE.md, "Colours and the picture".
pub fn settle(tree: &mut Tree, client: u32, changed: bool, moves: bool)
    requires valid { IsWidgets tree.old }
    requires low { 1 ≤ client }
    requires high { client ≤ 16 }
    ensures { IsSettled client (changed && moves) tree.old tree.new }
{
    if !changed {
        return;
    }
    if !moves {
        return;
    }
    lay_out(tree, client);
}

//! The numbers of a widget's children.
ghost use Rattle.std.specs.Prelude.{◌≡◌, ◌≤◌, ◌<◌, ◌++◌, length};
ghost use Rattle.std.specs.Option.{option_map};
ghost use Rattle.widget_model.specs.Widgets.{IsLive};
ghost use Rattle.tree_core.specs.Children.{cells_of};
ghost use Rattle.scene_core.specs.Children.{row_for, AreChildren, one_or_none};

use arrayvec::ArrayVec;
use kind_core::Kind;
use tree_core::{Id, Tree};

/// How many cells a widget of the kind has.
fn cells_of(kind: Kind) -> u32
    ensures count { result ≡ cells_of kind }
    ensures within { result ≤ 256 }
{
    match kind {
        Kind::Grid => 256,
        Kind::Window | Kind::Frame => 1,
        _ => 0,
    }
}

/// Adds the number of a child, where there is one.
fn push_key(keys: &mut ArrayVec<u32, 256>, child: Option<Id>)
    requires { length keys.old.items < 256 }
    ensures { keys.new.items ≡ keys.old.items ++ one_or_none (option_map (λ id. id.key) child) }
{
    match child {
        Some(child) => keys.push(child.key),
        None => {}
    }
}

/// The numbers of the widgets that hang in this one, row by row in each column: at most 256, as a Grid has cells. The widget
/// is live. See docs/MACHINE.md, "Widgets".
pub fn child_keys(tree: &Tree, id: Id) -> ArrayVec<u32, 256>
    requires { IsLive tree.now id.key }
    ensures children { AreChildren tree.now id.key result.items }
    ensures few { length result.items ≤ 256 }
{
    let mut keys = ArrayVec::new();
    for index in 0..cells_of(tree.kind(id)) {
        push_key(&mut keys, tree.child_at(id, index / 16 + 1, index % 16 + 1));
    }
    keys
}

//! Tables of rows that make and change widgets.
ghost use Rattle.std.specs.Prelude.{◌≡◌, true, false, OnOk};
ghost use Rattle.widget_model.specs.Clients.{is_joined};
ghost use Rattle.widget_model.specs.Forest.{IsWidgets};

use crate::making::make;
use crate::words::word;
use std::alloc::Global;
use std::test::Fail;
use tree_core::Tree;

/// Client 1 joins a tree that it isn't in.
pub fn join(tree: &mut Tree) -> Result<(), Fail>
    requires { is_joined tree.old.clients 1 ≡ false }
    ensures { OnOk result (is_joined tree.new.clients 1 ≡ true) }
{
    match tree.join_client(1) {
        Ok(()) => Ok(()),
        Err(_) => Err("there is no memory".into()),
    }
}

/// Makes the widget, or the change of one, that the row says.
fn make_row(alloc: Global, tree: &mut Tree, row: &str) -> Result<(), Fail>
    requires { is_joined tree.old.clients 1 ≡ true }
    ensures { is_joined tree.new.clients 1 ≡ true }
{
    let mut words = row.split_whitespace();
    let call = word(&mut words)?;
    make(alloc, tree, call, &mut words)
}

/// Makes what each row of the table says. An empty table makes nothing.
pub fn make_rows(alloc: Global, tree: &mut Tree, table: &str) -> Result<(), Fail>
    requires { is_joined tree.old.clients 1 ≡ true }
    ensures joined { is_joined tree.new.clients 1 ≡ true }
    ensures valid { OnOk result (IsWidgets tree.new) }
{
    for row in table.trim().lines() {
        make_row(alloc, tree, row)?;
    }
    // A call of the tree says that it is a whole one.
    let _ = tree.count(1);
    Ok(())
}

/// Client 1 joins a tree that it isn't in, and the table's widgets are made.
pub fn make_all(alloc: Global, tree: &mut Tree, table: &str) -> Result<(), Fail>
    requires { is_joined tree.old.clients 1 ≡ false }
    ensures joined { OnOk result (is_joined tree.new.clients 1 ≡ true) }
    ensures valid { OnOk result (IsWidgets tree.new) }
{
    join(tree)?;
    make_rows(alloc, tree, table)
}

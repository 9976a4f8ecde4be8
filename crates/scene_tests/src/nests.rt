//! A client's 128 widgets on 12 levels: a Window, ten Grids in one another, and Labels in all of them.
ghost use Rattle.std.specs.Prelude.{◌≡◌, true, false};
ghost use Rattle.widget_model.specs.Clients.{is_joined};

use crate::playing::{begin, play, play_row};
use std::alloc::Global;
use std::process::Abort;
use std::test::Fail;
use tree_core::Tree;

/// Nine Grids, each in column 1 and row 1 of the one before.
fn add_grids(rt: &impl Abort, alloc: Global, tree: &mut Tree) -> Result<(), Fail>
    requires { is_joined tree.old.clients 1 ≡ true }
    ensures { is_joined tree.new.clients 1 ≡ true }
{
    for index in 0..9u32 {
        let row = format!(in alloc; "add g{} Grid", index + 1)?;
        play_row(rt, alloc, tree, &row)?;
        let row = format!(in alloc; "hang g{} g{} 1 1 0", index, index + 1)?;
        play_row(rt, alloc, tree, &row)?;
    }
    Ok(())
}

/// 117 Labels, in turn in each of the ten Grids, from column 2 on.
fn add_labels(rt: &impl Abort, alloc: Global, tree: &mut Tree) -> Result<(), Fail>
    requires { is_joined tree.old.clients 1 ≡ true }
    ensures { is_joined tree.new.clients 1 ≡ true }
{
    for index in 0..117u32 {
        let row = format!(in alloc; "add l{} Label", index)?;
        play_row(rt, alloc, tree, &row)?;
        let row = format!(in alloc; "hang g{} l{} {} 1 0", index % 10, index, index / 10 + 2)?;
        play_row(rt, alloc, tree, &row)?;
    }
    Ok(())
}

const FIRST: &str = "
add w Window
set w x 0
set w y 0
set w w 1024
set w h 768
add g0 Grid
hang w g0 1 1 0
";

// A Label is 4 wide. The Grids 7 to 9 have 11 Labels, the others 12, so Grid 9 needs 44, each Grid before it as much more
// as its Labels need, and Grid 0 needs 468. Of 1,022 its last column gets the rest; its one row gets all.
const LAST: &str = "
layout w
at g0 1 12 1022 755
at g1 1 12 420 755
at g9 1 12 44 755
at l9 1 12 4 755
at l109 41 12 4 755
at l0 421 12 4 755
at l110 465 12 558 755
";

/// Builds the nest and lays it out.
fn nests(rt: &impl Abort, alloc: Global, tree: &mut Tree) -> Result<(), Fail>
    requires { is_joined tree.old.clients 1 ≡ false }
{
    begin(rt, alloc, tree, FIRST)?;
    add_grids(rt, alloc, tree)?;
    add_labels(rt, alloc, tree)?;
    play(rt, alloc, tree, LAST)
}

#[test]
fn all_widgets_of_a_client_on_twelve_levels(rt: HostRuntime) -> Result<(), Fail> {
    nests(&rt, rt.alloc(), &mut Tree::new(rt.alloc()))
}

//! Rows that set the rules of a Grid.
ghost use Rattle.std.specs.Prelude.{◌≡◌, true};
ghost use Rattle.widget_model.specs.Clients.{is_joined};

use crate::widgets::grid;
use crate::words::{index, number};
use std::str::SplitWhitespace;
use std::test::Fail;
use tree_core::Tree;

/// `column GRID NUMBER SIZE WEIGHT`.
pub fn column(tree: &mut Tree, words: &mut SplitWhitespace<'_>) -> Result<(), Fail>
    requires { is_joined tree.old.clients 1 ≡ true }
    ensures { is_joined tree.new.clients 1 ≡ true }
{
    let grid = grid(tree, words)?;
    let at = index(words)?;
    let size = number(words)?.min(1024);
    tree.set_column_rule(grid, at, size, number(words)?.min(1000));
    Ok(())
}

/// `row GRID NUMBER SIZE WEIGHT`.
pub fn row(tree: &mut Tree, words: &mut SplitWhitespace<'_>) -> Result<(), Fail>
    requires { is_joined tree.old.clients 1 ≡ true }
    ensures { is_joined tree.new.clients 1 ≡ true }
{
    let grid = grid(tree, words)?;
    let at = index(words)?;
    let size = number(words)?.min(1024);
    tree.set_row_rule(grid, at, size, number(words)?.min(1000));
    Ok(())
}

//! What a caller may cite of the tree with no word on its fields.
ghost use Rattle.std.specs.Prelude.{◌≡◌, true, false, IfSome};
ghost use Rattle.std.specs.List.{list_all};
ghost use Rattle.widget_model.specs.Named.{AreNamedApart};
ghost use Rattle.widget_model.specs.Fitting.{is_fit};
ghost use Rattle.widget_model.specs.Forest.{HaveOwnNumbers};
ghost use Rattle.widget_model.specs.Planted.{hangs_right, HaveOwnCells};
ghost use Rattle.widget_model.specs.RowFacts.{links_right};
ghost use Rattle.widget_model.specs.Trees.{ends_within, most_levels};
ghost use Rattle.widget_model.specs.Widgets.{IsLive, nodes, rows_of};
ghost use Rattle.widget_model.specs.Clients.{is_joined};

use crate::playing::begin;
use kind_core::{Name, name_from};
use std::process::Abort;
use std::test::Fail;
use tree_core::{Id, Tree};

/// The widget in a cell of the named one's root: what a caller may ask for with no test in between.
fn in_root(tree: &Tree, client: u32, name: &Name, column: u32, row: u32) -> Option<Id>
    ensures live { IfSome result (λ id. IsLive tree.now id.key) }
    ensures own_numbers { HaveOwnNumbers (nodes tree.now.entries) }
    ensures own_names { AreNamedApart (rows_of tree.now) }
    ensures parents { list_all (hangs_right (rows_of tree.now)) (rows_of tree.now) ≡ true }
    ensures own_cells { HaveOwnCells (rows_of tree.now) }
    ensures low { list_all (λ row. ends_within most_levels (rows_of tree.now) row.client row.name) (rows_of tree.now) ≡ true }
    ensures linked { list_all (links_right (rows_of tree.now)) (rows_of tree.now) ≡ true }
    ensures fitting { list_all is_fit (rows_of tree.now) ≡ true }
{
    let id = tree.find(client, name)?;
    let parent = tree.parent(id)?;
    let root = tree.root(parent);
    tree.child_at(root, column, row)
}

/// A Grid with a Label in its column 2, row 3.
const PAIR: &str = "
add a Grid | done
add b Label | done
hang a b 2 3 | done
";

fn has_it_below(rt: &impl Abort, tree: &mut Tree) -> Result<(), Fail>
    requires { is_joined tree.old.clients 1 ≡ false }
{
    begin(rt, tree, PAIR)?;
    let name = name_from(b"b").ok_or("a name")?;
    let label = tree.find(1, &name);
    assert!(rt; label.is_some());
    assert_eq!(rt; in_root(tree, 1, &name, 2, 3), label);
    Ok(())
}

#[test]
fn the_root_of_a_widget_has_it_below(rt: HostRuntime) -> Result<(), Fail> {
    has_it_below(&rt, &mut Tree::new(rt.alloc()))
}

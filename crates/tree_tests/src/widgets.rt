//! What each call of the tree answers. The names `nobody` and `none` are no widget's.
ghost use Rattle.std.specs.Prelude.{◌≡◌, true, false};
ghost use Rattle.widget_model.specs.Clients.{is_joined};

use crate::playing::{begin, join, play, plays};
use kind_core::{Kind, Name, name_from};
use std::process::Abort;
use std::test::Fail;
use tree_core::Tree;

const FOUND: &str = "
has count 1 0 | yes
add w Window | done
has kind w Window | yes
has owner w 1 | yes
has found 1 w | yes
has found 2 w | no
has count 1 1 | yes
has count 2 0 | yes
add w Label | name taken
";

#[test]
fn a_row_is_found_under_its_client_and_name(rt: HostRuntime) -> Result<(), Fail> {
    plays(&rt, rt.alloc(), FOUND)
}

const WIDTHS: &str = "
add w Window | done
has wide w 160 | yes
width w 40 | done
width w 15 | 16 to 1024
has wide w 40 | yes
";

#[test]
fn an_attribute_is_set_in_its_range(rt: HostRuntime) -> Result<(), Fail> {
    plays(&rt, rt.alloc(), WIDTHS)
}

const BINDINGS: &str = "
add w Window | done
bind w moved | done
has bound w moved | yes
has bound w other | no
unbind w | done
has free w | yes
";

#[test]
fn an_event_is_bound_and_unbound(rt: HostRuntime) -> Result<(), Fail> {
    plays(&rt, rt.alloc(), BINDINGS)
}

const HANGING: &str = "
add a Grid | done
add b Label | done
has parent b nobody | yes
hang a b 2 3 | done
has parent b a | yes
has root b a | yes
has child a 2 3 b | yes
has child a 17 1 nobody | yes
has cell b 2 3 | yes
lift b | done
has parent b nobody | yes
has child a 2 3 nobody | yes
";

#[test]
fn a_widget_hangs_where_it_was_hung(rt: HostRuntime) -> Result<(), Fail> {
    plays(&rt, rt.alloc(), HANGING)
}

const CYCLES: &str = "
add a Grid | done
add b Grid | done
hang a b 2 3 | done
add c Grid | done
hang a a 1 1 | cycle
hang b a 1 1 | cycle
hang b c 1 1 | done
hang c a 1 1 | cycle
";

#[test]
fn a_widget_hangs_not_in_one_below_it(rt: HostRuntime) -> Result<(), Fail> {
    plays(&rt, rt.alloc(), CYCLES)
}

const CELLS: &str = "
add a Grid | done
add b Grid | done
hang a b 2 3 | done
add c Grid | done
add w Window | done
hang c w 1 1 | wrong kind
hang c b 1 1 | has parent
hang a c 2 3 | cell taken
";

#[test]
fn a_cell_has_one_child_and_a_child_one_parent(rt: HostRuntime) -> Result<(), Fail> {
    plays(&rt, rt.alloc(), CELLS)
}

const LEVELS: &str = "
add g1 Grid | done
add g2 Grid | done
add g3 Grid | done
add g4 Grid | done
add g5 Grid | done
add g6 Grid | done
add g7 Grid | done
add g8 Grid | done
add g9 Grid | done
add g10 Grid | done
add g11 Grid | done
add g12 Grid | done
add g13 Grid | done
hang g1 g2 1 1 | done
hang g2 g3 1 1 | done
hang g3 g4 1 1 | done
hang g4 g5 1 1 | done
hang g5 g6 1 1 | done
hang g6 g7 1 1 | done
hang g7 g8 1 1 | done
hang g8 g9 1 1 | done
hang g9 g10 1 1 | done
hang g10 g11 1 1 | done
hang g11 g12 1 1 | done
hang g12 g13 1 1 | too deep
has root g12 g1 | yes
";

#[test]
fn a_tree_has_twelve_levels(rt: HostRuntime) -> Result<(), Fail> {
    plays(&rt, rt.alloc(), LEVELS)
}

const RULES: &str = "
add g Grid | done
column g 2 30 4 | done
row g 5 6 7 | done
has rules g 2 30 4 0 0 | yes
has rules g 5 0 0 6 7 | yes
has rules g 3 0 0 0 0 | yes
";

#[test]
fn a_rule_is_that_of_one_column_or_row(rt: HostRuntime) -> Result<(), Fail> {
    plays(&rt, rt.alloc(), RULES)
}

const LINKS: &str = "
add l Label | done
add v Variable | done
link l v | done
has linked l v | yes
remove v | in use
unlink l | done
has linked l nobody | yes
remove v | done
";

#[test]
fn a_linked_variable_stays(rt: HostRuntime) -> Result<(), Fail> {
    plays(&rt, rt.alloc(), LINKS)
}

const USED: &str = "
add a Grid | done
add b Label | done
hang a b 2 3 | done
remove a | in use
remove b | in use
lift b | done
remove a | done
remove b | done
";

#[test]
fn a_widget_that_holds_or_hangs_stays(rt: HostRuntime) -> Result<(), Fail> {
    plays(&rt, rt.alloc(), USED)
}

const PLACES: &str = "
add a Label | done
has unplaced a | yes
place a 3 -4 50 60 | done
has placed a 3 -4 50 60 | yes
place a 1 2 3 4 | done
add b Label | done
has unplaced b | yes
place b 5 6 7 8 | done
has placed a 1 2 3 4 | yes
has placed b 5 6 7 8 | yes
unplace b | done
has unplaced b | yes
remove a | done
add a Label | done
has unplaced a | yes
";

#[test]
fn the_last_place_of_a_widget_is_kept(rt: HostRuntime) -> Result<(), Fail> {
    plays(&rt, rt.alloc(), PLACES)
}

/// A name of one letter.
fn letter(byte: u8) -> Result<Name, Fail> {
    match name_from(&[byte]) {
        Some(name) => Ok(name),
        None => Err("no letter".into()),
    }
}

/// The number of `b` is the same while `a` goes and `c` comes, which gets another.
fn keeps_numbers(rt: &impl Abort, tree: &mut Tree) -> Result<(), Fail>
    requires { is_joined tree.old.clients 1 ≡ false }
{
    begin(rt, tree, "add a Label | done\nadd b Label | done")?;
    let stays = tree.find(1, &letter(b'b')?);
    play(rt, tree, "remove a | done\nadd c Label | done")?;
    assert_eq!(rt; tree.find(1, &letter(b'b')?), stays);
    assert_ne!(rt; tree.find(1, &letter(b'c')?), stays);
    Ok(())
}

#[test]
fn numbers_stay_while_others_come_and_go(rt: HostRuntime) -> Result<(), Fail> {
    keeps_numbers(&rt, &mut Tree::new(rt.alloc()))
}

/// Client 1 leaves with both its widgets.
fn leaves(rt: &impl Abort, tree: &mut Tree) -> Result<(), Fail>
    requires { is_joined tree.old.clients 1 ≡ false }
{
    begin(
        rt,
        tree,
        "add a Grid | done\nadd b Label | done\nhang a b 2 3 | done",
    )?;
    tree.drop_client(1);
    assert_eq!(rt; tree.find(1, &letter(b'b')?), None);
    assert_eq!(rt; tree.count(1), 0);
    Ok(())
}

#[test]
fn a_client_leaves_with_its_widgets(rt: HostRuntime) -> Result<(), Fail> {
    leaves(&rt, &mut Tree::new(rt.alloc()))
}

/// Adds that many Labels of client 1.
fn labels(tree: &mut Tree, count: u8) -> Result<(), Fail>
    requires { is_joined tree.old.clients 1 ≡ true }
    ensures { is_joined tree.new.clients 1 ≡ true }
{
    for i in 0..count {
        let name = name_from(&[b'l', b'a' + i / 16, b'a' + i % 16]).ok_or("a name")?;
        match tree.add(1, name, Kind::Label) {
            Ok(_) => {}
            Err(_) => return Err("there is no room".into()),
        }
    }
    Ok(())
}

/// Client 1 has 128 widgets and no more.
fn fills(rt: &impl Abort, tree: &mut Tree) -> Result<(), Fail>
    requires { is_joined tree.old.clients 1 ≡ false }
{
    join(tree)?;
    labels(tree, 128)?;
    play(rt, tree, "has count 1 128 | yes\nadd more Label | full 128")
}

#[test]
fn a_client_has_128_widgets(rt: HostRuntime) -> Result<(), Fail> {
    fills(&rt, &mut Tree::new(rt.alloc()))
}

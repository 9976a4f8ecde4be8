//! A copy of a tree has the same widgets under the same numbers, and goes on as the tree does.
ghost use Rattle.std.specs.Prelude.{◌≡◌, true, false};
ghost use Rattle.widget_model.specs.Clients.{is_joined};

use crate::films::{admitted, screen};
use crate::playing::{begin, play};
use kind_core::{Kind, Name, name_from};
use std::alloc::Global;
use std::process::Abort;
use std::test::Fail;
use tree_core::{AddRefusal, Id, Tree};

/// A widget of each kind, of which one goes again.
const BEFORE: &str = "
add k1 Window | done
add k2 Grid | done
add k3 Frame | done
add k4 Button | done
add k5 Label | done
add k6 Entry | done
add k7 Scale | done
add k8 Scrollbar | done
add k9 Variable | done
add k10 VScreen | done
remove k3 | done
width k1 40 | done
hang k2 k5 2 3 | done
column k2 2 30 4 | done
row k2 5 6 7 | done
link k7 k9 | done
bind k4 moved | done
place k5 3 -4 50 60 | done
";

const AFTER: &str = "
has count 1 9 | yes
has found 1 k3 | no
has kind k1 Window | yes
has wide k1 40 | yes
has child k2 2 3 k5 | yes
has parent k5 k2 | yes
has rules k2 2 30 4 0 0 | yes
has rules k2 5 0 0 6 7 | yes
has linked k7 k9 | yes
has bound k4 moved | yes
has placed k5 3 -4 50 60 | yes
has unplaced k4 | yes
remove k10 | in use
remove k9 | in use
add k4 Label | name taken
hang k2 k6 2 3 | cell taken
hang k2 k6 1 1 | done
lift k5 | done
unplace k5 | done
";

/// The widget of client 1 with that name, if there is one.
fn find(tree: &Tree, name: &str) -> Result<Option<Id>, Fail> {
    match name_from(name.as_bytes()) {
        Some(name) => Ok(tree.find(1, &name)),
        None => Err("a word is no name".into()),
    }
}

/// Each name of the table has one number in both, or none in either.
fn have_same_numbers(rt: &impl Abort, tree: &Tree, copy: &Tree) -> Result<(), Fail> {
    for name in "k1 k2 k3 k4 k5 k6 k7 k8 k9 k10".split_whitespace() {
        assert_eq!(rt; find(copy, name)?, find(tree, name)?, "at {name}");
    }
    Ok(())
}

/// The film of the VScreen is the one that was put in.
fn has_film(rt: &impl Abort, tree: &Tree) -> Result<(), Fail> {
    let id = screen(tree, b"k10")?;
    let film = tree.film(id).ok_or("a film")?;
    assert_eq!(rt; (film.width(), film.height(), film.period()), (2, 1, 3));
    assert_eq!(rt; film.newest(), [7, 9].as_slice());
    Ok(())
}

/// The number that a new widget of client 1 gets.
fn next(tree: &mut Tree, name: Name) -> Result<Id, Fail>
    requires { is_joined tree.old.clients 1 ≡ true }
{
    match tree.add(1, name, Kind::Label) {
        Ok(id) => Ok(id),
        Err(AddRefusal::NameTaken) => Err("the name is taken".into()),
        Err(_) => Err("there is no room".into()),
    }
}

/// Both have the same numbers and the film, both are played on, and then both give the same new number.
fn goes_on(rt: &impl Abort, alloc: Global, tree: &mut Tree) -> Result<(), Fail>
    requires { is_joined tree.old.clients 1 ≡ false }
{
    begin(rt, tree, BEFORE)?;
    let id = screen(tree, b"k10")?;
    tree.set_film(id, admitted(alloc)?);
    let mut copy = match tree.copy() {
        Ok(copy) => copy,
        Err(_) => return Err("there is no memory".into()),
    };
    have_same_numbers(rt, tree, &copy)?;
    has_film(rt, tree)?;
    has_film(rt, &copy)?;
    play(rt, tree, AFTER)?;
    play(rt, &mut copy, AFTER)?;
    have_same_numbers(rt, tree, &copy)?;
    let name = name_from(b"k11").ok_or("a name")?;
    assert_eq!(rt; next(&mut copy, name)?, next(tree, name)?);
    Ok(())
}

#[test]
fn a_copy_has_the_same_numbers(rt: HostRuntime) -> Result<(), Fail> {
    goes_on(&rt, rt.alloc(), &mut Tree::new(rt.alloc()))
}

//! The film of a VScreen: none at first, put in, taken out, changed and put back. An admitted VScreen stays.
ghost use Rattle.std.specs.Prelude.{◌≡◌, Some, true, false, IfOk};
ghost use Rattle.kind_core.specs.declared.kinds.Kind.TheVariants.{VScreen};
ghost use Rattle.widget_model.specs.Widgets.{row_kind};
ghost use Rattle.widget_model.specs.Clients.{is_joined};

use crate::playing::{begin, play};
use kind_core::{Kind, name_from};
use std::alloc::Global;
use std::process::Abort;
use std::test::Fail;
use tree_core::{Id, Tree};
use vscreen_core::Film;

/// The VScreen of client 1 with that name.
pub fn screen(tree: &Tree, named: &[u8]) -> Result<Id, Fail>
    ensures { IfOk result (λ id. row_kind tree.now.entries id.key ≡ Some VScreen) }
{
    let name = name_from(named).ok_or("a name")?;
    let id = match tree.find(1, &name) {
        Some(id) => id,
        None => return Err("there is no such widget".into()),
    };
    match tree.kind(id) {
        Kind::VScreen => Ok(id),
        _ => Err("it is no VScreen".into()),
    }
}

/// A film of 2 by 1 pixels with the frame 7, 9, admitted with a period of 3 ticks.
pub fn admitted(alloc: Global) -> Result<Film, Fail> {
    let mut film = match Film::new(alloc, 2, 1) {
        Ok(film) => film,
        Err(_) => return Err("there is no memory".into()),
    };
    match film.commit(&[7, 9]) {
        Ok(()) => {}
        Err(_) => return Err("the frame has another size".into()),
    }
    film.begin(3);
    Ok(film)
}

/// The film is lent as it was put in, and keeps the widget; settled and put back, it shows its frame and lets go.
fn keeps_a_screen(rt: &impl Abort, alloc: Global, tree: &mut Tree) -> Result<(), Fail>
    requires { is_joined tree.old.clients 1 ≡ false }
{
    begin(rt, tree, "add v VScreen | done")?;
    let id = screen(tree, b"v")?;
    assert!(rt; tree.film(id).is_none());
    let film = admitted(alloc)?;
    tree.set_film(id, film);
    play(rt, tree, "remove v | in use")?;
    let id = screen(tree, b"v")?;
    let mut film = tree.take_film(id).ok_or("a film")?;
    assert!(rt; tree.film(id).is_none());
    assert_eq!(rt; film.period(), 3);
    film.settle();
    let id = screen(tree, b"v")?;
    tree.set_film(id, film);
    let lent = tree.film(id).ok_or("a film")?;
    assert_eq!(rt; lent.period(), 0);
    assert_eq!(rt; lent.width(), 2);
    play(rt, tree, "remove v | done\nadd v VScreen | done")?;
    let id = screen(tree, b"v")?;
    assert!(rt; tree.film(id).is_none());
    Ok(())
}

#[test]
fn an_admitted_screen_stays(rt: HostRuntime) -> Result<(), Fail> {
    keeps_a_screen(&rt, rt.alloc(), &mut Tree::new(rt.alloc()))
}

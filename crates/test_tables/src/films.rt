//! Rows that put a film into a VScreen.
ghost use Rattle.std.specs.Prelude.{◌≡◌, true};
ghost use Rattle.widget_model.specs.Clients.{is_joined};

use crate::widgets::widget;
use crate::words::{number, word};
use kind_core::Kind;
use std::alloc::Global;
use std::str::SplitWhitespace;
use std::test::Fail;
use tree_core::Tree;
use vscreen_core::Film;

/// A film of that size, which shows one frame of the byte alone.
fn plain_film(alloc: Global, width: u32, height: u32, byte: u8) -> Result<Film, Fail> {
    let width = width.clamp(1, 64);
    let height = height.clamp(1, 64);
    let mut film = match Film::new(alloc, width, height) {
        Ok(film) => film,
        Err(_) => return Err("there is no memory".into()),
    };
    let frame = Vec::from_elem(alloc, byte, width as usize * height as usize)?;
    match film.commit(&frame) {
        Ok(()) => {}
        Err(_) => return Err("the frame has another size".into()),
    }
    film.settle();
    Ok(film)
}

/// `film VSCREEN WIDTH HEIGHT BYTE`: a film of that size, all of it the byte.
pub fn film(alloc: Global, tree: &mut Tree, words: &mut SplitWhitespace<'_>) -> Result<(), Fail>
    requires { is_joined tree.old.clients 1 ≡ true }
    ensures { is_joined tree.new.clients 1 ≡ true }
{
    let id = widget(tree, words)?;
    let width = number(words)?;
    let height = number(words)?;
    let film = plain_film(alloc, width, height, word(words)?.parse()?)?;
    match tree.kind(id) {
        Kind::VScreen => tree.set_film(id, film),
        _ => return Err("it is no VScreen".into()),
    }
    Ok(())
}

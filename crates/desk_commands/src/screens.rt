//! The commands that give a VScreen a film, and its film a frame.

ghost use Rattle.std.specs.Prelude.{◌≡◌, ◌≤◌, length};
ghost use Rattle.widget_model.specs.Widgets.{IsLive, edited};
ghost use Rattle.widget_model.specs.Forest.{IsWidgets};
ghost use Rattle.desk_model.specs.Refusals.{is_memory};
ghost use Rattle.desk_model.specs.Screens.{step_mode, step_frame, framed, with_film_changed};
ghost use Rattle.desk_commands.specs.Effects.{Did, TellsRows};
ghost use Rattle.desk_commands.specs.Screens.{same_film, keeps_film, AnswersMode, AnswersFrame, HasFilm, HasFilmOf};

use crate::admission::is_admitted;
use crate::answer::Answer;
use crate::lookup::find_kind;
use crate::ranges::unless_within;
use cmd_words::Refusal;
use kind_core::{Kind, Name};
use std::alloc::Global;
use tree_core::{Id, Tree};
use vscreen_core::Film;

/// Whether the films are the same: of one size, at one phase of one period, with the same frames, and showing the same.
fn is_same_film(one: &Film, other: &Film) -> bool
    ensures { result ≡ same_film one.now other.now }
{
    (one.width() == other.width() && one.height() == other.height())
        && ((one.period() == other.period() && one.phase() == other.phase())
            && (one.newest() == other.newest()
                && (one.current() == other.current() && one.shown() == other.shown())))
}

/// Whether the VScreen has a film that is as that one in all.
fn has_film(tree: &Tree, id: Id, film: &Film) -> bool
    requires { IsLive tree.now id.key }
    ensures has { HasFilmOf tree.now id.key film.now result }
{
    match tree.film(id) {
        Some(own) => is_same_film(own, film),
        None => false,
    }
}

/// The VScreen that is to have a film of that size, or the first refusal but for want of memory.
fn screen_for(tree: &Tree, client: u32, name: &Name, w: i32, h: i32) -> Result<Id, Refusal>
    ensures screen { AnswersMode tree.now client name.now w h result }
    ensures valid { IsWidgets tree.now }
{
    let id = match find_kind(tree, client, name, Kind::VScreen) {
        Ok(id) => id,
        Err(refusal) => return Err(refusal),
    };
    match unless_within(1, 256, w) {
        Some(refusal) => return Err(refusal),
        None => {}
    }
    match unless_within(1, 256, h) {
        Some(refusal) => return Err(refusal),
        None => {}
    }
    if is_admitted(tree, id) {
        return Err(Refusal::Admitted);
    }
    Ok(id)
}

/// `v.mode(w, h)`
pub(crate) fn set_mode(
    alloc: Global,
    tree: &mut Tree,
    client: u32,
    name: &Name,
    w: i32,
    h: i32,
) -> Answer
    ensures did { Did (λ desk. step_mode desk client name.now w h (is_memory result.reply)) tree.old tree.new result.reply }
    ensures tells { TellsRows tree.old tree.new result.changed }
    ensures valid { IsWidgets tree.new }
{
    let id = match screen_for(tree, client, name, w, h) {
        Ok(id) => id,
        Err(refusal) => return Answer::refused(refusal),
    };
    let film = match Film::new(alloc, w.unsigned_abs(), h.unsigned_abs()) {
        Ok(film) => film,
        Err(_) => return Answer::refused(Refusal::Memory),
    };
    let same = has_film(tree, id, &film);
    tree.set_film(id, film);
    Answer::done(!same)
}

/// A VScreen that takes the frame, and whether its film changes by it.
#[derive(Clone, Copy)]
struct Framed {
    id: Id,
    changed: bool,
}

/// Whether the film has that frame already: as its newest one, and shown where it isn't admitted.
fn keeps_film(film: &Film, frame: &[u8]) -> bool
    ensures { result ≡ keeps_film film.now frame.now }
{
    film.newest() == frame && (film.period() > 0 || film.shown() == frame)
}

/// The VScreen that takes the frame, or the first refusal.
fn screen_of(tree: &Tree, client: u32, name: &Name, frame: &[u8]) -> Result<Framed, Refusal>
    requires { length frame.now ≤ 65536 }
    ensures screen { AnswersFrame tree.now client name.now frame.now result }
    ensures valid { IsWidgets tree.now }
{
    let id = match find_kind(tree, client, name, Kind::VScreen) {
        Ok(id) => id,
        Err(refusal) => return Err(refusal),
    };
    let film = match tree.film(id) {
        Some(film) => film,
        None => return Err(Refusal::NoMode),
    };
    let want = film.width() * film.height();
    let got = frame.len() as u32;
    if got != want {
        return Err(Refusal::FrameSize { want, got });
    }
    let changed = !keeps_film(film, frame);
    Ok(Framed { id, changed })
}

/// Gives the film the frame; it is shown at once where the film isn't admitted.
fn commit(film: &mut Film, frame: &[u8])
    requires { length frame.now ≤ 65536 }
    ensures { film.new ≡ framed frame.now film.old }
{
    let _ = film.commit(frame);
    if film.period() == 0 {
        film.settle();
    }
}

/// Gives the film of the VScreen the frame.
fn commit_frame(tree: &mut Tree, id: Id, frame: &[u8])
    requires valid { IsWidgets tree.old }
    requires film { HasFilm tree.old id.key }
    requires few { length frame.now ≤ 65536 }
    ensures film { tree.new ≡ edited id.key (with_film_changed (framed frame.now)) tree.old }
    ensures valid { IsWidgets tree.new }
{
    match tree.take_film(id) {
        Some(mut film) => {
            commit(&mut film, frame);
            tree.set_film(id, film);
        }
        None => unreachable!(),
    }
}

/// `v.frame(n)` with the bytes of a frame
pub(crate) fn take_frame(tree: &mut Tree, client: u32, name: &Name, frame: &[u8]) -> Answer
    requires { length frame.now ≤ 65536 }
    ensures did { Did (λ desk. step_frame desk client name.now frame.now) tree.old tree.new result.reply }
    ensures tells { TellsRows tree.old tree.new result.changed }
    ensures valid { IsWidgets tree.new }
{
    let framed = match screen_of(tree, client, name, frame) {
        Ok(framed) => framed,
        Err(refusal) => return Answer::refused(refusal),
    };
    commit_frame(tree, framed.id, frame);
    Answer::done(framed.changed)
}

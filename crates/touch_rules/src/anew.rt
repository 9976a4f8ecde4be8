//! The VScreen that a command shows anew.
ghost use Rattle.std.specs.Prelude.{◌≡◌, ℕ, List, Some, None, IfSome, nat_eq};
ghost use Rattle.std.specs.List.{list_all};
ghost use Rattle.std.specs.Option.{option_copied, option_map};
ghost use Rattle.touch_rules.specs.Films.{blank_differs, newest_differs, frame_differs, screen_named, film_differs};
ghost use Rattle.touch_rules.specs.Telling.{number_anew, where_shown};
ghost use Rattle.widget_model.specs.Widgets.{IsLive};

use cmd_words::Command;
use kind_core::Name;
use look_data::is_shown;
use scene_core::View;
use tree_core::{Id, Tree};
use vscreen_core::Film;

/// Whether each byte is 0.
fn is_blank(bytes: &[u8]) -> bool
    ensures { result ≡ list_all (λ byte. nat_eq byte 0) bytes.now }
{
    bytes.iter().all(|byte| *byte == 0)
}

/// Whether a blank film of that size looks different from this one.
fn is_unlike_blank(film: &Film, w: u32, h: u32) -> bool
    ensures { result ≡ blank_differs w h (Some film.now) }
{
    !(film.width() == w && (film.height() == h && is_blank(film.shown())))
}

/// Whether the newest frame differs from what is shown.
fn is_unlike_newest(film: &Film) -> bool
    ensures { result ≡ newest_differs film.now }
{
    film.shown() != film.newest()
}

/// Whether the film isn't admitted, and a frame of its size differs from what is shown.
fn is_unlike_frame(film: &Film, frame: &[u8]) -> bool
    ensures { result ≡ frame_differs frame.now film.now }
{
    film.period() == 0 && (frame.len() == film.shown().len() && film.shown() != frame)
}

/// The name of the VScreen that the command names, where it may show one anew.
fn screen_named(command: &Command) -> Option<&Name>
    ensures { option_copied result ≡ screen_named command.now }
{
    match command {
        Command::Mode { name, w: _, h: _ } => Some(name),
        Command::Leave { name } => Some(name),
        Command::SendFrame { name, size: _ } => Some(name),
        _ => None,
    }
}

/// Whether this film looks different after the command, where it is done.
fn film_differs(command: &Command, payload: &[u8], film: &Film) -> bool
    ensures { result ≡ film_differs command.now payload.now (Some film.now) }
{
    match command {
        Command::Mode { name: _, w, h } => is_unlike_blank(
            film,
            w.unsigned_abs(),
            h.unsigned_abs(),
        ),
        Command::Leave { name: _ } => is_unlike_newest(film),
        Command::SendFrame { name: _, size: _ } => is_unlike_frame(film, payload),
        _ => false,
    }
}

/// Whether a VScreen without a film has one after the command, where it is done.
fn gives_film(command: &Command) -> bool
    ensures { (payload : List ℕ) → result ≡ film_differs command.now payload None }
{
    match command {
        Command::Mode {
            name: _,
            w: _,
            h: _,
        } => true,
        _ => false,
    }
}

/// Whether the VScreen with this film, or with none, looks different after the command, where it is done.
fn differs(command: &Command, payload: &[u8], film: Option<&Film>) -> bool
    ensures { result ≡ film_differs command.now payload.now (option_copied film.entry) }
{
    match film {
        Some(film) => film_differs(command, payload, film),
        None => gives_film(command),
    }
}

/// The VScreen that the command shows anew where it is done.
fn number_anew(tree: &Tree, client: u32, command: &Command, payload: &[u8]) -> Option<Id>
    ensures anew { option_map (λ id. id.key) result ≡ number_anew tree.now client command.now payload.now }
    ensures live { IfSome result (λ id. IsLive tree.now id.key) }
{
    let name = match screen_named(command) {
        Some(name) => name,
        None => return None,
    };
    let id = match tree.find(client, name) {
        Some(id) => id,
        None => return None,
    };
    if differs(command, payload, tree.film(id)) {
        return Some(id);
    }
    None
}

/// The VScreen that the client's command shows anew, asked before it; None where it shows none anew, or where that one
/// isn't shown. It costs two look-ups in hash maps, and at most a comparison of the film's bytes. See docs/MACHINE.md,
/// "The reach of a change".
pub fn shown_anew(view: &View<'_>, client: u32, command: &Command, payload: &[u8]) -> Option<Id>
    ensures { option_map (λ id. id.key) result ≡ where_shown view.now.tree.now view.now.stack.now (number_anew view.now.tree.now client command.now payload.now) }
{
    let id = match number_anew(view.tree, client, command, payload) {
        Some(id) => id,
        None => return None,
    };
    if is_shown(view, id) {
        return Some(id);
    }
    None
}

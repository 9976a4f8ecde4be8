//! The commands that admit a VScreen with a period, and end its admission.

ghost use Rattle.std.specs.Prelude.{◌≡◌, ◌≤◌, Some, true, false, MatchOption};
ghost use Rattle.std.specs.List.{list_all, filter};
ghost use Rattle.std.specs.Option.{option_map};
ghost use Rattle.admit_core.specs.Roster.{IsRoster, has_key};
ghost use Rattle.vscreen_core.specs.Changes.{begun, settled};
ghost use Rattle.widget_model.specs.Trees.{is_admitted};
ghost use Rattle.widget_model.specs.Widgets.{IsLive, row_at, nodes, edited};
ghost use Rattle.widget_model.specs.Forest.{IsWidgets};
ghost use Rattle.desk_model.specs.Screens.{step_admit, step_leave, with_film_changed};
ghost use Rattle.desk_commands.specs.Parts.{ListsAdmitted, AreListed, is_live_entry, is_others, is_others_entry};
ghost use Rattle.desk_commands.specs.Effects.{DidListed, TellsRows};
ghost use Rattle.desk_commands.specs.Screens.{HasFilm, AnswersWanted, begins};

use crate::answer::Answer;
use crate::lookup::find_kind;
use crate::ranges::unless_within;
use admit_core::Roster;
use cmd_words::Refusal;
use kind_core::{Kind, Name};
use tree_core::{Id, Tree};
use vscreen_core::{Film, share};

/// A VScreen that may be admitted where its share fits: its number, the share, and whether its film changes then.
#[derive(Clone, Copy)]
struct Wanted {
    id: Id,
    share: u32,
    changed: bool,
}

/// Whether the film has another period, or stands at another phase than the first.
fn begins(film: &Film, period: u32) -> bool
    ensures { result ≡ begins film.now period }
{
    film.period() != period || film.phase() != 0
}

/// The VScreen that is to be admitted, or the first refusal but for its share.
fn screen_wanted(tree: &Tree, client: u32, name: &Name, period: i32) -> Result<Wanted, Refusal>
    ensures wanted { AnswersWanted tree.now client name.now period result }
    ensures valid { IsWidgets tree.now }
{
    let id = match find_kind(tree, client, name, Kind::VScreen) {
        Ok(id) => id,
        Err(refusal) => return Err(refusal),
    };
    match unless_within(1, 64, period) {
        Some(refusal) => return Err(refusal),
        None => {}
    }
    match tree.film(id) {
        Some(film) => Ok(Wanted {
            id,
            share: share(film.width(), film.height(), period.unsigned_abs()),
            changed: begins(film, period.unsigned_abs()),
        }),
        None => Err(Refusal::NoMode),
    }
}

/// Gives the film of the VScreen that period, from its first phase on.
fn begin_film(tree: &mut Tree, id: Id, period: u32)
    requires valid { IsWidgets tree.old }
    requires film { HasFilm tree.old id.key }
    requires some { 1 ≤ period }
    requires within { period ≤ 64 }
    ensures film { tree.new ≡ edited id.key (with_film_changed (λ film. begun film period)) tree.old }
    ensures valid { IsWidgets tree.new }
{
    match tree.take_film(id) {
        Some(mut film) => {
            film.begin(period);
            tree.set_film(id, film);
        }
        None => unreachable!(),
    }
}

/// `v.admit(p)`
pub(crate) fn admit(
    tree: &mut Tree,
    roster: &mut Roster,
    client: u32,
    name: &Name,
    period: i32,
) -> Answer
    requires { ListsAdmitted tree.old.entries roster.old }
    ensures did { DidListed (λ desk. step_admit desk client name.now period) tree.old tree.new roster.old roster.new result.reply }
    ensures tells { TellsRows tree.old tree.new result.changed }
    ensures valid { IsWidgets tree.new }
{
    let wanted = match screen_wanted(tree, client, name, period) {
        Ok(wanted) => wanted,
        Err(refusal) => return Answer::refused(refusal),
    };
    match roster.admit(wanted.id.key, wanted.share) {
        Ok(()) => {}
        Err(over) => {
            return Answer::refused(Refusal::Budget {
                need: over.need,
                left: over.left,
            });
        }
    }
    begin_film(tree, wanted.id, period.unsigned_abs());
    Answer::done(wanted.changed)
}

/// Whether the widget is an admitted VScreen: whether its film has a period.
pub(crate) fn is_admitted(tree: &Tree, id: Id) -> bool
    requires { IsLive tree.now id.key }
    ensures admitted { option_map is_admitted (row_at tree.now.entries id.key) ≡ Some result }
{
    match tree.film(id) {
        Some(film) => film.period() > 0,
        None => false,
    }
}

/// Ends the admission of the VScreen's film: its newest frame is shown.
fn settle_film(tree: &mut Tree, id: Id)
    requires valid { IsWidgets tree.old }
    requires film { HasFilm tree.old id.key }
    ensures film { tree.new ≡ edited id.key (with_film_changed settled) tree.old }
    ensures valid { IsWidgets tree.new }
{
    match tree.take_film(id) {
        Some(mut film) => {
            film.settle();
            tree.set_film(id, film);
        }
        None => unreachable!(),
    }
}

/// `v.leave()`
pub(crate) fn leave(tree: &mut Tree, roster: &mut Roster, client: u32, name: &Name) -> Answer
    requires { ListsAdmitted tree.old.entries roster.old }
    ensures did { DidListed (λ desk. step_leave desk client name.now) tree.old tree.new roster.old roster.new result.reply }
    ensures tells { TellsRows tree.old tree.new result.changed }
    ensures valid { IsWidgets tree.new }
{
    let id = match find_kind(tree, client, name, Kind::VScreen) {
        Ok(id) => id,
        Err(refusal) => return Answer::refused(refusal),
    };
    if !is_admitted(tree, id) {
        return Answer::refused(Refusal::NotAdmitted);
    }
    settle_film(tree, id);
    roster.leave(id.key);
    Answer::done(true)
}

/// The number of an admitted VScreen of the client.
fn admitted_of(tree: &Tree, roster: &Roster, client: u32) -> Option<u32>
    requires { list_all (is_live_entry tree.now.entries) roster.now.entries ≡ true }
    ensures { MatchOption result (list_all (is_others_entry (nodes tree.now.entries) client) roster.now.entries ≡ true)
        (λ key. (has_key key roster.now.entries ≡ true) × (is_others (nodes tree.now.entries) client key ≡ false)) }
{
    for i in 0..roster.len() {
        match roster.at(i) {
            Some(entry) => {
                if tree.owner(Id { key: entry.0 }) == client {
                    return Some(entry.0);
                }
            }
            None => {}
        }
    }
    None
}

/// Ends the admissions of the client's VScreens, which then leave with it. The others keep their order. See
/// docs/MACHINE.md, "Admission".
pub fn dismiss(tree: &Tree, roster: &mut Roster, client: u32)
    requires { AreListed tree.now.entries roster.old }
    ensures dismissed { roster.new.entries ≡ filter (is_others_entry (nodes tree.now.entries) client) roster.old.entries }
    ensures limit { roster.new.limit ≡ roster.old.limit }
    ensures valid { IsRoster roster.new }
{
    while let Some(key) = admitted_of(tree, roster, client) {
        roster.leave(key);
    }
}

//! The beat of the desk's parts: each admitted film draws its band, and goes on to its next phase.

ghost use Rattle.std.specs.Prelude.{◌≡◌, ℕ, List, Some, All, map};
ghost use Rattle.std.specs.Option.{option_map};
ghost use Rattle.vscreen_core.specs.Changes.{beaten, band_now};
ghost use Rattle.widget_model.specs.Widgets.{IsLive, row_at, nodes, edited};
ghost use Rattle.widget_model.specs.Forest.{IsWidgets};
ghost use Rattle.desk_model.specs.Screens.{with_film_changed};
ghost use Rattle.desk_model.specs.Beat.{bands_next};
ghost use Rattle.desk_model.specs.Beat as beats;
ghost use Rattle.desk_layout.specs.Numbers.{KeepsNumbers};
ghost use Rattle.desk_commands.specs.Parts.{Stage, ListsAdmitted};
ghost use Rattle.desk_commands.specs.Beating.{listed_desk, ListsEach, HasPeriod, bands_named, bands_keyed};

use admit_core::Roster;
use arrayvec::ArrayVec;
use tree_core::{Id, Tree};
use vscreen_core::Band;

/// Beats the film of the admitted VScreen, and answers the band that it drew.
fn beat_film(tree: &mut Tree, id: Id) -> Band
    requires valid { IsWidgets tree.old }
    requires film { HasPeriod tree.old id.key }
    ensures film { tree.new ≡ edited id.key (with_film_changed beaten) tree.old }
    ensures band { option_map (λ row. option_map band_now row.film) (row_at tree.old.entries id.key) ≡ Some (Some result) }
    ensures valid { IsWidgets tree.new }
{
    match tree.take_film(id) {
        Some(mut film) => {
            let band = film.beat();
            tree.set_film(id, film);
            band
        }
        None => unreachable!(),
    }
}

/// Beats the film of each admitted VScreen once, in the order of admission, and answers the band that each drew, in
/// pixels of its film, with the VScreen's number. Nothing but the films changes: numbers, names, clients and kept
/// places are as they were. A call costs what the films' beats cost, and two look-ups of each. See docs/MACHINE.md,
/// "Films, bands and shares".
pub fn beat(tree: &mut Tree, roster: &Roster) -> ArrayVec<(Id, Band), 128>
    requires valid { IsWidgets tree.old }
    requires listed { ListsAdmitted tree.old.entries roster.now }
    requires each { ListsEach tree.old roster.now }
    ensures beat { (stage : Stage) (keys : List ℕ) → listed_desk stage tree.new roster.now keys ≡ beats.beat (listed_desk stage tree.old roster.now keys) }
    ensures bands { (stage : Stage) (keys : List ℕ) → bands_named tree.new.entries result.items ≡ bands_keyed (bands_next (listed_desk stage tree.old roster.now keys)) }
    ensures live { All (λ entry. IsLive tree.new entry.0.key) result.items }
    ensures listed { ListsAdmitted tree.new.entries roster.now }
    ensures nodes { nodes tree.new.entries ≡ nodes tree.old.entries }
    ensures numbers { map (λ entry. entry.0) tree.new.entries ≡ map (λ entry. entry.0) tree.old.entries }
    ensures numbered { KeepsNumbers tree.old.entries tree.new.entries }
    ensures clients { tree.new.clients ≡ tree.old.clients }
    ensures places { tree.new.places ≡ tree.old.places }
    ensures valid { IsWidgets tree.new }
{
    let mut bands = ArrayVec::new();
    for i in 0..roster.len() {
        match roster.at(i) {
            Some(entry) => {
                let id = Id { key: entry.0 };
                let band = beat_film(tree, id);
                bands.push((id, band));
            }
            None => unreachable!(),
        }
    }
    bands
}

//! The looks of watched widgets, kept and compared one by one.
ghost use Rattle.std.specs.Prelude.{◌≡◌, ◌≤◌, ◌<◌, ◌+◌, ◌++◌, ◌∷◌, ◌||◌, [], ℕ, Some, IfSome, map, nat_eq, false, length, if◌then◌else◌};
ghost use Rattle.std.specs.Bool.{OnTrue};
ghost use Rattle.std.specs.List.{list_any};
ghost use Rattle.std.specs.Option.{option_map, option_map_or};
ghost use Rattle.look_data.specs.Data.{seen_in};
ghost use Rattle.look_data.specs.Kept.{kept_in, differ};
ghost use Rattle.look_data.specs.Looks.{AreLooks, look_at, seen_one};
ghost use Rattle.look_data.specs.Watched.{has_changed, is_linked_to};
ghost use Rattle.scene_core.specs.View.{scene_of};
ghost use Rattle.widget_model.specs.Forest.{IsWidgets};
ghost use Rattle.widget_model.specs.Kinds.{is_variable_kind};
ghost use Rattle.widget_model.specs.Named.{is_kind_of};
ghost use Rattle.widget_model.specs.Nodes.{first_number};
ghost use Rattle.widget_model.specs.Widgets.{IsLive, row_at};

use crate::data::LookData;
use crate::keeping::kept_look;
use arrayvec::ArrayVec;
use kind_core::Kind;
use scene_core::View;
use tree_core::{Id, Tree};

/// Adds the widget's look, where it is shown.
fn put_look<const ROOM: usize>(view: &View<'_>, id: Id, looks: &mut ArrayVec<(u32, LookData), ROOM>)
    requires widgets { IsWidgets view.now.tree.now }
    requires room { length looks.old.items < ROOM }
    ensures look { map seen_one looks.new.items ≡ map seen_one looks.old.items ++ look_at id.key (kept_in view.now id.key) }
    ensures few { length looks.new.items ≤ length looks.old.items + 1 }
{
    match kept_look(view, id) {
        Some(look) => looks.push((id.key, look)),
        None => {}
    }
}

/// The looks of these widgets, as far as they are shown.
pub(crate) fn named_looks(view: &View<'_>, named: &[Id]) -> ArrayVec<(u32, LookData), 8>
    requires widgets { IsWidgets view.now.tree.now }
    requires few { length named.now ≤ 8 }
    ensures { AreLooks (λ id. list_any (nat_eq id) (map (λ one. one.key) named.now)) (kept_in view.now) (map seen_one result.items) }
{
    let mut looks = ArrayVec::new();
    for id in named {
        put_look(view, *id, &mut looks);
    }
    looks
}

/// Whether the widget with that number is linked to the Variable.
fn is_linked(tree: &Tree, variable: Id, id: Id) -> bool
    ensures { result ≡ is_linked_to tree.now variable.key id.key }
{
    if !tree.is_live(id) {
        return false;
    }
    match tree.link(id) {
        Some(other) => variable.key == other.key,
        None => false,
    }
}

/// Adds the widget's look, where it is linked to the Variable and shown.
fn put_linked(view: &View<'_>, variable: Id, id: Id, looks: &mut ArrayVec<(u32, LookData), 128>)
    requires widgets { IsWidgets view.now.tree.now }
    requires room { length looks.old.items < 128 }
    ensures look { map seen_one looks.new.items ≡ map seen_one looks.old.items ++ (if is_linked_to view.now.tree.now variable.key id.key then look_at id.key (kept_in view.now id.key) else []) }
    ensures few { length looks.new.items ≤ length looks.old.items + 1 }
{
    if is_linked(view.tree, variable, id) {
        put_look(view, id, looks);
    }
}

/// The first number of the client.
fn first_number(client: u32) -> u32
    requires low { 1 ≤ client }
    requires high { client ≤ 16 }
    ensures first { result ≡ first_number client }
    ensures few { result ≤ 1920 }
{
    128 * (client - 1)
}

/// The looks of the widgets that are linked to the Variable, as far as they are shown: their numbers are its client's.
pub(crate) fn linked_looks(view: &View<'_>, variable: Id) -> ArrayVec<(u32, LookData), 128>
    requires widgets { IsWidgets view.now.tree.now }
    requires live { IsLive view.now.tree.now variable.key }
    ensures { AreLooks (is_linked_to view.now.tree.now variable.key) (kept_in view.now) (map seen_one result.items) }
{
    let first = first_number(view.tree.owner(variable));
    let mut looks = ArrayVec::new();
    for k in 0..128 {
        put_linked(view, variable, Id { key: first + k }, &mut looks);
    }
    looks
}

/// Whether the number is that of a Variable.
fn is_variable(tree: &Tree, id: Id) -> bool
    ensures kind { result ≡ is_kind_of is_variable_kind (row_at tree.now.entries id.key) }
    ensures live { OnTrue result (IsLive tree.now id.key) }
{
    if !tree.is_live(id) {
        return false;
    }
    match tree.kind(id) {
        Kind::Variable => true,
        _ => false,
    }
}

/// The Variable, and none where nothing can be linked to what the number names.
pub(crate) fn linkable(tree: &Tree, variable: Option<Id>) -> Option<Id>
    requires widgets { IsWidgets tree.now }
    ensures live { IfSome result (λ one. IsLive tree.now one.key) }
    ensures same { (id : ℕ) → option_map_or (λ one. is_linked_to tree.now one.key id) result false ≡ option_map_or (λ one. is_linked_to tree.now one id) (option_map (λ one. one.key) variable) false }
{
    match variable {
        Some(variable) => {
            if !is_variable(tree, variable) {
                return None;
            }
            Some(variable)
        }
        None => None,
    }
}

/// Adds the number where its kept look differs from what would be kept of it now.
fn tell_look(before: &LookData, view: &View<'_>, id: Id, looks: &mut ArrayVec<u32, 2048>)
    requires widgets { IsWidgets view.now.tree.now }
    requires room { length looks.old.items < 2048 }
    ensures { looks.new.items ≡ (if differ (Some (seen_in before.now)) (kept_in view.now id.key) then looks.old.items ++ id.key ∷ [] else looks.old.items) }
{
    match kept_look(view, id) {
        Some(after) => {
            if !before.is_same(&after) {
                looks.push(id.key);
            }
        }
        None => {}
    }
}

/// Adds the numbers whose kept look differs from what would be kept of them now.
pub(crate) fn tell_looks(
    before: &[(u32, LookData)],
    view: &View<'_>,
    looks: &mut ArrayVec<u32, 2048>,
)
    requires widgets { IsWidgets view.now.tree.now }
    requires room { length looks.old.items + length before.now ≤ 2048 }
    ensures told { (id : ℕ) → list_any (nat_eq id) looks.new.items ≡ (list_any (nat_eq id) looks.old.items || has_changed (map seen_one before.now) view.now.tree.now view.now.stack.now (scene_of view.now) id) }
    ensures few { length looks.new.items ≤ length looks.old.items + length before.now }
{
    for one in before {
        tell_look(&one.1, view, Id { key: one.0 }, looks);
    }
}

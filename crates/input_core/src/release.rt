//! What a release of the pointer's button does.

ghost use Rattle.std.specs.Prelude.{◌≡◌, ◌<◌, ◌++◌, [], map, IfSome, if◌then◌else◌};
ghost use Rattle.std.specs.List.{All};
ghost use Rattle.kind_core.specs.declared.kinds.EventKind.TheVariants.{Release, Click};
ghost use Rattle.desk_model.specs.InputEffects.{posted};
ghost use Rattle.std.specs.Option.{option_map};
ghost use Rattle.geom_core.specs.Rect.{IsInRange};
ghost use Rattle.widget_model.specs.Widgets.{IsLive, rows_of};
ghost use Rattle.widget_model.specs.Forest.{IsWidgets};
ghost use Rattle.desk_model.specs.InputTable.{is_hit, release_on, on_release};
ghost use Rattle.tree_core.specs.Holds.{pointer_seen};
ghost use Rattle.input_core.specs.Numbered.{numbered};
ghost use Rattle.input_core.specs.Seen.{effects_seen, hit_seen, post_seen};
ghost use Rattle.input_core.specs.Live.{AreLive, HoldsLive};

use crate::effects::{Effects, only_pointer};
use crate::hit::Hit;
use crate::pixel::{local_x, local_y};
use crate::posts::{Post, Posts};
use crate::reading::{kind, posted};
use geom_core::Rect;
use kind_core::{EventKind, Kind};
use tree_core::{Grab, Id, Pointer, Tree};

/// Whether the widget is the top one at the pointer.
fn is_hit(tree: &Tree, hit: Option<Hit>, id: Id) -> bool
    requires widgets { IsWidgets tree.now }
    requires live { IsLive tree.now id.key }
    requires hit { IfSome hit (λ hit. IsLive tree.now hit.id.key) }
    ensures { result ≡ is_hit (option_map (hit_seen tree.now.entries) hit) (numbered tree.now.entries id.key) }
{
    match hit {
        Some(hit) => id.key == hit.id.key,
        None => false,
    }
}

/// The events of a Button that is let go: `release`, and `click` where the pointer is still on it.
fn let_go(tree: &Tree, id: Id, hit: Option<Hit>, u: i32, v: i32) -> Posts
    requires widgets { IsWidgets tree.now }
    requires live { IsLive tree.now id.key }
    requires hit { IfSome hit (λ hit. IsLive tree.now hit.id.key) }
    ensures posts { map (post_seen tree.now.entries) result ≡ posted Release u v (numbered tree.now.entries id.key) ++ (if is_hit (option_map (hit_seen tree.now.entries) hit) (numbered tree.now.entries id.key) then posted Click u v (numbered tree.now.entries id.key) else []) }
    ensures live { All (λ post. IsLive tree.now post.id.key) result }
{
    let release = posted(tree, id, EventKind::Release, u, v);
    if !is_hit(tree, hit, id) {
        return Posts::of(release, None);
    }
    Posts::of(release, posted(tree, id, EventKind::Click, u, v))
}

/// The widget in that place was grabbed and is let go.
#[tactic(auto, unfolding(desk_model::specs::InputTable::release_on))]
fn release_on(tree: &Tree, id: Id, place: Rect, hit: Option<Hit>, pointer: Pointer) -> Effects
    requires widgets { IsWidgets tree.now }
    requires live { IsLive tree.now id.key }
    requires holds { HoldsLive tree.now pointer }
    requires x { pointer.x < 1024 }
    requires y { pointer.y < 1024 }
    requires place { IsInRange place }
    requires hit { IfSome hit (λ hit. IsLive tree.now hit.id.key) }
    ensures seen { effects_seen tree.now.entries result ≡ release_on (numbered tree.now.entries id.key).kind (pointer_seen tree.now.entries pointer) (option_map (hit_seen tree.now.entries) hit) place (numbered tree.now.entries id.key) }
    ensures live { AreLive tree.now result }
{
    let mut effects = only_pointer(pointer);
    let u = local_x(&pointer, place);
    let v = local_y(&pointer, place);
    match kind(tree, id) {
        Kind::Button => {
            effects.posts = let_go(tree, id, hit, u, v);
            effects
        }
        Kind::VScreen => {
            effects.posts = Posts::of(posted(tree, id, EventKind::Release, u, v), None);
            effects
        }
        _ => effects,
    }
}

/// The button goes up.
#[tactic(auto, unfolding(desk_model::specs::InputTable::on_release))]
pub(crate) fn on_release(
    tree: &Tree,
    pointer: &Pointer,
    hit: Option<Hit>,
    held: Option<Rect>,
) -> Effects
    requires widgets { IsWidgets tree.now }
    requires holds { HoldsLive tree.now pointer.now }
    requires x { pointer.now.x < 1024 }
    requires y { pointer.now.y < 1024 }
    requires hit { IfSome hit (λ hit. IsLive tree.now hit.id.key) }
    requires held { IfSome held IsInRange }
    ensures seen { effects_seen tree.now.entries result ≡ on_release (rows_of tree.now) (pointer_seen tree.now.entries pointer.now) (option_map (hit_seen tree.now.entries) hit) held }
    ensures live { AreLive tree.now result }
{
    if !pointer.down {
        return only_pointer(*pointer);
    }
    let up = Pointer {
        x: pointer.x,
        y: pointer.y,
        down: false,
        grab: Grab::Nothing,
        focus: pointer.focus,
    };
    match pointer.grab {
        Grab::Widget { id } => match held {
            Some(place) => release_on(tree, id, place, hit, up),
            None => only_pointer(up),
        },
        _ => only_pointer(up),
    }
}

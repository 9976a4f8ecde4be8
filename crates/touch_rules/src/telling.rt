//! The looks that a client's command touched, told after it.
ghost use Rattle.std.specs.Prelude.{◌≡◌, ◌≤◌, ◌&&◌, ◌||◌, ℕ, length, nat_eq};
ghost use Rattle.std.specs.List.{list_any};
ghost use Rattle.std.specs.Option.{option_map};
ghost use Rattle.look_data.specs.Kept.{is_shown_at};
ghost use Rattle.scene_core.specs.View.{scene_of};
ghost use Rattle.touch_rules.specs.Films.{unless_refused};
ghost use Rattle.touch_rules.specs.Laws.{is_number};
ghost use Rattle.touch_rules.specs.Telling.{is_told};
ghost use Rattle.widget_model.specs.Forest.{IsWidgets};

use cmd_words::Reply;
use look_data::{WatchedLooks, is_shown};
use scene_core::View;
use shot_core::Touched;
use tree_core::Id;

/// Whether the number is that of a widget that is shown.
fn is_seen(view: &View<'_>, id: Id) -> bool
    ensures { result ≡ is_shown_at view.now.tree.now view.now.stack.now id.key }
{
    if !view.tree.is_live(id) {
        return false;
    }
    is_shown(view, id)
}

/// Tells the number besides what was told before, where its widget is shown.
fn tell_film(view: &View<'_>, anew: Option<Id>, touched: &mut Touched)
    requires room { length touched.old.looks.items ≤ 136 }
    ensures { (id : ℕ) → list_any (nat_eq id) touched.new.looks.items ≡ (list_any (nat_eq id) touched.old.looks.items || (is_number (option_map (λ one. one.key) anew) id && is_shown_at view.now.tree.now view.now.stack.now id)) }
{
    match anew {
        Some(id) => {
            if is_seen(view, id) {
                touched.looks.push(id.key);
            }
        }
        None => {}
    }
}

/// The VScreen, unless the reply is a refusal.
fn unless_refused(reply: &Reply, anew: Option<Id>) -> Option<Id>
    ensures { option_map (λ id. id.key) result ≡ unless_refused reply.now (option_map (λ id. id.key) anew) }
{
    match reply {
        Reply::Refused(_) => None,
        _ => anew,
    }
}

/// Tells the looks that a command touched, in place of what was told before: those that differ from the kept ones, and that
/// of the VScreen, which `shown_anew` answered before the command, where `reply` isn't a refusal and the VScreen is shown.
/// See docs/MACHINE.md, "The reach of a change".
pub fn tell_touched(
    view: &View<'_>,
    before: &WatchedLooks,
    anew: Option<Id>,
    reply: &Reply,
    touched: &mut Touched,
)
    requires widgets { IsWidgets view.now.tree.now }
    ensures { (id : ℕ) → list_any (nat_eq id) touched.new.looks.items ≡ is_told before.now (unless_refused reply.now (option_map (λ one. one.key) anew)) view.now.tree.now view.now.stack.now (scene_of view.now) id }
{
    before.tell_changed(view, touched);
    tell_film(view, unless_refused(reply, anew), touched);
}

//! What a change of what is shown does to the dirt and to the shot: a change that moves something, or one of looks alone.
ghost use Rattle.shot_core.specs.Shot.{IsShot};
ghost use Rattle.machine_model.specs.Damage.{in_reach};
ghost use Rattle.scene_core.specs.View.{IsView, KeepsPlaces, scene_of};
ghost use Rattle.redraw_core.specs.Dirt.{IsDirt};
ghost use Rattle.damage_rules.specs.Views.{Sight, IsShotIn, scene_in};
ghost use Rattle.drawing_core.specs.Following.{MarksLooks, Precedes, sight_of};
ghost use Rattle.drawing_core.specs.Marking.{Marked};

use crate::marking::{mark, mark_touched};
use redraw_core::Queue;
use scene_core::View;
use shot_core::{Shot, Touched};
use std::mem::swap;
use view_shots::shot;

/// Follows a change to what the view shows, before which `shown` was the shot of what was shown: makes dirty what the
/// change reaches, and no other pixel, and makes `shown` the shot of the view. `touched` has the widgets that are shown
/// before and after and whose looks differ. `other` is written over. It takes no memory. See docs/MACHINE.md, "The reach
/// of a change".
pub fn follow(
    view: &View<'_>,
    touched: &Touched,
    shown: &mut Shot,
    other: &mut Shot,
    queue: &mut Queue,
)
    requires view { IsView view.now }
    requires places { KeepsPlaces view.now.tree.now view.now.stack.now }
    requires dirt { IsDirt queue.old }
    ensures reach { (before : Sight) → Precedes before view.now shown.old touched.now.looks.items
        → Marked (in_reach (scene_in before view.now.width view.now.height) (scene_of view.now)) queue.old queue.new }
    ensures shown { IsShotIn (sight_of view.now) view.now.width view.now.height shown.new }
{
    shot(view, other);
    mark(shown, other, touched, queue);
    swap(shown, other);
}

/// Follows a change to what is shown that moved, opened and closed nothing, so that `shown` is the shot of what was shown
/// before and of what is shown after it: makes dirty what the change reaches, and no other pixel. `touched` has the widgets
/// that are shown and whose looks differ. No shot is taken. It takes no memory. See docs/MACHINE.md, "The reach of a
/// change".
pub fn follow_looks(shown: &Shot, touched: &Touched, queue: &mut Queue)
    requires { IsDirt queue.old }
    ensures { MarksLooks shown.now touched.now.looks.items queue.old queue.new }
{
    mark_touched(shown, touched, queue);
}

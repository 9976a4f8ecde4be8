//! What a call on the desk does to the dirt and to the shot that is kept.
ghost use Rattle.redraw_core.specs.Dirt.{IsDirt};
ghost use Rattle.desk_core.specs.View.{DeskView};
ghost use Rattle.server_core.specs.Calls.{Calls, Follows};

use desk_core::Desk;
use drawing_core::{follow, follow_looks};
use redraw_core::Queue;
use shot_core::Shot;

/// Follows a call on the desk, before which `shown` was the shot of what it showed: makes dirty what the change reaches, and
/// `shown` the shot of what it shows now. Where the call moved nothing, all that is shown is where it was: no shot is taken,
/// and only touched widgets are reached. `other` is written over where one is taken. It takes no memory. See
/// docs/MACHINE.md, "The reach of a change".
pub fn follow_call(desk: &Desk, shown: &mut Shot, other: &mut Shot, queue: &mut Queue)
    requires { IsDirt queue.old }
    ensures { (before : DeskView) → Calls before desk.now shown.old → Follows before desk.now queue.old queue.new shown.new }
{
    let view = desk.view();
    if desk.moved() {
        follow(&view, desk.touched(), shown, other, queue);
    } else {
        follow_looks(shown, desk.touched(), queue);
    }
}

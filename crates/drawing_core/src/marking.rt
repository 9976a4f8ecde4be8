//! What a change does to the dirt.
ghost use Rattle.std.specs.List.{list_any};
ghost use Rattle.std.specs.Prelude.{◌<◌, ◌∷◌, []};
ghost use Rattle.geom_core.specs.Rect.{in_rect};
ghost use Rattle.shot_core.specs.Shot.{most_numbers};
ghost use Rattle.damage_rules.specs.Raised.{AreRaised};
ghost use Rattle.redraw_core.specs.Dirt.{IsDirt};
ghost use Rattle.drawing_core.specs.Marking.{Marked, in_number, is_given, is_given_of, is_given_touched};

use damage_rules::{Raised, reach_with};
use geom_core::Rect;
use redraw_core::Queue;
use shot_core::{Shot, Touched};

/// How many numbers widgets can have.
const NUMBERS: u32 = 2048;

/// Makes dirty each pixel of the queue's screen that the change from one shot to the other reaches, and no other:
/// those of the areas that each of the 2,048 numbers gives the reach. `touched` has the shown widgets whose looks
/// differ. A number that has a spot in neither shot gives none, so it goes over the numbers that the shots list, one list
/// after the other, and not over all. It takes no memory. See docs/MACHINE.md, "The reach of a change".
pub fn mark(before: &Shot, after: &Shot, touched: &Touched, queue: &mut Queue)
    requires { IsDirt queue.old }
    ensures { Marked (is_given before.now after.now touched.now.looks.items) queue.old queue.new }
{
    let raised = Raised::between(before, after);
    mark_numbers(before, after, touched, &raised, before.numbers(), queue);
    mark_numbers(before, after, touched, &raised, after.numbers(), queue);
}

/// Makes dirty each pixel of the queue's screen that the touched numbers give in a change that leaves the shot as it is, and
/// no other: the shown areas of the touched widgets. It takes no memory. See docs/MACHINE.md, "The reach of a change".
pub fn mark_touched(shown: &Shot, touched: &Touched, queue: &mut Queue)
    requires { IsDirt queue.old }
    ensures { Marked (is_given_touched shown.now touched.now.looks.items) queue.old queue.new }
{
    let raised = Raised::between(shown, shown);
    mark_numbers(
        shown,
        shown,
        touched,
        &raised,
        touched.looks.as_slice(),
        queue,
    );
}

/// Makes dirty what these numbers give the reach, as far as they are among the 2,048. A number that stands there twice does
/// no harm.
fn mark_numbers(
    before: &Shot,
    after: &Shot,
    touched: &Touched,
    raised: &Raised,
    numbers: &[u32],
    queue: &mut Queue,
)
    requires raised { AreRaised before.now after.now raised.now.windows.items }
    requires valid { IsDirt queue.old }
    ensures { Marked (is_given_of before.now after.now touched.now.looks.items numbers.now) queue.old queue.new }
{
    for key in numbers {
        mark_known(before, after, touched, raised, *key, queue);
    }
}

/// Makes dirty what this number, where it is one of the 2,048, gives the reach.
fn mark_known(
    before: &Shot,
    after: &Shot,
    touched: &Touched,
    raised: &Raised,
    key: u32,
    queue: &mut Queue,
)
    requires raised { AreRaised before.now after.now raised.now.windows.items }
    requires valid { IsDirt queue.old }
    ensures { Marked (is_given_of before.now after.now touched.now.looks.items (key ∷ [])) queue.old queue.new }
{
    if key < NUMBERS {
        mark_number(before, after, touched, raised, key, queue);
    }
}

/// Makes dirty what this number gives the reach.
fn mark_number(
    before: &Shot,
    after: &Shot,
    touched: &Touched,
    raised: &Raised,
    key: u32,
    queue: &mut Queue,
)
    requires key { key < most_numbers }
    requires raised { AreRaised before.now after.now raised.now.windows.items }
    requires valid { IsDirt queue.old }
    ensures { Marked (in_number before.now after.now touched.now.looks.items key) queue.old queue.new }
{
    add_all(
        reach_with(before, after, touched, raised, key).as_slice(),
        queue,
    );
}

/// Makes the pixels of all these areas dirty that are on the screen, and no other.
fn add_all(areas: &[Rect], queue: &mut Queue)
    requires { IsDirt queue.old }
    ensures { Marked (λ x y. list_any (λ area. in_rect area x y) areas.now) queue.old queue.new }
{
    for area in areas {
        queue.add(*area);
    }
}

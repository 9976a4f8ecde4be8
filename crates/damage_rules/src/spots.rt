//! Comparing spots.
ghost use Rattle.std.specs.Prelude.{◌≡◌};
ghost use Rattle.machine_model.specs.Damage.{same_place};
ghost use Rattle.damage_rules.specs.Areas.{same_number, is_placed_alike, is_kept};

use geom_core::Rect;
use shot_core::Spot;

/// Whether the two places are one.
fn same_place(a: Rect, b: Rect) -> bool
    ensures { result ≡ same_place a b }
{
    (a.x == b.x && a.y == b.y) && (a.w == b.w && a.h == b.h)
}

/// Whether the two numbers are one, or there is none in both.
fn same_number(a: Option<u32>, b: Option<u32>) -> bool
    ensures { result ≡ same_number a b }
{
    match (a, b) {
        (None, None) => true,
        (Some(a), Some(b)) => a == b,
        _ => false,
    }
}

/// Whether both are there and the spots of this window itself, in one place.
pub(crate) fn is_placed_alike(window: u32, before: Option<Spot>, after: Option<Spot>) -> bool
    ensures { result ≡ is_placed_alike window before after }
{
    match (before, after) {
        (Some(before), Some(after)) => {
            (before.window == window && after.window == window)
                && same_place(before.place, after.place)
        }
        _ => false,
    }
}

/// Whether both are there, under this window, with one parent and one place.
pub(crate) fn is_kept(window: u32, before: Option<Spot>, after: Option<Spot>) -> bool
    ensures { result ≡ is_kept window before after }
{
    match (before, after) {
        (Some(before), Some(after)) => {
            (before.window == window && after.window == window)
                && (same_number(before.parent, after.parent)
                    && same_place(before.place, after.place))
        }
        _ => false,
    }
}

//! What one row gives the reach.
ghost use Rattle.std.specs.List.{list_any};
ghost use Rattle.std.specs.Prelude.{◌≡◌, ◌<◌, IfSome, nat_eq};
ghost use Rattle.damage_rules.specs.Areas.{is_shifted, is_altered, is_named, area_of, areas_of, option_list};
ghost use Rattle.damage_rules.specs.Raised.{AreRaised};
ghost use Rattle.shot_core.specs.Shot.{most_numbers, spot_at};

use crate::raised::Raised;
use crate::spots::{is_kept, is_placed_alike};
use arrayvec::ArrayVec;
use geom_core::Rect;
use shot_core::{Shot, Spot, Touched};

/// The shown areas that the row with this number, below 2,048, gives the reach between two shots, in pixels: the one
/// that it had before and the one that it has after, where the reach names it. `touched` has the shown rows whose looks
/// differ. The reach is the union over all numbers. A call works out which windows are put higher; for all numbers one
/// after the other `reach_with` does that once. See docs/MACHINE.md, "The reach of a change".
pub fn reach(before: &Shot, after: &Shot, touched: &Touched, key: u32) -> ArrayVec<Rect, 2>
    requires { key < most_numbers }
    ensures { result.items ≡ areas_of before.now after.now touched.now.looks.items key }
{
    let raised = Raised::between(before, after);
    reach_with(before, after, touched, &raised, key)
}

/// The same, with the windows that are put higher between the two shots. Of a number that has a spot in neither shot it
/// reads the two spots and no more; of any other it compares the spots of the row and of its window, and looks the
/// number up among the touched ones.
#[tactic(auto, unfolding(crate::specs::Areas::areas_of))]
pub fn reach_with(
    before: &Shot,
    after: &Shot,
    touched: &Touched,
    raised: &Raised,
    key: u32,
) -> ArrayVec<Rect, 2>
    requires key { key < most_numbers }
    requires raised { AreRaised before.now after.now raised.now.windows.items }
    ensures { result.items ≡ areas_of before.now after.now touched.now.looks.items key }
{
    let mut areas = ArrayVec::new();
    if let Some(area) = area(before, after, touched, raised, key, before.spot(key)) {
        areas.push(area);
    }
    if let Some(area) = area(before, after, touched, raised, key, after.spot(key)) {
        areas.push(area);
    }
    areas
}

/// The shown area of the spot, where the reach names it.
fn area(
    before: &Shot,
    after: &Shot,
    touched: &Touched,
    raised: &Raised,
    key: u32,
    spot: Option<Spot>,
) -> Option<Rect>
    requires key { key < most_numbers }
    requires raised { AreRaised before.now after.now raised.now.windows.items }
    requires window { IfSome spot (λ spot. spot.window < most_numbers) }
    ensures { option_list result ≡ area_of before.now after.now touched.now.looks.items key spot }
{
    match spot {
        Some(spot) => {
            if is_named(before, after, touched, raised, spot.window, key) {
                Some(spot.shown)
            } else {
                None
            }
        }
        None => None,
    }
}

/// Whether the reach names the row of this window.
#[tactic(auto, unfolding(crate::specs::Areas::is_named))]
fn is_named(
    before: &Shot,
    after: &Shot,
    touched: &Touched,
    raised: &Raised,
    window: u32,
    key: u32,
) -> bool
    requires key { key < most_numbers }
    requires raised { AreRaised before.now after.now raised.now.windows.items }
    requires window { window < most_numbers }
    ensures { result ≡ is_named before.now after.now touched.now.looks.items window key }
{
    if is_shifted(before, after, raised, window) {
        window == key
    } else {
        is_altered(before, after, touched, window, key)
    }
}

/// Whether the window is open in one of the shots alone, or its place differs, or it is put higher.
#[tactic(auto, unfolding(crate::specs::Areas::is_shifted))]
fn is_shifted(before: &Shot, after: &Shot, raised: &Raised, window: u32) -> bool
    requires window { window < most_numbers }
    requires raised { AreRaised before.now after.now raised.now.windows.items }
    ensures { result ≡ is_shifted before.now after.now window }
{
    if !is_placed_alike(window, before.spot(window), after.spot(window)) {
        return true;
    }
    holds(&raised.windows, window)
}

/// Whether the row is under this window in one of the shots alone, or its parent, place or look differ.
#[tactic(auto, unfolding(crate::specs::Areas::is_altered))]
fn is_altered(before: &Shot, after: &Shot, touched: &Touched, window: u32, key: u32) -> bool
    requires { key < most_numbers }
    ensures { result ≡ is_altered before.now after.now touched.now.looks.items window key }
{
    if !is_kept(window, before.spot(key), after.spot(key)) {
        return true;
    }
    holds(&touched.looks, key)
}

/// Whether the number is in the list.
fn holds(numbers: &[u32], key: u32) -> bool
    ensures { result ≡ list_any (nat_eq key) numbers.now }
{
    for number in numbers {
        if key == *number {
            return true;
        }
    }
    false
}

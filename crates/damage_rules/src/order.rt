//! The order of windows before and after.
ghost use Rattle.std.specs.Bool.{OnTrue};
ghost use Rattle.std.specs.List.{list_any};
ghost use Rattle.std.specs.Prelude.{◌≡◌, ◌≤◌, ◌<◌, ◌++◌, ◌∷◌, [], ℕ, ◌&&◌, ◌||◌, nat_eq, length, if◌then◌else◌};
ghost use Rattle.machine_model.specs.Damage.{is_over};
ghost use Rattle.damage_rules.specs.Areas.{is_higher_in};
ghost use Rattle.shot_core.specs.Shot.{numbers_of, AreOnce};

use arrayvec::ArrayVec;
use geom_core::Rect;

/// Whether the upper window comes before the lower one in the order from top to bottom.
fn is_over(windows: &[(u32, Rect)], upper: u32, lower: u32) -> bool
    ensures { result ≡ is_over nat_eq (numbers_of windows.now) upper lower }
{
    let mut found = false;
    for window in windows {
        if both(found, lower == window.0) {
            return true;
        }
        found = either(found, upper == window.0);
    }
    false
}

fn both(a: bool, b: bool) -> bool
    ensures { result ≡ (a && b) }
{
    a && b
}

fn either(a: bool, b: bool) -> bool
    ensures { result ≡ (a || b) }
{
    a || b
}

/// Whether some window, open before and after, was above this one and is below it. The orders are from top to bottom.
fn is_put_higher(before: &[(u32, Rect)], after: &[(u32, Rect)], window: u32) -> bool
    requires { AreOnce (numbers_of before.now) }
    ensures { result ≡ is_higher_in (numbers_of before.now) (numbers_of after.now) window }
{
    let mut higher = false;
    for other in before {
        if other.0 == window {
            return higher;
        }
        higher = either(higher, is_over(after, window, other.0));
    }
    false
}

/// Whether the windows are the same in the same order; their places may differ.
fn is_same_order(before: &[(u32, Rect)], after: &[(u32, Rect)]) -> bool
    ensures { OnTrue result (numbers_of before.now ≡ numbers_of after.now) }
{
    if before.len() != after.len() {
        return false;
    }
    for (index, window) in before.iter().enumerate() {
        if window.0 != after[index].0 {
            return false;
        }
    }
    true
}

/// Adds the window where it is put higher.
fn push_if(windows: &mut ArrayVec<u32, 128>, higher: bool, window: u32)
    requires { length windows.old.items < 128 }
    ensures { windows.new.items ≡ windows.old.items ++ (if higher then window ∷ [] else []) }
{
    if higher {
        windows.push(window);
    }
}

/// The windows that are put higher between two orders.
pub(crate) fn put_higher(before: &[(u32, Rect)], after: &[(u32, Rect)]) -> ArrayVec<u32, 128>
    requires few { length before.now ≤ 128 }
    requires once { AreOnce (numbers_of before.now) }
    ensures { (window : ℕ) → list_any (nat_eq window) result.items ≡ is_higher_in (numbers_of before.now) (numbers_of after.now) window }
{
    let mut windows = ArrayVec::new();
    if is_same_order(before, after) {
        return windows;
    }
    for window in before {
        push_if(
            &mut windows,
            is_put_higher(before, after, window.0),
            window.0,
        );
    }
    windows
}

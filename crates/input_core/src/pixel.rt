//! The pointer's pixel in a widget's place.

ghost use Rattle.std.specs.Prelude.{◌≡◌, ◌<◌, ◌-ℤ◌, pos};
ghost use Rattle.geom_core.specs.Rect.{IsInRange};

use geom_core::Rect;
use tree_core::Pointer;

/// How many pixels the pointer is right of the place's left side; less than 0 where it is left of it.
pub(crate) fn local_x(pointer: &Pointer, place: Rect) -> i32
    requires pointer { pointer.now.x < 1024 }
    requires place { IsInRange place }
    ensures { result ≡ pos pointer.now.x -ℤ place.x }
{
    pointer.x as i32 - place.x
}

/// How many pixels the pointer is below the place's upper side; less than 0 where it is above it.
pub(crate) fn local_y(pointer: &Pointer, place: Rect) -> i32
    requires pointer { pointer.now.y < 1024 }
    requires place { IsInRange place }
    ensures { result ≡ pos pointer.now.y -ℤ place.y }
{
    pointer.y as i32 - place.y
}

//! Laws over the definitions. Each function does nothing; its contract is the law.

ghost use Rattle.look_core.specs.Laws.{SameAreEqual, EqualPixels};

/// The test of two looks tells exactly whether they are equal.
pub fn same_are_equal()
    ensures { SameAreEqual }
{}

/// Widgets of one size with the same look show equal pixels.
pub fn equal_pixels()
    ensures { EqualPixels }
{}

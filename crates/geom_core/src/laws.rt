// Laws over rectangles as sets of pixels: each function does nothing, and its contract is the law.
ghost use Rattle.geom_core.specs.Laws.{EmptyHoldsNothing, OthersHoldTheirCorner, PixelsTellTheRectangle, InsideIsEnclosed, EnclosedIsInside, AreaCountsPixels, AreasAddUp, IndexIsPixel, MarksCountPixels, RunIsPartOfRow};

/// A rectangle of area 0 has no pixel, and every other has the pixel in its corner.
pub fn empty_rectangles()
    ensures nothing { EmptyHoldsNothing }
    ensures corner { OthersHoldTheirCorner }
{}

/// A rectangle that is not empty is known by its pixels, and is inside another exactly where its
/// sides are within the other's.
pub fn pixels_and_sides()
    ensures same { PixelsTellTheRectangle }
    ensures enclosed { InsideIsEnclosed }
    ensures inside { EnclosedIsInside }
{}

/// A rectangle has as many pixels as its area says, and the areas of disjoint parts add up.
pub fn areas()
    ensures pixels { AreaCountsPixels }
    ensures parts { AreasAddUp }
{}

/// The pixels of a screen in row-major order: where each stands, how many pass a test, and which
/// indices are a run of one row.
pub fn row_major_order()
    ensures index { IndexIsPixel }
    ensures count { MarksCountPixels }
    ensures run { RunIsPartOfRow }
{}

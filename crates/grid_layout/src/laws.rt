// Laws over the shares of a grid: each function does nothing, and its contract is the law.
ghost use Rattle.grid_layout.specs.Laws.{SharesAddUp, WidthsFillTheRoom, FirstWidths, WidthsStayWithin};

/// The shares of what is left add up to it, and the widths fill the room.
pub fn sums()
    ensures shares { SharesAddUp }
    ensures widths { WidthsFillTheRoom }
    ensures first { FirstWidths }
{}

/// No column is wider than the room or than its least width.
pub fn bounds()
    ensures { WidthsStayWithin }
{}

//! Laws over the definitions: what films promise over a period, whatever frames are committed between its beats.
//! Each function does nothing; its contract is the law. The rules are in docs/MACHINE.md.

ghost use Rattle.vscreen_core.specs.Laws.{EachPixelOnce, PixelsOfOneFrame, WholeFrameShown, OnlyTheBand, BandWasDrawn, BandWithinShare, PastTheLastPixel, CommitWaits, RowsHoldPixels};

/// In the beats of a period, from phase 0 on, each pixel is in the band of exactly one.
pub fn each_pixel_once()
    ensures { EachPixelOnce }
{}

/// A pixel that was drawn in a period shows, from the beat on that drew it, the frame that was newest when the
/// period's first beat began.
pub fn pixels_of_one_frame()
    ensures { PixelsOfOneFrame }
{}

/// After a period's last beat all of that frame is shown, and it is the current one.
pub fn whole_frame_shown()
    ensures { WholeFrameShown }
{}

/// A beat shows the pixels of its band from the frame, and no other pixel changes.
pub fn only_the_band()
    ensures { OnlyTheBand }
{}

/// After a beat the band that it drew is the one that the last beat drew.
pub fn band_was_drawn()
    ensures { BandWasDrawn }
{}

/// A band has no more pixels than the film's share.
pub fn band_within_share()
    ensures { BandWithinShare }
{}

/// A band that would begin past the film's last pixel begins and ends at the number of its pixels.
pub fn past_the_last_pixel()
    ensures { PastTheLastPixel }
{}

/// A frame that is committed changes neither what is shown nor the frame of the period under way.
pub fn commit_waits()
    ensures { CommitWaits }
{}

/// Pixel `u` of row `v` is the one of the number `v * width + u`, which is below the number of pixels.
pub fn rows_hold_pixels()
    ensures { RowsHoldPixels }
{}

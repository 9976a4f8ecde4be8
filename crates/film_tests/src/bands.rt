//! Which pixels each beat draws: runs that were worked out by hand from the size of the film and the period.
use crate::filming::{plays, shares};
use std::test::Fail;

// 100 pixels: a share is 100 over the period, rounded up.
const SHARES: &str = "
1 100
3 34
5 20
7 15
33 4
34 3
50 2
51 2
64 2
";

#[test]
fn shares_of_ten_by_ten(rt: HostRuntime) -> Result<(), Fail> {
    shares(&rt, 10, 10, SHARES)
}

#[test]
fn shares_of_the_largest_film(rt: HostRuntime) -> Result<(), Fail> {
    shares(&rt, 256, 256, "1 65536\n7 9363\n64 1024")
}

// Three bands: 34, 34 and 32 pixels, so that a band ends in the middle of a row.
const THREE: &str = "
begin 3 | from phase 0
period now | 3
beats 2 | 0 34
beats 1 | 68 32
beats 1 | 0 34
";

#[test]
fn a_hundred_pixels_in_three_beats(rt: HostRuntime) -> Result<(), Fail> {
    plays(&rt, rt.alloc(), 10, 10, THREE)
}

// Bands of two pixels in 50 beats, 14 empty bands, and the next period.
const SIXTY_FOUR: &str = "
begin 64 | from phase 0
period now | 64
beats 50 | 0 2
beats 14 | 100 0
beats 1 | 0 2
";

#[test]
fn a_hundred_pixels_in_sixty_four_beats(rt: HostRuntime) -> Result<(), Fail> {
    plays(&rt, rt.alloc(), 10, 10, SIXTY_FOUR)
}

const ONE_PIXEL: &str = "
begin 64 | from phase 0
period now | 64
beats 1 | 0 1
beats 63 | 1 0
beats 1 | 0 1
";

#[test]
fn one_pixel_in_sixty_four_beats(rt: HostRuntime) -> Result<(), Fail> {
    plays(&rt, rt.alloc(), 1, 1, ONE_PIXEL)
}

// All in each beat; then six bands of 9,363 pixels and one of the 9,358 that are left.
const LARGEST: &str = "
begin 1 | from phase 0
period now | 1
beats 1 | 0 65536
beats 1 | 0 65536
begin 7 | from phase 0
period now | 7
beats 6 | 0 9363
beats 1 | 56178 9358
beats 1 | 0 9363
";

#[test]
fn the_largest_film_in_one_beat_and_in_seven(rt: HostRuntime) -> Result<(), Fail> {
    plays(&rt, rt.alloc(), 256, 256, LARGEST)
}

// Rows of 7 pixels with bands of 5, and a period that begins anew in the middle of another.
const ANEW: &str = "
begin 5 | from phase 0
period now | 5
beats 3 | 0 5
begin 4 | from phase 0
period now | 4
beats 3 | 0 6
beats 1 | 18 3
settle now | not admitted
period now | 0
begin 64 | from phase 0
period now | 64
beats 21 | 0 1
beats 43 | 21 0
";

#[test]
fn an_admission_begins_at_the_first_band(rt: HostRuntime) -> Result<(), Fail> {
    plays(&rt, rt.alloc(), 7, 3, ANEW)
}

//! Pieces painted: how much is written, and what the screen then has.
use crate::playing::plays;
use std::test::Fail;

// A piece that one Window shows is written in whole rows, once.
const ONE_WINDOW: &str = "
add w Window
set w w 20
set w h 20
open w
paint 0 0 20 20 | 400 20
pixel 0 0 | 4
pixel 5 5 | 5
pixel 5 14 | 3
pixel 19 19 | 4
pixel 20 19 | 2
paint 0 0 32 32 | 1024
paint 20 20 12 12 | 144 12
paint 5 5 0 9 | 0 0
";

#[test]
fn a_window_is_painted_in_whole_rows(rt: HostRuntime) -> Result<(), Fail> {
    plays(&rt, rt.alloc(), 32, 32, ONE_WINDOW)
}

// Only the piece is painted: the desk's colour stays beside it.
const PIECE: &str = "
add w Window
set w w 20
set w h 20
open w
paint 3 14 4 2 | 8 2
pixel 3 14 | 3
pixel 6 15 | 3
pixel 7 14 | 2
pixel 3 13 | 2
pixel 3 16 | 2
";

#[test]
fn nothing_is_painted_beside_the_piece(rt: HostRuntime) -> Result<(), Fail> {
    plays(&rt, rt.alloc(), 32, 32, PIECE)
}

// The upper Window covers columns 10 to 29 and rows 6 to 25 of the screen. Its edge shows, and the lower one beside it.
const TWO_WINDOWS: &str = "
add a Window
set a w 20
set a h 20
add b Window
set b x 10
set b y 6
set b w 20
set b h 20
open a
open b
paint 0 0 32 32 | 1024
pixel 9 16 | 3
pixel 10 16 | 4
pixel 11 17 | 5
pixel 11 18 | 3
pixel 19 5 | 4
pixel 19 6 | 4
pixel 18 5 | 5
pixel 30 6 | 2
";

#[test]
fn the_upper_window_is_seen(rt: HostRuntime) -> Result<(), Fail> {
    plays(&rt, rt.alloc(), 32, 32, TWO_WINDOWS)
}

// The Window's content, 14 by 40, is smaller than the Grid's one column, which is as wide as the Scale asks, 64. So what
// is in it is cut off on the right. The rows are as high as the Label, the Button and the Scale ask: 12, 16 and 12.
const SMALL_WINDOW: &str = "
add w Window
set w w 16
set w h 53
title w T
add g Grid
hang w g 1 1 0
add l Label
text l A
hang g l 1 1 0
add b Button
text b H
hang g b 1 2 0
add s Scale
set s value 10
hang g s 1 3 0
open w
paint 0 0 16 53 | 848
line 0 0 | 4444444444444444
line 1 0 | 4555555555555554
line 2 0 | 4556666655555554
line 3 0 | 4555565555555554
line 4 0 | 4555565555555554
line 5 0 | 4555565555555554
line 6 0 | 4555565555555554
line 7 0 | 4555565555555554
line 8 0 | 4555565555555554
line 9 0 | 4555555555555554
line 10 0 | 4555555555555554
line 11 0 | 4555555555555554
line 12 0 | 4333333333333334
line 13 0 | 4333333333333334
line 14 0 | 4333303333333334
line 15 0 | 4333030333333334
line 16 0 | 4330333033333334
line 17 0 | 4330333033333334
line 18 0 | 4330000033333334
line 19 0 | 4330333033333334
line 20 0 | 4330333033333334
line 21 0 | 4333333333333334
line 22 0 | 4333333333333334
line 23 0 | 4333333333333334
line 24 0 | 4444444444444444
line 25 0 | 4477777777777774
line 26 0 | 4477777777777774
line 27 0 | 4477777777777774
line 28 0 | 4477707770777774
line 29 0 | 4477707770777774
line 30 0 | 4477707770777774
line 31 0 | 4477700000777774
line 32 0 | 4477707770777774
line 33 0 | 4477707770777774
line 34 0 | 4477707770777774
line 35 0 | 4477777777777774
line 36 0 | 4477777777777774
line 37 0 | 4477777777777774
line 38 0 | 4477777777777774
line 39 0 | 4444444444444444
line 40 0 | 499999aaaaaaaa94
line 41 0 | 499999aaaaaaaa94
line 42 0 | 499999aaaaaaaa94
line 43 0 | 499999aaaaaaaa94
line 44 0 | 499999aaaaaaaa94
line 45 0 | 499999aaaaaaaa94
line 46 0 | 444444aaaaaaaa44
line 47 0 | 499999aaaaaaaa94
line 48 0 | 499999aaaaaaaa94
line 49 0 | 499999aaaaaaaa94
line 50 0 | 499999aaaaaaaa94
line 51 0 | 499999aaaaaaaa94
line 52 0 | 4444444444444444
";

#[test]
fn a_label_a_button_and_a_scale_are_drawn(rt: HostRuntime) -> Result<(), Fail> {
    plays(&rt, rt.alloc(), 16, 53, SMALL_WINDOW)
}

// A clock: a Label that shows `Time 30`, a Scale from 0 to 59 at 30, and a VScreen. The Label is 116 by 12 at (12, 33),
// the Scale 116 by 12 at (12, 47), and its knob begins 108 * 30 / 59 behind its left side.
const CLOCK: &str = "
add w Window
title w Clock
set w x 10
set w y 20
set w w 120
set w h 100
add g Grid
hang w g 1 1 0
add l Label
text l Time_
add t Variable
link l t
add s Scale
set s max 59
link s t
add v VScreen
film v 64 40 0
hang g l 1 1 1
hang g s 1 2 1
hang g v 1 3 1
column g 1 0 1
row g 3 0 1
open w
set t value 30
paint 10 20 120 100 | 12000
pixel 14 35 | 0
pixel 14 36 | 3
pixel 66 50 | 10
pixel 65 50 | 9
pixel 65 53 | 4
pixel 10 20 | 4
pixel 9 20 | 2
pixel 12 61 | 0
pixel 76 61 | 14
pixel 12 101 | 14
";

#[test]
fn a_clock_is_drawn(rt: HostRuntime) -> Result<(), Fail> {
    plays(&rt, rt.alloc(), 320, 240, CLOCK)
}

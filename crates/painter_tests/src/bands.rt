//! Bands of films painted: how many of their pixels the screen shows, and that those alone change.
use crate::playing::plays;
use std::test::Fail;

// The VScreen's place is 14 by 10 at (1, 12), so all pixels of its film show, at columns 1 to 10. A band may begin and
// end within a row.
const OPEN: &str = "
add w Window
set w w 16
set w h 23
add v VScreen
film v 10 10 65
hang w v 1 1 0
open w
band v 0 20 | 20
pixel 1 12 | 65
pixel 10 13 | 65
pixel 11 12 | 2
pixel 1 14 | 2
pixel 0 12 | 2
band v 34 68 | 34
pixel 4 15 | 2
pixel 5 15 | 65
pixel 8 18 | 65
pixel 9 18 | 2
band v 97 98 | 1
pixel 7 21 | 2
pixel 8 21 | 65
pixel 9 21 | 2
band v 20 20 | 0
band v 100 100 | 0
band v 100 200 | 0
band v 90 70 | 0
band v 0 200 | 100
";

#[test]
fn a_band_is_drawn_where_its_numbers_say(rt: HostRuntime) -> Result<(), Fail> {
    plays(&rt, rt.alloc(), 32, 32, OPEN)
}

// The cover takes the columns from 6 on, so 5 of each row's 10 pixels show. The bands of 34 pixels begin and end within
// the rows 3 and 6: of row 3 four pixels and then one show, of row 6 five and then none.
const COVERED: &str = "
add w Window
set w w 16
set w h 23
add v VScreen
film v 10 10 65
hang w v 1 1 0
add c Window
set c x 6
set c w 16
set c h 32
open w
open c
band v 0 20 | 10
pixel 5 12 | 65
pixel 6 12 | 2
band v 0 34 | 19
band v 34 68 | 16
band v 68 100 | 15
";

#[test]
fn a_band_is_drawn_beside_its_cover(rt: HostRuntime) -> Result<(), Fail> {
    plays(&rt, rt.alloc(), 32, 32, COVERED)
}

// The VScreen begins 4 columns left of the screen, so 6 of each row's 10 pixels are on it. Its own place is smaller than
// the film of 20 by 20: 10 columns of 14 are on the screen.
const CUT_OFF: &str = "
add w Window
set w x -5
set w w 16
set w h 23
add v VScreen
film v 10 10 65
hang w v 1 1 0
open w
band v 0 20 | 12
pixel 5 12 | 65
pixel 6 12 | 2
film v 20 20 66
band v 0 400 | 100
pixel 9 21 | 66
pixel 10 21 | 2
pixel 9 22 | 2
";

#[test]
fn a_band_is_drawn_within_the_screen_and_its_place(rt: HostRuntime) -> Result<(), Fail> {
    plays(&rt, rt.alloc(), 32, 32, CUT_OFF)
}

const NOT_SHOWN: &str = "
add w Window
set w w 16
set w h 23
add v VScreen
film v 10 10 65
hang w v 1 1 0
band v 0 100 | 0
set w x 100
open w
band v 0 100 | 0
add e VScreen
band e 0 100 | 0
add l Label
band l 0 100 | 0
pixel 1 12 | 2
";

#[test]
fn nothing_is_drawn_of_what_is_not_shown(rt: HostRuntime) -> Result<(), Fail> {
    plays(&rt, rt.alloc(), 32, 32, NOT_SHOWN)
}

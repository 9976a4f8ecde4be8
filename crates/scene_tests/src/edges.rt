//! Windows partly off a screen of 100 by 80, and what is shown beside each cut.
use crate::playing::plays;
use std::test::Fail;

// The Grid has 58 by 27 at (-19, 22). Column 1 needs 6 * 2 + 4, so A ends at x -4, off the screen, and B has the other 42
// from -3 on. The Window ends before x 40 and y 50.
const LEFT: &str = "
add w Window
set w x -20
set w y 10
set w w 60
set w h 40
add g Grid
hang w g 1 1 0
add a Label
text a ab
add b Label
hang g a 1 1 0
hang g b 2 1 0
column g 2 0 1
layout w
at g -19 22 58 27
at a -19 22 16 27
at b -3 22 42 27
top b w 0 22
bare w -1 22
bare w -3 22
bare w -4 22
top b w 38 22
top w w 39 22
bare w 40 22
top w w 0 21
top w w 0 10
bare w 0 9
top b w 0 48
top w w 0 49
bare w 0 50
";

#[test]
fn a_window_off_the_left_side(rt: HostRuntime) -> Result<(), Fail> {
    plays(&rt, rt.alloc(), LEFT)
}

// The Grid has 38 by 47 at (11, -8). Row 1 needs 12, so A ends before y 4, and B has the other 35.
const TOP: &str = "
add w Window
set w x 10
set w y -20
set w w 40
set w h 60
add g Grid
hang w g 1 1 0
add a Label
add b Label
hang g a 1 1 0
hang g b 1 2 0
column g 1 0 1
row g 2 0 1
layout w
at g 11 -8 38 47
at a 11 -8 38 12
at b 11 4 38 35
top a w 11 0
bare w 11 -1
top a w 11 3
top b w 11 4
top a w 48 0
top w w 49 0
bare w 50 0
top w w 10 0
bare w 9 0
top b w 48 38
top w w 48 39
bare w 48 40
";

#[test]
fn a_window_off_the_top(rt: HostRuntime) -> Result<(), Fail> {
    plays(&rt, rt.alloc(), TOP)
}

// The Label has 38 - 4 by 17 - 4 at (83, 24), and 17 of its columns are on the screen.
const RIGHT: &str = "
add w Window
set w x 80
set w y 10
set w w 40
set w h 30
add l Label
hang w l 1 1 2
layout w
at w 80 10 40 30
at l 83 24 34 13
top l w 83 24
top w w 82 24
top w w 83 23
top l w 99 24
bare w 100 24
bare w 116 24
top l w 99 36
top w w 99 37
top w w 99 39
bare w 99 40
bare w 79 24
";

#[test]
fn a_window_off_the_right_side(rt: HostRuntime) -> Result<(), Fail> {
    plays(&rt, rt.alloc(), RIGHT)
}

// The Frame has 38 by 47 at (11, 72), and 8 of its rows are on the screen. The Label has 38 - 6 by 47 - 6 at (14, 75).
const BOTTOM: &str = "
add w Window
set w x 10
set w y 60
set w w 40
set w h 60
add f Frame
hang w f 1 1 0
add l Label
hang f l 1 1 3
layout w
at f 11 72 38 47
at l 14 75 32 41
top l w 14 75
top f w 13 75
top f w 14 74
top w w 14 71
top l w 14 79
bare w 14 80
bare w 14 115
top w w 10 79
top f w 11 79
top l w 45 79
top f w 46 79
top f w 48 79
top w w 49 79
bare w 50 79
";

#[test]
fn a_window_off_the_bottom(rt: HostRuntime) -> Result<(), Fail> {
    plays(&rt, rt.alloc(), BOTTOM)
}

// The Label has 64 by 20 at (-9, 9), more than its Frame, which has 38 by 20 at (1, 12), and is shown in the Frame alone.
const CUT: &str = "
add w Window
set w x 0
set w y 0
set w w 40
set w h 33
add f Frame
hang w f 1 1 0
add l Label
text l ten_letter
hang f l 1 1 0
set f x 10
set f y 3
layout w
at l -9 9 64 20
top l w 1 12
top w w 0 12
top w w 1 11
top l w 38 28
top f w 38 29
top w w 39 28
bare w 40 28
top f w 1 31
top w w 1 32
bare w 1 33
";

#[test]
fn a_child_is_shown_in_its_frame_alone(rt: HostRuntime) -> Result<(), Fail> {
    plays(&rt, rt.alloc(), CUT)
}

// Each Frame has 1 less than the one before on each side: the first 56 by 45 at (2, 13), the tenth 38 by 27 at (11, 22). The
// Label, on level 12, has 36 by 25 at (12, 23). Then all moves to the left by 12, so that the Label begins at x 0.
const DEEP: &str = "
add w Window
set w x 0
set w y 0
set w w 60
set w h 60
add f1 Frame
add f2 Frame
add f3 Frame
add f4 Frame
add f5 Frame
add f6 Frame
add f7 Frame
add f8 Frame
add f9 Frame
add f10 Frame
add l Label
hang w f1 1 1 1
hang f1 f2 1 1 1
hang f2 f3 1 1 1
hang f3 f4 1 1 1
hang f4 f5 1 1 1
hang f5 f6 1 1 1
hang f6 f7 1 1 1
hang f7 f8 1 1 1
hang f8 f9 1 1 1
hang f9 f10 1 1 1
hang f10 l 1 1 1
layout w
at f1 2 13 56 45
at f10 11 22 38 27
at l 12 23 36 25
top w w 1 23
top f1 w 2 23
top f5 w 6 23
top f10 w 11 23
top l w 12 23
top l w 47 47
top f10 w 48 47
top f10 w 47 48
top f1 w 57 57
top w w 58 58
set w x -12
layout w
at f10 -1 22 38 27
at l 0 23 36 25
top l w 0 23
top l w 35 23
top f10 w 36 23
top f9 w 37 23
top f1 w 45 23
top w w 46 23
top w w 47 23
bare w 48 23
top f10 w 0 22
top f9 w 0 21
top f1 w 0 13
top w w 0 12
";

#[test]
fn what_is_shown_on_twelve_levels(rt: HostRuntime) -> Result<(), Fail> {
    plays(&rt, rt.alloc(), DEEP)
}

//! Where widgets are.
use crate::playing::plays;
use std::test::Fail;

// The Frame takes all of the Window but its edge and title: 40 - 2 by 33 - 13. The Label needs 6 * 10 + 4 by 12, begins 10
// to the left of the Frame and 3 above it, and is at least as large as the Frame.
const FRAMED: &str = "
add w Window
set w x 0
set w y 0
set w w 40
set w h 33
add f Frame
hang w f 1 1 0
add l Label
text l ten_letter
hang f l 1 1 0
set f x 10
set f y 3
none l
layout w
at w 0 0 40 33
at f 1 12 38 20
at l -9 9 64 20
";

#[test]
fn a_frame_moves_its_child(rt: HostRuntime) -> Result<(), Fail> {
    plays(&rt, rt.alloc(), FRAMED)
}

// A linked Frame's offset down is the Variable's value, brought into 0 to 4,096.
const CLAMPED: &str = "
add w Window
set w x 0
set w y 0
set w w 40
set w h 33
add f Frame
hang w f 1 1 2
add l Label
hang f l 1 1 3
add t Variable
link f t
set t value 5000
layout w
at f 3 14 34 16
at l 6 -4079 28 12
set t value -5
layout w
at l 6 17 28 12
";

#[test]
fn a_linked_frame_moves_its_child_within_limits(rt: HostRuntime) -> Result<(), Fail> {
    plays(&rt, rt.alloc(), CLAMPED)
}

// A needs 6 * 3 + 4 with 0 shown, and 6 * 4 + 4 with 10; column 2 takes the rest of 58.
const LINKED: &str = "
add w Window
set w x 0
set w y 0
set w w 60
set w h 40
add g Grid
hang w g 1 1 0
add a Label
text a ab
add t Variable
link a t
add b Label
hang g a 1 1 0
hang g b 2 1 0
column g 2 0 1
layout w
at a 1 12 22 27
at b 23 12 36 27
set t value 10
at g 1 12 58 27
layout w
at a 1 12 28 27
at b 29 12 30 27
";

#[test]
fn a_linked_number_takes_room(rt: HostRuntime) -> Result<(), Fail> {
    plays(&rt, rt.alloc(), LINKED)
}

// The clock: the rows need 14, 14 and 42 of 87, and the third takes the rest.
const CLOCK: &str = "
add w Window
set w x 10
set w y 20
set w w 120
set w h 100
add g Grid
hang w g 1 1 0
add l Label
text l Time:
add t Variable
link l t
add s Scale
link s t
add v VScreen
film v 64 40 0
hang g l 1 1 1
hang g s 1 2 1
hang g v 1 3 1
column g 1 0 1
row g 3 0 1
layout w
at g 11 32 118 87
at l 12 33 116 12
at s 12 47 116 12
at v 12 61 116 57
none t
";

#[test]
fn a_clock_has_its_places(rt: HostRuntime) -> Result<(), Fail> {
    plays(&rt, rt.alloc(), CLOCK)
}

// The outer Grid has 98 by 87. Column 1 needs the Frame's 16 and 2 on both ends, column 2 its size of 30 and gets the
// rest; the one row needs 20 and gets the rest. The inner Grid needs 10 + 4 + 2 by 12 + 2, more than the Frame's 16 - 2
// across, and less than its 83 - 2 down. Nothing of another Window changes.
const NESTED: &str = "
add w Window
set w x -20
set w y 700
set w w 100
set w h 100
add o Grid
hang w o 1 1 0
add f Frame
hang o f 1 1 2
column o 2 30 0
add i Grid
hang f i 1 1 1
set f x 4
set f y 1
column i 1 10 0
add a Label
hang i a 2 1 1
add z Window
set z x 0
set z y 0
set z w 40
set z h 33
add q Label
hang z q 1 1 0
layout w
at w -20 700 100 100
at o -19 712 98 87
at f -17 714 16 83
at i -20 714 16 81
at a -9 715 4 79
none z
none q
layout z
at q 1 12 38 20
at a -9 715 4 79
";

#[test]
fn grids_and_frames_in_one_another(rt: HostRuntime) -> Result<(), Fail> {
    plays(&rt, rt.alloc(), NESTED)
}

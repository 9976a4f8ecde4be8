//! What is shown after each beat, of frames that come before a period and in the middle of one.
use crate::filming::plays;
use std::test::Fail;

// Row 3 holds the pixels 30 to 39: the first band ends with pixel 33, the second with pixel 67.
const SPLIT_ROWS: &str = "
row 0 | ..........
row 9 | ..........
begin 3 | from phase 0
period now | 3
fill 100 A | ok
row 0 | ..........
beats 1 | 0 34
row 2 | AAAAAAAAAA
row 3 | AAAA......
row 4 | ..........
beats 1 | 34 34
row 3 | AAAAAAAAAA
row 5 | AAAAAAAAAA
row 6 | AAAAAAAA..
row 7 | ..........
beats 1 | 68 32
row 6 | AAAAAAAAAA
row 9 | AAAAAAAAAA
";

#[test]
fn bands_end_in_the_middle_of_a_row(rt: HostRuntime) -> Result<(), Fail> {
    plays(&rt, rt.alloc(), 10, 10, SPLIT_ROWS)
}

// Frames that come within a period wait for the next one, which takes the last of them.
const WAITING: &str = "
commit abcdefghijkl | ok
begin 5 | from phase 0
period now | 5
beats 1 | 0 3
row 0 | abc.
commit mnopqrstuvwx | ok
row 0 | abc.
beats 1 | 3 3
row 0 | abcd
row 1 | ef..
commit ABCDEFGHIJKL | ok
beats 2 | 6 3
row 1 | efgh
row 2 | ijkl
# an empty band shows nothing new
beats 1 | 12 0
row 0 | abcd
row 2 | ijkl
beats 1 | 0 3
row 0 | ABCd
row 1 | efgh
beats 3 | 3 3
row 1 | EFGH
row 2 | IJKL
beats 1 | 12 0
beats 1 | 0 3
row 0 | ABCD
";

#[test]
fn a_frame_waits_for_the_next_period(rt: HostRuntime) -> Result<(), Fail> {
    plays(&rt, rt.alloc(), 4, 3, WAITING)
}

// An admission that begins anew takes the newest frame at its first beat.
const ENDING: &str = "
begin 2 | from phase 0
period now | 2
commit abcdefghijkl | ok
beats 1 | 0 6
row 1 | ef..
commit mnopqrstuvwx | ok
settle now | not admitted
period now | 0
row 0 | mnop
row 1 | qrst
row 2 | uvwx
commit ABCDEFGHIJKL | ok
row 0 | mnop
begin 2 | from phase 0
period now | 2
row 0 | mnop
beats 1 | 0 6
row 1 | EFst
commit abcdefghijkl | ok
begin 3 | from phase 0
period now | 3
row 1 | EFst
beats 1 | 0 4
row 0 | abcd
row 1 | EFst
";

#[test]
fn settles_on_the_newest_frame(rt: HostRuntime) -> Result<(), Fail> {
    plays(&rt, rt.alloc(), 4, 3, ENDING)
}

// A frame of another size is refused with both sizes, and leaves the newest one.
const SIZES: &str = "
fill 100 A | ok
fill 0 B | 100 0
fill 99 B | 100 99
fill 101 B | 100 101
fill 65536 B | 100 65536
settle now | not admitted
period now | 0
row 0 | AAAAAAAAAA
row 9 | AAAAAAAAAA
";

#[test]
fn a_frame_has_a_byte_for_each_pixel(rt: HostRuntime) -> Result<(), Fail> {
    plays(&rt, rt.alloc(), 10, 10, SIZES)
}

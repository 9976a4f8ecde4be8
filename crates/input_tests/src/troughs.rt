//! The values that a Scale and a Scrollbar take from the pointer, worked out by hand.
use crate::wanted::plays;
use std::test::Fail;

const BARS: &str = "
add s Scale
set s value 50
bind s change t
add z Scale
set z vert 1
add n Variable
set n value -5
add k Scale
link k n
bind k change t
add r Scrollbar
bind r change t
add h Scrollbar
set h view 50
add f Scrollbar
set f real 50
set f view 100
";

/// A Scale's free length is that of its trough less 8: 40 of 48, and none of 8 or 7. A Scrollbar's knob is 8 of 60 for a
/// view of 10 of 100, 30 of 60 for one of 50 of 100, and all of it where the view shows all.
const POINTED: &str = "
at 0 0 down on s nobody nothing held 0 0 48 12 motion 28 5 => at 28 5 down on s nobody ; value s 60, post s change 60 0
at 0 0 down on s nobody nothing held 0 0 48 12 motion 24 5 => at 24 5 down on s nobody ;
at 0 0 down on s nobody nothing held 0 0 48 12 motion 60 5 => at 60 5 down on s nobody ; value s 100, post s change 100 0
at 0 0 down on s nobody nothing held 0 0 8 12 motion 7 5 => at 7 5 down on s nobody ; value s 0, post s change 0 0
at 0 0 down on s nobody nothing held 0 0 7 12 motion 7 5 => at 7 5 down on s nobody ; value s 0, post s change 0 0
at 0 0 down on z nobody nothing held 0 0 12 48 motion 5 28 => at 5 28 down on z nobody ; value z 60
at 0 0 down on k nobody nothing held 10 0 48 12 motion 10 5 => at 10 5 down on k nobody ;
at 0 0 down on k nobody nothing held 10 0 48 12 motion 38 5 => at 38 5 down on k nobody ; value n 60, post k change 60 0
at 0 0 down on r nobody nothing held 0 0 60 12 motion 30 5 => at 30 5 down on r nobody ; value r 45, post r change 45 0
at 0 0 down on h nobody nothing held 0 0 60 12 motion 30 5 => at 30 5 down on h nobody ; value h 25
at 0 0 down on f nobody nothing held 0 0 60 12 motion 30 5 => at 30 5 down on f nobody ;
";

#[test]
fn a_value_is_taken_from_the_pointer(rt: HostRuntime) -> Result<(), Fail> {
    plays(&rt, rt.alloc(), BARS, POINTED)
}

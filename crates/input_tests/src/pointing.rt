//! What motions, presses and releases do, each row of the table of inputs once.
use crate::wanted::plays;
use std::test::Fail;

const TWO_WINDOWS: &str = "
add p Window
add b Button
hang p b 1 1 0
add q Window
add d Button
hang q d 1 1 0
bind b press t
bind b release t
bind b click t
bind d press t
bind d release t
bind d click t
";

/// Windows p at (0, 0) and q at (20, 0), q in front, both 40 by 40: their Buttons are at (1, 12) and (21, 12), 38 by 27.
const BUTTONS: &str = "
at 0 0 up free nobody nothing away motion 30 20 => at 30 20 up free nobody ;
at 30 20 up free nobody hit d 21 12 38 27 away press => at 30 20 down on d nobody ; raise q, post d press 9 8
at 30 20 down on d nobody hit d 21 12 38 27 held 21 12 38 27 motion 0 60 => at 0 60 down on d nobody ;
at 0 60 down on d nobody nothing held 21 12 38 27 release => at 0 60 up free nobody ; post d release -21 48
at 0 60 up free nobody nothing away motion 5 20 => at 5 20 up free nobody ;
at 5 20 up free nobody hit b 1 12 38 27 away press => at 5 20 down on b nobody ; raise p, post b press 4 8
at 5 20 down on b nobody hit b 1 12 38 27 held 1 12 38 27 release => at 5 20 up free nobody ; post b release 4 8, post b click 4 8
at 30 20 down on b nobody hit d 21 12 38 27 held 1 12 38 27 release => at 30 20 up free nobody ; post b release 29 8
";

const A_SCREEN: &str = "
add w Window
add v VScreen
hang w v 1 1 0
bind v key t
";

/// A VScreen at (1, 12), 38 by 27, of whose events only its keys are bound.
const KEYS: &str = "
at 5 20 up free nobody hit v 1 12 38 27 away press => at 5 20 down on v keys v ; raise w
at 5 20 down on v keys v hit v 1 12 38 27 held 1 12 38 27 motion 6 20 => at 6 20 down on v keys v ;
at 5 20 down on v keys v hit v 1 12 38 27 held 1 12 38 27 release => at 5 20 up free keys v ;
at 5 20 up free keys v hit v 1 12 38 27 away key 65 => at 5 20 up free keys v ; post v key 65 0
at 5 20 up free nobody hit v 1 12 38 27 away key 65 => at 5 20 up free nobody ;
";

const ALL: &str = "
add w Window
set w x 10
set w y 20
bind w move t
add g Grid
hang w g 1 1 0
add e Entry
hang g e 1 1 0
text e abc
add s Scale
hang g s 2 1 0
bind s change t
add l Label
hang g l 3 1 0
add v VScreen
hang g v 4 1 0
bind v press t
bind v release t
bind v motion t
";

const EACH: &str = "
at 5 5 up free nobody nothing away motion 900 63 => at 63 63 up free nobody ;
at 0 0 down drag w 3 2 nobody nothing away motion 30 40 => at 30 40 down drag w 3 2 nobody ; moved w 27 38, post w move 27 38
at 0 0 down drag w 3 2 nobody nothing away motion 13 22 => at 13 22 down drag w 3 2 nobody ;
at 0 0 down drag w 2000 2 nobody nothing away motion 30 40 => at 30 40 down drag w 2000 2 nobody ; moved w -1024 38, post w move -1024 38
at 0 0 down on s nobody nothing held 0 0 48 12 motion 28 5 => at 28 5 down on s nobody ; value s 60, post s change 60 0
at 0 0 down on v keys v nothing held 8 9 20 20 motion 5 10 => at 5 10 down on v keys v ; post v motion -3 1
at 0 0 down on l nobody nothing held 8 9 20 20 motion 5 10 => at 5 10 down on l nobody ;
at 5 5 down on s nobody hit v 0 0 20 20 held 0 0 48 12 press => at 5 5 down on s nobody ;
at 5 5 up free keys e nothing away press => at 5 5 down free nobody ;
at 15 31 up free keys e hit w 10 20 40 40 away press => at 15 31 down drag w 5 11 nobody ; raise w
at 15 32 up free keys e hit w 10 20 40 40 away press => at 15 32 down on w nobody ; raise w
at 5 5 up free nobody hit v 1 2 20 20 away press => at 5 5 down on v keys v ; raise w, post v press 4 3
at 14 5 up free nobody hit e 0 0 40 12 away press => at 14 5 down on e keys e ; raise w, caret e 2
at 39 5 up free nobody hit e 0 0 40 12 away press => at 39 5 down on e keys e ; raise w, caret e 3
at 1 5 up free nobody hit e 0 0 40 12 away press => at 1 5 down on e keys e ; raise w, caret e 0
at 28 5 up free keys e hit s 0 0 48 12 away press => at 28 5 down on s nobody ; raise w, value s 60, post s change 60 0
at 5 5 up free keys e hit l 0 0 48 12 away press => at 5 5 down on l nobody ; raise w
at 5 5 up free keys e hit v 0 0 20 20 away release => at 5 5 up free keys e ;
at 5 5 down on v keys v nothing held 8 9 20 20 release => at 5 5 up free keys v ; post v release -3 -4
at 5 5 down drag w 1 1 nobody nothing away release => at 5 5 up free nobody ;
at 5 5 down free nobody nothing away release => at 5 5 up free nobody ;
";

#[test]
fn a_click_is_a_press_and_release_on_one_button(rt: HostRuntime) -> Result<(), Fail> {
    plays(&rt, rt.alloc(), TWO_WINDOWS, BUTTONS)
}

#[test]
fn keys_go_to_the_screen_that_was_pressed(rt: HostRuntime) -> Result<(), Fail> {
    plays(&rt, rt.alloc(), A_SCREEN, KEYS)
}

#[test]
fn each_row_of_the_table_holds(rt: HostRuntime) -> Result<(), Fail> {
    plays(&rt, rt.alloc(), ALL, EACH)
}

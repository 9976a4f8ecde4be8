//! What changes reach.
use crate::reaching::{Case, reaches};
use std::test::Fail;

// A Label takes all of its Window but the edge and the title: 20 - 2 by 20 - 13, so 126 pixels in each.
const TWO_LABELS: &str = "
add p Window
set p x 0
set p y 0
set p w 20
set p h 20
add q Window
set q x 30
set q y 0
set q w 20
set q h 20
add l Label
add m Label
hang p l 1 1 0
hang q m 1 1 0
add a Variable
link l a
link m a
";

#[test]
fn a_value_reaches_the_labels_that_show_it(rt: HostRuntime) -> Result<(), Fail> {
    reaches(
        &rt,
        rt.alloc(),
        Case {
            widgets: TWO_LABELS,
            before: "p q",
            change: "set a value 7",
            after: "p q",
            looks: "l m",
            count: 252,
            inside: "1 12\n18 12\n1 18\n18 18\n31 12\n48 18",
            outside: "0 12\n19 12\n1 11\n18 19\n30 12\n49 18\n30 0",
        },
    )
}

#[test]
fn a_closed_window_isnt_reached(rt: HostRuntime) -> Result<(), Fail> {
    reaches(
        &rt,
        rt.alloc(),
        Case {
            widgets: TWO_LABELS,
            before: "q",
            change: "set a value 7",
            after: "q",
            looks: "m",
            count: 126,
            inside: "31 12\n48 18",
            outside: "1 12\n18 18",
        },
    )
}

// The Label leaves 126 pixels of the one window, and takes 126 of the other. The other Label's 126 are these too.
#[test]
fn a_widget_that_hangs_elsewhere_reaches_both_windows(rt: HostRuntime) -> Result<(), Fail> {
    reaches(
        &rt,
        rt.alloc(),
        Case {
            widgets: TWO_LABELS,
            before: "p q",
            change: "lift l\nlift m\nhang q l 1 1 0",
            after: "p q",
            looks: "",
            count: 252,
            inside: "1 12\n18 18\n31 12\n48 18",
            outside: "0 0\n19 12\n30 12\n49 18",
        },
    )
}

// Of 20 pixels across, 5 lie left of the screen.
#[test]
fn a_window_that_opens_reaches_what_is_on_the_screen(rt: HostRuntime) -> Result<(), Fail> {
    reaches(
        &rt,
        rt.alloc(),
        Case {
            widgets: TWO_LABELS,
            before: "",
            change: "set p x -5",
            after: "p",
            looks: "",
            count: 300,
            inside: "0 0\n14 19",
            outside: "15 0\n0 20",
        },
    )
}

// From 0 to 19 and from 4 to 23: 24 columns of 20.
#[test]
fn a_window_that_moves_reaches_both_places(rt: HostRuntime) -> Result<(), Fail> {
    reaches(
        &rt,
        rt.alloc(),
        Case {
            widgets: TWO_LABELS,
            before: "p",
            change: "set p x 4",
            after: "p",
            looks: "",
            count: 480,
            inside: "0 0\n3 19\n4 0\n23 19",
            outside: "24 0\n0 20",
        },
    )
}

#[test]
fn what_stays_reaches_nothing(rt: HostRuntime) -> Result<(), Fail> {
    reaches(
        &rt,
        rt.alloc(),
        Case {
            widgets: TWO_LABELS,
            before: "q p",
            change: "set p w 20",
            after: "q p",
            looks: "",
            count: 0,
            inside: "",
            outside: "0 0\n1 12\n31 12",
        },
    )
}

// Two windows that share the columns 10 to 19.
const OVERLAPPING: &str = "
add p Window
set p x 0
set p y 0
set p w 20
set p h 20
add q Window
set q x 10
set q y 0
set q w 20
set q h 20
";

#[test]
fn windows_that_open_reach_their_places(rt: HostRuntime) -> Result<(), Fail> {
    reaches(
        &rt,
        rt.alloc(),
        Case {
            widgets: OVERLAPPING,
            before: "",
            change: "",
            after: "p q",
            looks: "",
            count: 600,
            inside: "0 0\n29 19",
            outside: "30 0\n0 20",
        },
    )
}

#[test]
fn a_raised_window_reaches_its_place(rt: HostRuntime) -> Result<(), Fail> {
    reaches(
        &rt,
        rt.alloc(),
        Case {
            widgets: OVERLAPPING,
            before: "p q",
            change: "",
            after: "q p",
            looks: "",
            count: 400,
            inside: "0 0\n10 5\n19 19",
            outside: "20 5\n29 19",
        },
    )
}

#[test]
fn a_window_that_closes_reaches_its_place(rt: HostRuntime) -> Result<(), Fail> {
    reaches(
        &rt,
        rt.alloc(),
        Case {
            widgets: OVERLAPPING,
            before: "q p",
            change: "",
            after: "q",
            looks: "",
            count: 400,
            inside: "0 0\n10 5\n19 19",
            outside: "20 5\n29 19",
        },
    )
}

// A clock: of the Grid's 118 across and the rows of 14 the pads leave 116 by 12, for the Label and for the Scale.
const CLOCK: &str = "
add w Window
set w x 10
set w y 20
set w w 120
set w h 100
add g Grid
hang w g 1 1 0
add t Variable
add l Label
link l t
add s Scale
link s t
add v VScreen
hang g l 1 1 1
hang g s 1 2 1
hang g v 1 3 1
";

#[test]
fn a_clocks_tick_reaches_its_label_and_scale(rt: HostRuntime) -> Result<(), Fail> {
    reaches(
        &rt,
        rt.alloc(),
        Case {
            widgets: CLOCK,
            before: "w",
            change: "set t value 50",
            after: "w",
            looks: "l s",
            count: 2784,
            inside: "12 33\n127 44\n12 47\n127 58",
            outside: "11 33\n12 32\n128 44\n12 45\n12 46\n12 59\n12 61",
        },
    )
}

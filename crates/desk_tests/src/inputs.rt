//! Presses, releases and keys meet the widgets of the top window, and clients poll what they bound.
use crate::asking::ask_all;
use desk_core::Desk;
use kind_core::Shape;
use std::alloc::Global;
use std::process::Abort;
use std::test::Fail;

/// Two windows over one another, each with a Button.
pub const BUTTONS: &str = "
1 connect | ok
1 p = new Window() | ok
1 p.set(-w 40 -h 40) | ok
1 b = new Button() | ok
1 p.place(b) | ok
1 b.bind(press, a) | ok
1 b.bind(release, b) | ok
1 b.bind(click, c) | ok
2 connect | ok
2 q = new Window() | ok
2 q.set(-x 20 -w 40 -h 40) | ok
2 d = new Button() | ok
2 q.place(d) | ok
2 d.bind(press, a) | ok
2 d.bind(release, b) | ok
2 d.bind(click, c) | ok
1 p.open() | ok
2 q.open() | ok
";

/// A Button is pressed and let go elsewhere, and another is clicked.
pub const PRESSES: &str = "
input motion 30 20 | false
input press | false
input motion 0 60 | false
input release | false
2 poll() | event a press 9 8
2 poll() | event b release -21 48
2 poll() | none
1 poll() | none
desk top 30 30 | 2
# a press on the lower window raises it
input motion 5 20 | false
input press | true
input release | false
1 poll() | event a press 4 8
1 poll() | event b release 4 8
1 poll() | event c click 4 8
desk top 30 30 | 1
";

/// A window with a VScreen that has the focus, and 33 keys.
pub const KEYS: &str = "
1 connect | ok
1 w = new Window() | ok
1 w.set(-w 40 -h 40) | ok
1 v = new VScreen() | ok
1 w.place(v) | ok
1 v.bind(key, k) | ok
1 w.open() | ok
input motion 5 20 | false
input press | false
input release | false
input key 65 | false
input key 66 | false
input key 67 | false
input key 68 | false
input key 69 | false
input key 70 | false
input key 71 | false
input key 72 | false
input key 73 | false
input key 74 | false
input key 75 | false
input key 76 | false
input key 77 | false
input key 78 | false
input key 79 | false
input key 80 | false
input key 81 | false
input key 82 | false
input key 83 | false
input key 84 | false
input key 85 | false
input key 86 | false
input key 87 | false
input key 88 | false
input key 89 | false
input key 90 | false
input key 91 | false
input key 92 | false
input key 93 | false
input key 94 | false
input key 95 | false
input key 96 | false
input key 97 | false
";

/// The first of the keys is lost.
pub const TOLD: &str = "
1 poll() | lost 1
1 poll() | event k key 66 0
1 poll() | event k key 67 0
1 poll() | event k key 68 0
1 poll() | event k key 69 0
1 poll() | event k key 70 0
1 poll() | event k key 71 0
1 poll() | event k key 72 0
1 poll() | event k key 73 0
1 poll() | event k key 74 0
1 poll() | event k key 75 0
1 poll() | event k key 76 0
1 poll() | event k key 77 0
1 poll() | event k key 78 0
1 poll() | event k key 79 0
1 poll() | event k key 80 0
1 poll() | event k key 81 0
1 poll() | event k key 82 0
1 poll() | event k key 83 0
1 poll() | event k key 84 0
1 poll() | event k key 85 0
1 poll() | event k key 86 0
1 poll() | event k key 87 0
1 poll() | event k key 88 0
1 poll() | event k key 89 0
1 poll() | event k key 90 0
1 poll() | event k key 91 0
1 poll() | event k key 92 0
1 poll() | event k key 93 0
1 poll() | event k key 94 0
1 poll() | event k key 95 0
1 poll() | event k key 96 0
1 poll() | event k key 97 0
1 poll() | none
";

/// A desk on a screen of 64 by 64 pixels, with no clients.
pub fn wide_desk(alloc: Global) -> Desk {
    Desk::new(
        alloc,
        Shape {
            width: 64,
            height: 64,
            budget: 1000,
            spare: 100,
        },
    )
}

/// The rows of both tables hold on a wide desk, one after the other.
fn asked_wide(rt: &impl Abort, alloc: Global, before: &str, after: &str) -> Result<(), Fail> {
    let mut desk = wide_desk(alloc);
    ask_all(rt, &mut desk, before)?;
    ask_all(rt, &mut desk, after)
}

#[test]
fn a_press_meets_the_top_window_and_raises_it(rt: HostRuntime) -> Result<(), Fail> {
    asked_wide(&rt, rt.alloc(), BUTTONS, PRESSES)
}

#[test]
fn a_ring_keeps_the_latest_keys(rt: HostRuntime) -> Result<(), Fail> {
    asked_wide(&rt, rt.alloc(), KEYS, TOLD)
}

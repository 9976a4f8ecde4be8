//! A copy of a desk goes on as the desk does: what both are asked next they answer alike, and neither changes the other.
use crate::asking::{ask_all, new_desk};
use crate::inputs::{BUTTONS, KEYS, PRESSES, TOLD, wide_desk};
use desk_core::Desk;
use std::process::Abort;
use std::test::Fail;

/// The rows of the table hold on the desk, and then on the copy that was made before. Where the copy is refused they hold
/// on the desk all the same.
fn go_on_alike(rt: &impl Abort, desk: &mut Desk, table: &str) -> Result<(), Fail> {
    let copied = desk.copy();
    ask_all(rt, desk, table)?;
    match copied {
        Ok(mut copy) => ask_all(rt, &mut copy, table),
        Err(_) => Err("there is no memory".into()),
    }
}

/// A film within a period, with a frame that waits for the next one.
const WITHIN_A_PERIOD: &str = "
1 connect | ok
1 w = new Window() | ok
1 w.set(-w 16 -h 23) | ok
1 v = new VScreen() | ok
1 v.mode(10, 10) | ok
1 w.place(v) | ok
1 v.admit(5) | ok
1 w.open() | ok
beat v | 0 20
1 v.frame(100) | ok
beat v | 20 40
beat v | 40 60
";

const NEXT_BEATS: &str = "
beat v | 60 80
beat v | 80 100
desk pixel v 0 | 0
beat v | 0 20
desk pixel v 0 | 65
desk pixel v 20 | 0
beat v | 20 40
desk pixel v 20 | 65
1 v.mode(5, 5) | error 15
1 w.set(-x 5) | ok
desk place 1 v | 6 12 14 10
input motion 7 13 | false
input press | false
1 v.leave() | ok
desk pixel v 99 | 65
1 v.admit(64) | ok
beat v | 0 2
beat v | 2 4
";

#[test]
fn a_copy_goes_on_within_a_period(rt: HostRuntime) -> Result<(), Fail> {
    let mut desk = new_desk(rt.alloc());
    ask_all(&rt, &mut desk, WITHIN_A_PERIOD)?;
    go_on_alike(&rt, &mut desk, NEXT_BEATS)
}

const NEXT_PRESSES: &str = "
input motion 30 20 | false
input press | false
1 poll() | event a press 29 8
input motion 45 20 | false
2 poll() | none
input release | false
1 poll() | event b release 44 8
1 poll() | none
1 p.close() | ok
desk top 30 30 | 2
desk top 5 5 | none
input press | false
2 poll() | event a press 24 8
";

#[test]
fn a_copy_has_the_order_of_the_windows(rt: HostRuntime) -> Result<(), Fail> {
    let mut desk = wide_desk(rt.alloc());
    ask_all(&rt, &mut desk, BUTTONS)?;
    ask_all(&rt, &mut desk, PRESSES)?;
    go_on_alike(&rt, &mut desk, NEXT_PRESSES)
}

const GRABBED: &str = "
input motion 30 20 | false
input press | false
";

const LET_GO: &str = "
input motion 0 60 | false
input release | false
2 poll() | event a press 9 8
2 poll() | event b release -21 48
2 poll() | none
1 poll() | none
";

#[test]
fn a_copy_has_the_widget_that_the_pointer_holds(rt: HostRuntime) -> Result<(), Fail> {
    let mut desk = wide_desk(rt.alloc());
    ask_all(&rt, &mut desk, BUTTONS)?;
    ask_all(&rt, &mut desk, GRABBED)?;
    go_on_alike(&rt, &mut desk, LET_GO)
}

#[test]
fn a_copy_has_the_kept_events(rt: HostRuntime) -> Result<(), Fail> {
    let mut desk = wide_desk(rt.alloc());
    ask_all(&rt, &mut desk, KEYS)?;
    go_on_alike(&rt, &mut desk, TOLD)
}

//! VScreens: their modes and frames, and how they are admitted, with two refusals at once where the first counts.
use crate::asking::{ask_all, new_desk};
use std::alloc::Global;
use std::process::Abort;
use std::test::Fail;

/// The desk's budget is 100 and its spare 10, so shares may be 90 together.
const SHARES: &str = "
1 connect | ok
1 a = new VScreen() | ok
1 b = new VScreen() | ok
1 c = new VScreen() | ok
1 d = new VScreen() | ok
1 e = new VScreen() | ok
1 a.mode(10, 10) | ok
1 b.mode(10, 10) | ok
1 c.mode(10, 10) | ok
1 d.mode(10, 1) | ok
1 e.mode(11, 1) | ok
1 a.admit(3) | ok
1 b.admit(3) | ok
1 c.admit(3) | error 16 34 22
1 e.admit(1) | ok
1 d.admit(1) | ok
1 c.admit(64) | error 16 2 1
1 a.admit(3) | ok
1 a.mode(5, 5) | error 15
1 c.leave() | error 17
# what one leaves another may have
1 e.leave() | ok
1 c.admit(64) | ok
1 e.admit(1) | error 16 11 10
2 connect | ok
2 v = new VScreen() | ok
2 v.mode(11, 1) | ok
2 v.admit(1) | error 16 11 10
2 v.admit(2) | ok
1 bye | ok
2 v.admit(1) | ok
";

const REFUSALS: &str = "
1 connect | ok
1 l = new Label() | ok
1 n = new VScreen() | ok
1 v = new VScreen() | ok
1 x.mode(0, 0) | error 4
1 l.mode(0, 0) | error 5
1 n.mode(0, 257) | error 6 1 256
1 n.mode(1, 257) | error 6 1 256
1 x.admit(0) | error 4
1 l.admit(0) | error 5
1 n.admit(0) | error 6 1 64
1 n.admit(65) | error 6 1 64
1 n.admit(1) | error 14
1 x.leave() | error 4
1 l.leave() | error 5
1 n.leave() | error 17
1 x.frame(1) | error 4
1 l.frame(1) | error 5
1 n.frame(0) | error 14
1 v.mode(10, 10) | ok
desk changed | true
1 v.frame(0) | error 18 100 0
1 v.frame(99) | error 18 100 99
1 v.frame(100) | ok
desk changed | true
1 v.frame(100) | ok
desk changed | false
1 v.admit(64) | ok
1 v.mode(0, 5) | error 6 1 256
1 v.mode(5, 5) | error 15
1 v.drop() | error 19
1 v.leave() | ok
1 v.drop() | ok
1 poll() | none
2 poll() | error 20
";

/// The rows of the table hold on a new desk.
fn asked_anew(rt: &impl Abort, alloc: Global, table: &str) -> Result<(), Fail> {
    let mut desk = new_desk(alloc);
    ask_all(rt, &mut desk, table)
}

#[test]
fn shares_are_refused_past_the_budget(rt: HostRuntime) -> Result<(), Fail> {
    asked_anew(&rt, rt.alloc(), SHARES)
}

#[test]
fn the_first_refusal_of_a_vscreen_counts(rt: HostRuntime) -> Result<(), Fail> {
    asked_anew(&rt, rt.alloc(), REFUSALS)
}

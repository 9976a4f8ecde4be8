//! What each command is refused: where two refusals hold, the first of its row is answered (docs/GUIDE.md,
//! "Commands"). The names `no` and `nix` are nobody's.
use crate::asking::{ask_all, new_desk};
use desk_core::Desk;
use std::alloc::Global;
use std::process::Abort;
use std::test::Fail;

/// Client 1 with a widget of most kinds: the Label l and the Grid h hang in the Grid g, the Label m is linked to
/// the Variable v, and the Window w is open.
const WIDGETS: &str = "
1 connect | ok
1 w = new Window() | ok
1 g = new Grid() | ok
1 h = new Grid() | ok
1 f = new Frame() | ok
1 b = new Button() | ok
1 l = new Label() | ok
1 m = new Label() | ok
1 v = new Variable() | ok
1 g.place(l) | ok
1 g.place(h, -row 2) | ok
1 m.link(v) | ok
1 w.open() | ok
";

/// Asks a desk with these widgets.
fn asked_then(rt: &impl Abort, alloc: Global, table: &str) -> Result<(), Fail> {
    ask_two(rt, &mut new_desk(alloc), WIDGETS, table)
}

/// Asks the desk the rows of two tables.
fn ask_two(rt: &impl Abort, desk: &mut Desk, first: &str, then: &str) -> Result<(), Fail> {
    ask_all(rt, desk, first)?;
    ask_all(rt, desk, then)
}

const STRANGERS: &str = "
9 w = new Window() | error 20
9 no.set(-x 9999) | error 20
9 no.get(cols) | error 20
9 no.place(nix, -pad 99) | error 20
9 no.lift(nix) | error 20
9 no.columnconfig(17, -size 2000) | error 20
9 no.rowconfig(17, -size 2000) | error 20
9 no.link(nix) | error 20
9 no.unlink() | error 20
9 no.bind(press, t) | error 20
9 no.unbind(press) | error 20
9 no.open() | error 20
9 no.close() | error 20
9 no.top() | error 20
9 no.drop() | error 20
9 bye | error 20
";

#[test]
fn who_is_not_connected_is_refused_first(rt: HostRuntime) -> Result<(), Fail> {
    asked_then(&rt, rt.alloc(), STRANGERS)
}

const VALUES: &str = r#"
1 w = new Label() | error 3
1 no.set(-x 9999) | error 4
1 no.set(-text "a") | error 4
1 w.set(-w 9 -text "a") | error 6 16 1024
1 w.set(-text "a" -w 9) | error 5
1 w.set(-title 5) | error 5
1 w.set(-x 2000 -w 9) | error 6 -1024 1024
1 no.get(cols) | error 4
1 w.get(cols) | error 5
1 g.get(x) | error 5
"#;

#[test]
fn values_are_refused_in_their_order(rt: HostRuntime) -> Result<(), Fail> {
    asked_then(&rt, rt.alloc(), VALUES)
}

const RULES: &str = "
1 no.columnconfig(17, -size 2000) | error 4
1 f.columnconfig(17, -size 2000) | error 5
1 f.columnconfig(1, -size 2000) | error 5
1 g.columnconfig(17, -size 2000) | error 6 1 16
1 g.columnconfig(1, -size 1025 -weight 1001) | error 6 0 1024
1 g.columnconfig(1, -weight 1001 -size 1025) | error 6 0 1000
1 g.columnconfig(1, -size 2000 -size 3) | error 6 0 1024
1 g.columnconfig(16, -size 1024 -weight 1000) | ok
1 no.rowconfig(0, -weight 1001) | error 4
1 f.rowconfig(0, -weight 1001) | error 5
1 g.rowconfig(0, -weight 1001) | error 6 1 16
1 g.rowconfig(16, -weight 1001 -size 1025) | error 6 0 1000
1 g.rowconfig(16, -size 1025 -weight 1001) | error 6 0 1024
1 g.rowconfig(16, -weight 1000 -size 1024) | ok
";

#[test]
fn rules_are_refused_in_their_order(rt: HostRuntime) -> Result<(), Fail> {
    asked_then(&rt, rt.alloc(), RULES)
}

const PLACES: &str = "
1 no.place(v, -pad 99) | error 4
1 g.place(no, -pad 99) | error 4
1 b.place(no, -pad 99) | error 4
1 b.place(m, -pad 17) | error 5
1 g.place(v, -pad 17) | error 5
1 b.place(l) | error 5
1 g.place(w) | error 5
1 w.place(m, -pad 17 -column 2) | error 6 0 16
1 w.place(m, -column 2 -pad 17) | error 6 1 1
1 g.place(l, -column 17) | error 6 1 16
1 g.place(g, -row 0) | error 6 1 16
1 g.place(m, -pad 17) | error 6 0 16
1 h.place(h) | error 8
1 g.place(h) | error 8
1 g.place(g) | error 9
1 g.place(m) | error 11
";

#[test]
fn hanging_is_refused_in_its_order(rt: HostRuntime) -> Result<(), Fail> {
    asked_then(&rt, rt.alloc(), PLACES)
}

const LIFTS: &str = "
1 no.lift(l) | error 4
1 g.lift(no) | error 4
1 w.lift(l) | error 21
1 g.lift(m) | error 21
1 no.drop() | error 4
1 w.drop() | error 19
1 g.drop() | error 19
1 h.drop() | error 19
1 v.drop() | error 19
1 g.lift(l) | ok
1 g.lift(l) | error 21
1 g.drop() | error 19
1 g.lift(h) | ok
1 g.drop() | ok
1 m.drop() | ok
1 v.drop() | ok
1 v.drop() | error 4
";

#[test]
fn lifts_and_drops_are_refused_in_their_order(rt: HostRuntime) -> Result<(), Fail> {
    asked_then(&rt, rt.alloc(), LIFTS)
}

const LINKS: &str = "
1 no.link(l) | error 4
1 b.link(no) | error 4
1 b.link(v) | error 5
1 m.link(l) | error 5
1 no.unlink() | error 4
1 b.unlink() | error 5
1 l.unlink() | ok
1 no.bind(press, t) | error 4
1 l.bind(press, t) | error 5
1 b.bind(press, t) | ok
1 no.unbind(press) | error 4
1 b.unbind(key) | error 5
1 b.unbind(press) | ok
1 no.open() | error 4
1 g.open() | error 5
1 w.open() | error 12
1 no.close() | error 4
1 g.close() | error 5
1 no.top() | error 4
1 g.top() | error 5
1 w.close() | ok
1 w.close() | error 13
1 w.top() | error 13
1 w.open() | ok
1 w.top() | ok
";

#[test]
fn links_and_windows_are_refused_in_their_order(rt: HostRuntime) -> Result<(), Fail> {
    asked_then(&rt, rt.alloc(), LINKS)
}

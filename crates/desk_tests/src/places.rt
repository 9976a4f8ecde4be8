//! The kept place of each Window and of each widget under one is its place; no other widget has one.
use crate::asking::asked_anew;
use std::test::Fail;

/// A Label with a Variable is as wide as its text and the number are, and leaves the rest to the column with the weight.
const COLUMNS: &str = "
1 connect | ok
1 w = new Window() | ok
desk place 1 w | 0 0 160 120
1 w.set(-w 60 -h 40) | ok
1 g = new Grid() | ok
1 a = new Label() | ok
1 b = new Label() | ok
1 t = new Variable() | ok
desk place 1 g | none
1 w.place(g) | ok
1 g.place(a, -column 1) | ok
1 g.place(b, -column 2) | ok
1 g.columnconfig(2, -weight 1) | ok
1 a.set(-text \"ab\") | ok
1 a.link(t) | ok
desk place 1 a | 1 12 22 27
desk place 1 b | 23 12 36 27
desk place 1 t | none
1 t.set(-value 10) | ok
desk place 1 a | 1 12 28 27
desk place 1 b | 29 12 30 27
1 w.set(-x 5 -y 6) | ok
desk place 1 w | 5 6 60 40
desk place 1 a | 6 18 28 27
desk place 1 b | 34 18 30 27
1 a.unlink() | ok
desk place 1 a | 6 18 16 27
desk place 1 b | 22 18 42 27
";

#[test]
fn a_window_is_laid_out(rt: HostRuntime) -> Result<(), Fail> {
    asked_anew(&rt, rt.alloc(), COLUMNS)
}

/// A Variable moves what is linked to it in each window of its client, and nothing of another client.
const TWO_WINDOWS: &str = "
1 connect | ok
2 connect | ok
1 v = new Window() | ok
1 w = new Window() | ok
1 t = new Variable() | ok
1 f = new Frame() | ok
1 g = new Frame() | ok
1 a = new Label() | ok
1 b = new Label() | ok
1 f.place(a) | ok
1 g.place(b) | ok
1 v.place(f) | ok
1 w.place(g) | ok
1 f.link(t) | ok
1 g.link(t) | ok
2 w = new Window() | ok
2 a = new Label() | ok
2 w.place(a) | ok
desk place 1 a | 1 12 158 107
desk place 1 b | 1 12 158 107
desk place 2 a | 1 12 158 107
1 t.set(-value 7) | ok
desk place 1 a | 1 5 158 107
desk place 1 b | 1 5 158 107
desk place 2 a | 1 12 158 107
1 bye | ok
desk place 2 a | 1 12 158 107
";

#[test]
fn a_variable_moves_two_windows(rt: HostRuntime) -> Result<(), Fail> {
    asked_anew(&rt, rt.alloc(), TWO_WINDOWS)
}

/// A widget that is lifted has no place, and neither have those under it.
const LIFTED: &str = "
1 connect | ok
1 w = new Window() | ok
1 f = new Frame() | ok
1 a = new Label() | ok
1 f.place(a, -pad 2) | ok
desk place 1 a | none
1 w.place(f) | ok
desk place 1 f | 1 12 158 107
desk place 1 a | 3 14 154 103
1 w.lift(f) | ok
desk place 1 w | 0 0 160 120
desk place 1 f | none
desk place 1 a | none
1 w.place(a) | error 8
1 f.lift(a) | ok
1 w.place(a) | ok
desk place 1 a | 1 12 158 107
1 w.open() | ok
desk place 1 a | 1 12 158 107
";

#[test]
fn a_lifted_widget_has_no_place(rt: HostRuntime) -> Result<(), Fail> {
    asked_anew(&rt, rt.alloc(), LIFTED)
}

//! Widgets hang in one another, up to twelve levels, one in a cell.
use crate::asking::asked_anew;
use std::test::Fail;

const GRIDS: &str = "
1 connect | ok
1 a = new Grid() | ok
1 b = new Grid() | ok
1 c = new Grid() | ok
1 a.place(b) | ok
1 b.place(c) | ok
1 c.place(a) | error 9
1 a.place(a) | error 9
1 c.place(b) | error 8
1 b.lift(a) | error 21
1 b.drop() | error 19
1 b.lift(c) | ok
1 b.drop() | error 19
1 a.lift(b) | ok
1 b.drop() | ok
";

#[test]
fn grids_hang_in_one_another(rt: HostRuntime) -> Result<(), Fail> {
    asked_anew(&rt, rt.alloc(), GRIDS)
}

const CELLS: &str = "
1 connect | ok
1 g = new Grid() | ok
1 l = new Label() | ok
1 m = new Label() | ok
1 n = new Label() | ok
1 g.place(l, -column 1 -row 1) | ok
1 g.place(m, -column 1 -row 1) | error 11
1 g.place(m) | error 11
# an option that is repeated counts by its last
1 g.place(m, -column 2 -column 3) | ok
1 g.place(n, -column 3) | error 11
1 g.place(n, -column 2) | ok
1 g.lift(l) | ok
1 g.lift(m) | ok
1 g.place(m) | ok
";

#[test]
fn one_widget_stands_in_a_cell(rt: HostRuntime) -> Result<(), Fail> {
    asked_anew(&rt, rt.alloc(), CELLS)
}

/// The Grids g1 to g12 hang each in the one before.
const LEVELS: &str = "
1 connect | ok
1 g1 = new Grid() | ok
1 g2 = new Grid() | ok
1 g3 = new Grid() | ok
1 g4 = new Grid() | ok
1 g5 = new Grid() | ok
1 g6 = new Grid() | ok
1 g7 = new Grid() | ok
1 g8 = new Grid() | ok
1 g9 = new Grid() | ok
1 g10 = new Grid() | ok
1 g11 = new Grid() | ok
1 g12 = new Grid() | ok
1 g1.place(g2) | ok
1 g2.place(g3) | ok
1 g3.place(g4) | ok
1 g4.place(g5) | ok
1 g5.place(g6) | ok
1 g6.place(g7) | ok
1 g7.place(g8) | ok
1 g8.place(g9) | ok
1 g9.place(g10) | ok
1 g10.place(g11) | ok
1 g11.place(g12) | ok
1 g13 = new Grid() | ok
1 x = new Grid() | ok
1 y = new Grid() | ok
1 x.place(y) | ok
1 g12.place(g13) | error 10
# the child would hold itself, and the tree would have 24 levels
1 g12.place(g1) | error 9
# the tree would have 13 levels, and g12 stands in the cell
1 g11.place(x) | error 10
# the child has a parent, and g12 stands in the cell
1 g11.place(y) | error 8
1 g11.place(g13) | error 11
1 g11.place(g13, -row 2) | ok
1 g10.place(x, -row 2) | ok
";

#[test]
fn a_tree_has_12_levels(rt: HostRuntime) -> Result<(), Fail> {
    asked_anew(&rt, rt.alloc(), LEVELS)
}

//! A change, and the pixels that it reaches.
ghost use Rattle.std.specs.Prelude.{◌≡◌, true, ◌<◌};
ghost use Rattle.widget_model.specs.Clients.{is_joined};
ghost use Rattle.widget_model.specs.Forest.{IsWidgets};

use crate::showing::show;
use arrayvec::ArrayVec;
use damage_rules::{Raised, reach, reach_with};
use geom_core::{Rect, holds};
use shot_core::{Shot, Touched};
use std::alloc::Global;
use std::process::Abort;
use std::test::Fail;
use test_tables::{integer, make_all, make_rows, named};
use tree_core::Tree;

/// A change: the widgets as rows, the windows that are open before in the order of opening, the rows of the change, the
/// windows that are open after it, and the shown widgets whose looks differ. Then the number of pixels that it reaches,
/// and as rows some of them and some others.
#[derive(Clone, Copy)]
pub struct Case<'a> {
    pub widgets: &'a str,
    pub before: &'a str,
    pub change: &'a str,
    pub after: &'a str,
    pub looks: &'a str,
    pub count: u32,
    pub inside: &'a str,
    pub outside: &'a str,
}

/// The numbers of the named widgets.
fn touched(tree: &Tree, names: &str) -> Result<Touched, Fail> {
    let mut looks = ArrayVec::new();
    for name in names.split_whitespace() {
        let id = named(tree, name)?;
        if looks.is_full() {
            return Err("too many looks differ".into());
        }
        looks.push(id.key);
    }
    Ok(Touched { looks })
}

/// The areas that all numbers give, one number after the other. By itself a number gives the same.
#[tactic(auto, unfolding(shot_core::specs::Shot::most_numbers))]
fn areas(
    rt: &impl Abort,
    alloc: Global,
    before: &Shot,
    after: &Shot,
    touched: &Touched,
) -> Result<Vec<Rect>, Fail> {
    let raised = Raised::between(before, after);
    let mut areas = Vec::new(alloc);
    for key in 0..2048 {
        let given = reach_with(before, after, touched, &raised, key);
        let alone = reach(before, after, touched, key);
        assert_eq!(rt; given.as_slice(), alone.as_slice(), "number {key}");
        for area in given.as_slice() {
            areas.push(*area)?;
        }
    }
    Ok(areas)
}

/// Whether one of the areas holds the pixel.
fn is_reached(areas: &[Rect], x: i32, y: i32) -> bool {
    for area in areas {
        if holds(*area, x, y) {
            return true;
        }
    }
    false
}

/// How many pixels of the screen the areas hold together.
fn count(areas: &[Rect]) -> u32 {
    let mut count: u32 = 0;
    for y in 0..128 {
        for x in 0..160 {
            if is_reached(areas, x, y) {
                count = count.wrapping_add(1);
            }
        }
    }
    count
}

/// Whether each pixel of the table is reached, or each isn't.
fn are_reached(rt: &impl Abort, areas: &[Rect], table: &str, wanted: bool) -> Result<(), Fail> {
    for row in table.trim().lines() {
        let mut words = row.split_whitespace();
        let x = integer(&mut words)?;
        let y = integer(&mut words)?;
        assert_eq!(rt; is_reached(areas, x, y), wanted, "{row}");
    }
    Ok(())
}

/// Plays the case on a new tree that client 1 alone joined.
pub fn reaches(rt: &impl Abort, alloc: Global, case: Case<'_>) -> Result<(), Fail> {
    let mut tree = Tree::new(alloc);
    let mut before = match Shot::new(alloc) {
        Ok(shot) => shot,
        Err(_) => return Err("there is no memory".into()),
    };
    let mut after = match Shot::new(alloc) {
        Ok(shot) => shot,
        Err(_) => return Err("there is no memory".into()),
    };
    make_all(alloc, &mut tree, case.widgets)?;
    show(&mut tree, case.before, &mut before)?;
    make_rows(alloc, &mut tree, case.change)?;
    show(&mut tree, case.after, &mut after)?;
    let touched = touched(&tree, case.looks)?;
    let areas = areas(rt, alloc, &before, &after, &touched);
    let Touched { looks: _ } = touched;
    let areas = areas?;
    assert_eq!(rt; count(&areas), case.count, "the number of pixels");
    are_reached(rt, &areas, case.inside, true)?;
    are_reached(rt, &areas, case.outside, false)
}

//! The options of `place`, which give the cell and the pad.

ghost use Rattle.std.specs.Prelude.{◌≡◌};
ghost use Rattle.desk_model.specs.PlaceOptions.{cell_option_refusal, cell_options_refusal, with_cell_option, cell_given};

use crate::kinds::last_cell;
use crate::ranges::unless_within;
use cmd_words::{PlaceOption, Refusal};
use kind_core::{Cell, Kind};

/// The refusal of an option.
fn cell_option_refusal(kind: Kind, option: &(PlaceOption, i32)) -> Option<Refusal>
    ensures { result ≡ cell_option_refusal kind option.now }
{
    match option.0 {
        PlaceOption::Column | PlaceOption::Row => unless_within(1, last_cell(kind), option.1),
        PlaceOption::Pad => unless_within(0, 16, option.1),
    }
}

/// The first refusal of the options, from left to right.
pub(crate) fn cell_options_refusal(kind: Kind, options: &[(PlaceOption, i32)]) -> Option<Refusal>
    ensures { result ≡ cell_options_refusal kind options.now }
{
    for option in options {
        match cell_option_refusal(kind, option) {
            Some(refusal) => return Some(refusal),
            None => {}
        }
    }
    None
}

/// The cell with an option in it.
fn with_cell_option(option: &(PlaceOption, i32), cell: Cell) -> Cell
    ensures { result ≡ with_cell_option option.now cell }
{
    let n = option.1.unsigned_abs();
    match option.0 {
        PlaceOption::Column => Cell { column: n, ..cell },
        PlaceOption::Row => Cell { row: n, ..cell },
        PlaceOption::Pad => Cell { pad: n, ..cell },
    }
}

/// The cell that the options give: column 1, row 1 and no pad, where they say nothing else.
pub(crate) fn cell_given(options: &[(PlaceOption, i32)]) -> Cell
    ensures { result ≡ cell_given options.now }
{
    let mut cell = Cell {
        column: 1,
        row: 1,
        pad: 0,
    };
    for option in options {
        cell = with_cell_option(option, cell);
    }
    cell
}

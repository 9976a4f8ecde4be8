//! A child of a widget, measured.

use crate::size::Size;
use kind_core::Cell;

/// A child: its number, the cell of its parent in which it hangs, and its least size.
#[derive(Clone, Copy)]
pub(crate) struct Child {
    pub(crate) key: u32,
    pub(crate) cell: Cell,
    pub(crate) least: Size,
}

impl Default for Child {
    /// What lies in an unused place of a list of fixed capacity.
    fn default() -> Self {
        Child {
            key: 0,
            cell: Cell {
                column: 0,
                row: 0,
                pad: 0,
            },
            least: Size { w: 0, h: 0 },
        }
    }
}

//! The pointer: where it is, what it has grabbed and where keys go.

use crate::id::Id;

/// What the pointer has grabbed: nothing, a widget, or a window that is dragged by the pixel `dx` right of and `dy`
/// below its corner. See docs/MACHINE.md, "The pointer".
#[derive(Clone, Copy, Debug)]
pub enum Grab {
    Nothing,
    Widget { id: Id },
    Drag { id: Id, dx: u32, dy: u32 },
}

/// The pointer: its pixel, counted from 0 at the screen's upper left corner, whether its button is down, what it has
/// grabbed, and the widget that has the focus: keys go to it. See docs/MACHINE.md, "The pointer".
#[derive(Clone, Copy, Debug)]
pub struct Pointer {
    pub x: u32,
    pub y: u32,
    pub down: bool,
    pub grab: Grab,
    pub focus: Option<Id>,
}

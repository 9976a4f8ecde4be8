use geom_core::Rect;
use tree_core::Id;

/// The top widget at the pointer's pixel, and its place on the screen. See docs/MACHINE.md, "Input".
#[derive(Clone, Copy, Debug)]
pub struct Hit {
    pub id: Id,
    pub place: Rect,
}

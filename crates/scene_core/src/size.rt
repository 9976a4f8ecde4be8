//! A width and a height.

/// A width and a height, in pixels. See docs/MACHINE.md, "Layout".
#[derive(Clone, Copy, Debug, PartialEq, Eq)]
pub struct Size {
    pub w: u32,
    pub h: u32,
}

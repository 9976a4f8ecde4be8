//! One axis of the screen at a time.

/// An axis: across, from left to right, or down. See docs/MACHINE.md, "Layout".
#[derive(Clone, Copy, Debug, PartialEq, Eq)]
pub enum Axis {
    Across,
    Down,
}

/// The pixels of one axis from `from` on, `len` of them. See docs/MACHINE.md, "Layout".
#[derive(Clone, Copy, Debug, PartialEq, Eq)]
pub struct Span {
    pub from: i32,
    pub len: u32,
}

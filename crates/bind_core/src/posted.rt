use kind_core::{EventKind, Name};

/// An event of a widget, on its way to the client that bound it. docs/MACHINE.md, "Kept events", has the rule.
#[derive(Clone, Copy, Debug, PartialEq, Eq)]
pub struct Posted {
    /// The tag that the binding gave.
    pub tag: Name,
    /// What happened.
    pub event: EventKind,
    /// The first number: the column within the widget in pixels from 0, which is negative to its left, or a key's
    /// code or a value.
    pub a: i32,
    /// The second number: the row within the widget in pixels from 0, which is negative above it, or 0.
    pub b: i32,
}

use kind_core::{Attr, Cell, EventKind, Name, Value};

/// A change of one row: what each makes of it is said in specs/Changes.antt. See docs/MACHINE.md, "Widgets".
#[derive(Drop)]
pub enum Change {
    /// The attribute has that value.
    Attribute { attr: Attr, value: Value },
    /// The column, 1 to 16, has that size in pixels and that weight.
    ColumnRule { index: u32, rule: (u32, u32) },
    /// The row, 1 to 16, has that size in pixels and that weight.
    RowRule { index: u32, rule: (u32, u32) },
    /// It is linked to the Variable of that name, or to none.
    Link { variable: Option<Name> },
    /// The event is bound to that tag, or to none.
    Binding { event: EventKind, tag: Option<Name> },
    /// It hangs in the widget of that name, in that cell, or in none.
    Attached { attached: Option<(Name, Cell)> },
}

/// There is no memory for the call, which changed nothing.
#[derive(Clone, Copy, Debug, PartialEq, Eq)]
pub struct NoMemory;

/// The widget hangs in another, has a child, is linked by another, or is an admitted VScreen.
#[derive(Clone, Copy, Debug, PartialEq, Eq)]
pub struct InUse;

/// Why a widget can't be added. See docs/GUIDE.md, "Commands".
#[derive(Clone, Copy, Debug, PartialEq, Eq)]
pub enum AddRefusal {
    /// The client has a widget of that name.
    NameTaken,
    /// The client has that many already: 128 widgets, or 8 Windows, or 8 VScreens.
    Full { limit: u32 },
    /// There is no memory.
    NoMemory,
}

/// Why a widget can't hang in another. See docs/GUIDE.md, "Commands".
#[derive(Clone, Copy, Debug, PartialEq, Eq)]
pub enum AttachRefusal {
    /// The parent isn't a Window, Grid or Frame, or the child is a Window or a Variable.
    WrongKind,
    /// The child hangs in a widget already.
    HasParent,
    /// The child is the parent, or above it.
    Cycle,
    /// The tree would have more than 12 levels.
    TooDeep,
    /// The cell has a child.
    CellTaken,
}

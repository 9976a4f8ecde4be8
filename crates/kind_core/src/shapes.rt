/// Where in its parent a child stands: column and row count from 1, and `pad` pixels are left free on each
/// side.
#[derive(Clone, Copy, Debug, PartialEq, Eq)]
pub struct Cell {
    pub column: u32,
    pub row: u32,
    pub pad: u32,
}

/// The screen and the work on it: width and height in pixels, the budget of pixels that one tick may write,
/// and the part of it that is spared for work that isn't periodic.
#[derive(Clone, Copy, Debug, PartialEq, Eq)]
pub struct Shape {
    pub width: u32,
    pub height: u32,
    pub budget: u32,
    pub spare: u32,
}

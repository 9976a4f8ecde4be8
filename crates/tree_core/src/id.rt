/// The number of a row, below 2,048. It names its row until that row is removed. See docs/MACHINE.md,
/// "Widgets".
#[derive(Clone, Copy, Debug, Default, PartialEq, Eq)]
pub struct Id {
    pub key: u32,
}

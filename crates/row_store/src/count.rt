/// How many widgets a client has, and how many of them are Windows and VScreens. See docs/MACHINE.md,
/// "Widgets".
#[derive(Clone, Copy)]
pub struct Count {
    /// All widgets, 0 to 128.
    pub widgets: u32,
    /// The Windows among them, 0 to 8.
    pub windows: u32,
    /// The VScreens among them, 0 to 8.
    pub screens: u32,
}

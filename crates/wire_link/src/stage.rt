//! How far the next line has come in.

/// How far the next line has come in: its line feed isn't in; it is whole and no payload follows; its payload of so
/// many bytes follows; or it is a bad frame line, with its place.
#[derive(Clone, Copy, Debug, PartialEq, Eq)]
pub enum Stage {
    Open,
    Whole,
    Filling { size: u32 },
    Bad { place: u32 },
}

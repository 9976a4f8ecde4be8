/// What the pointer and the keyboard do: the pointer goes to a pixel (counted from 0), its button goes down
/// or up, or a key gives its byte.
#[derive(Clone, Copy, Debug, PartialEq, Eq)]
pub enum Input {
    Motion { x: u32, y: u32 },
    Press,
    Release,
    Key { byte: u8 },
}

/// What one tick drew, in pixels: of the bands of admitted VScreens, of the queue of dirty pixels, and how
/// many dirty pixels are left.
#[derive(Clone, Copy, Debug, PartialEq, Eq)]
pub struct Drew {
    pub bands: u32,
    pub queue: u32,
    pub left: u32,
}

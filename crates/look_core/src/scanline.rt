/// Where a span of pixels lies: in row `y` of a widget of `w` by `h`, from column `from` on (both from 0). Its
/// length is that of the bytes that are written.
#[derive(Clone, Copy, Debug)]
pub struct Scanline {
    pub w: u32,
    pub h: u32,
    pub y: u32,
    pub from: u32,
}

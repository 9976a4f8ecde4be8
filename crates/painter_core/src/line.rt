/// A part of row `y` of a widget of `w` by `h` pixels: the columns from `from` up to `to`, this one left out.
#[derive(Clone, Copy, Debug)]
pub struct Line {
    pub w: u32,
    pub h: u32,
    pub y: u32,
    pub from: u32,
    pub to: u32,
}

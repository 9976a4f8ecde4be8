/// The knob of a Scale or Scrollbar: from its first place in the trough, `len` places long.
#[derive(Clone, Copy, Debug)]
pub struct Knob {
    pub from: u32,
    pub len: u32,
}

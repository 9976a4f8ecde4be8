/// Want of memory, the one reason for which a call of this crate is refused.
#[derive(Clone, Copy, Debug, PartialEq, Eq)]
pub struct NoMemory;

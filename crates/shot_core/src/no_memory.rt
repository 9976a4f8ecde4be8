/// Want of memory, the one reason for which a shot isn't made.
#[derive(Clone, Copy, Debug, PartialEq, Eq)]
pub struct NoMemory;

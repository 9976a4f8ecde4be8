//! Want of memory.

/// Want of memory, the one reason for which a framer isn't made.
#[derive(Clone, Copy, Debug, PartialEq, Eq)]
pub struct NoMemory;

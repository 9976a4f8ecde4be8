/// Want of memory, the one reason for which a turnstile isn't made.
#[derive(Clone, Copy, Debug, PartialEq, Eq)]
pub struct NoMemory;

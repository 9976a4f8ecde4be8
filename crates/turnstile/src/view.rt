//! What a pass knows. It stands in proofs alone: no value of these types is made.
use std::collections::LinkedList;

/// Where a pass is. `Spent` is one that was joined into another.
pub enum Stage {
    Spent,
    Out,
    /// With the ticket that it drew.
    Waits(u64),
    /// With its ticket.
    Inside(u64),
}

/// A number, the entries that were added under it, and the entries that were seen last.
pub struct Part<E> {
    pub number: u64,
    pub mine: LinkedList<E>,
    pub seen: LinkedList<E>,
}

/// What a pass knows: how many passes were made, how many entries the value had at the opening,
/// where the pass is, its own part, and the parts of the passes that were joined into it.
pub struct View<E> {
    pub made: u64,
    pub opening: u64,
    pub stage: Stage,
    pub own: Part<E>,
    pub joined: LinkedList<Part<E>>,
}

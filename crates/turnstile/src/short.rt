use crate::kept::Kept;
use crate::pass::Pass;

/// Fewer passes were given to be gathered than were made. They come back.
#[derive(Drop)]
pub struct Short<V: Kept> {
    /// The passes that were given, as they were.
    pub passes: Vec<Pass<V>>,
    /// How many were given.
    pub given: u32,
    /// How many were made with the turnstile.
    pub made: u32,
}

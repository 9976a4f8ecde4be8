use crate::kept::Kept;
use crate::pass::Pass;
use crate::turnstile::Turnstile;

/// Fewer passes were given to take a turnstile down than were made. All comes back.
#[derive(Drop)]
pub struct Missing<V: Kept> {
    /// The turnstile, as it was.
    pub gate: Turnstile<V>,
    /// The passes that were given, as they were.
    pub passes: Vec<Pass<V>>,
    /// How many were given.
    pub given: u32,
    /// How many were made with the turnstile.
    pub made: u32,
}

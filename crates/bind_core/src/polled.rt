use crate::posted::Posted;

/// What a client is told when it polls. docs/MACHINE.md, "Kept events", has the rule.
#[derive(Clone, Copy, Debug, PartialEq, Eq)]
pub enum Polled {
    /// So many events were lost since the client was last told: at least 1, and at 4,294,967,295 so many or more.
    Lost(u32),
    /// The oldest kept event, which is kept no longer.
    One(Posted),
    /// No event is kept, and none was lost.
    Empty,
}

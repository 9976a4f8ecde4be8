use thiserror::Error;

/// A fault of reading or of writing. It is answered only by a call in which the count of faults of
/// the object rose (`docs/MACHINE.md`).
#[derive(Debug, Drop, PartialEq, Eq, Error)]
#[error("the outside failed")]
pub struct Failed;

//! The laws of how bytes are cut, over the definitions alone. Each is a function without parameters whose contract is
//! the law.
ghost use Rattle.wire_link.specs.Laws.{OneCut, CutsStay};

/// The bytes that wait tell what comes next: one answer, one line and one payload.
pub fn one_cut()
    ensures { OneCut }
{}

/// Bytes that come in behind change nothing of what comes next: so which lines come doesn't depend on how the bytes
/// were cut.
pub fn cuts_stay()
    ensures { CutsStay }
{}

//! Laws over the definitions: what a ring promises over whole runs of posts and polls. Each function does nothing;
//! its contract is the law. The rule is in docs/MACHINE.md, "Kept events".

ghost use Rattle.bind_core.specs.Laws.{KeepsTheLatest, TellsAll};

/// Whatever is posted, the latest 32 of all events are kept, in their order, and each other one is counted as lost.
pub fn keeps_the_latest()
    ensures { KeepsTheLatest }
{}

/// Polls tell the number lost, where it is above 0, and then each kept event, the oldest first; nothing is left then.
pub fn tells_all()
    ensures { TellsAll }
{}

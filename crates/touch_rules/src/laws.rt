//! Laws over the definitions. Each function does nothing; its contract is the law.

ghost use Rattle.touch_rules.specs.Films.{CommandsShowAnew};
ghost use Rattle.touch_rules.specs.Laws.{WatchedLooksAreEnough, LeavingTouchesNothing, StayingTouchesNothing};
ghost use Rattle.touch_rules.specs.Telling.{StepsTellLooks, InputsTellLooks};

/// A command that is done changes what one VScreen shows at most, the one that the definitions name; a refused one
/// changes what none shows.
pub fn commands_show_anew()
    ensures { CommandsShowAnew }
{}

/// After an event that keeps to its scope it is enough to compare the watched looks, and what the VScreen shows that the
/// event shows anew.
pub fn watched_looks_are_enough()
    ensures { WatchedLooksAreEnough }
{}

/// A client that leaves touches no look.
pub fn leaving_touches_nothing()
    ensures { LeavingTouchesNothing }
{}

/// Where the rows, the open windows and the pointer stay, no look is touched.
pub fn staying_touches_nothing()
    ensures { StayingTouchesNothing }
{}

/// What is kept before a client's command, and told after it, is exactly what it touched.
pub fn steps_tell_looks()
    ensures { StepsTellLooks }
{}

/// The same of an input.
pub fn inputs_tell_looks()
    ensures { InputsTellLooks }
{}

//! Laws of the desk, over the definitions alone. Each is a function without parameters whose contract is the
//! law. docs/MACHINE.md reads them in prose.

ghost use Rattle.desk_model.specs.OwnPart.{CommandsLeaveOthers, ConnectsLeaveOthers, HellosLeaveOthers, ByesLeaveOthers, AnswersDependOnOwnPart, ConnectsDependOnOwnPart, ByesDependOnOwnPart};
ghost use Rattle.desk_model.specs.DeskLaws.{OpeningIsADesk, ConnectsKeepDesks, HellosKeepDesks, ByesKeepDesks, CommandsKeepDesks, InputsKeepDesks, BeatsKeepDesks, RefusedConnectsChangeNothing, RefusedHellosChangeNothing, RefusedByesChangeNothing, RefusedCommandsChangeNothing};
ghost use Rattle.desk_model.specs.Scope.{CommandsKeepToTheirScope, InputsKeepToTheirScope};
ghost use Rattle.desk_model.specs.InPlace.{CommandsLeaveHung, InputsLeaveHung};

/// What holds of a desk holds at opening.
pub fn the_opening_desk_is_a_desk()
    ensures { OpeningIsADesk }
{}

/// A client that connects, 1 to 16, leaves a desk of which all that holds of a desk holds.
pub fn a_connect_keeps_what_holds()
    ensures { ConnectsKeepDesks }
{}

/// A client that says hello does the same.
pub fn a_hello_keeps_what_holds()
    ensures { HellosKeepDesks }
{}

/// A client that says bye does the same.
pub fn a_bye_keeps_what_holds()
    ensures { ByesKeepDesks }
{}

/// Each command does the same, whatever it is and however it is answered.
pub fn a_command_keeps_what_holds()
    ensures { CommandsKeepDesks }
{}

/// Each input does the same, whatever it is.
pub fn inputs_keep_desks()
    ensures { InputsKeepDesks }
{}

/// Each beat does the same.
pub fn a_beat_keeps_what_holds()
    ensures { BeatsKeepDesks }
{}

/// A refused connect leaves a desk of which all that holds of a desk holds as it was, the pointer's grab and focus too.
pub fn a_refused_connect_changes_nothing()
    ensures { RefusedConnectsChangeNothing }
{}

/// A refused hello does the same.
pub fn a_refused_hello_changes_nothing()
    ensures { RefusedHellosChangeNothing }
{}

/// A refused bye does the same.
pub fn a_refused_bye_changes_nothing()
    ensures { RefusedByesChangeNothing }
{}

/// A refused command does the same, whatever it is and whichever refusal it is.
pub fn a_refused_command_changes_nothing()
    ensures { RefusedCommandsChangeNothing }
{}

/// What a client's command does leaves every other client's part as it was: whether it is connected, its rows,
/// its open windows in their order, its admissions and its events; and the shape, and the pointer but for what it
/// holds of the client's own widgets.
pub fn a_command_leaves_the_others_parts()
    ensures { CommandsLeaveOthers }
{}

/// A client that connects leaves every other client's part and the shape as they were, and the pointer as above.
pub fn a_connect_leaves_the_others_parts()
    ensures { ConnectsLeaveOthers }
{}

/// A client that says hello, under the least free number, does the same.
pub fn a_hello_leaves_the_others_parts()
    ensures { HellosLeaveOthers }
{}

/// A client that says bye leaves every other client's part and the shape as they were, and the pointer as above.
pub fn a_bye_leaves_the_others_parts()
    ensures { ByesLeaveOthers }
{}

/// Two desks of one shape that agree on whether a client is connected, on its rows with their films, on its open windows
/// and on its kept events answer each of its commands alike, under the same want of memory; `admit` where they agree on
/// the sum of the others' shares too.
pub fn answers_depend_on_the_own_part()
    ensures { AnswersDependOnOwnPart }
{}

/// Two such desks answer the client's connect alike, under the same want of memory.
pub fn connects_depend_on_the_own_part()
    ensures { ConnectsDependOnOwnPart }
{}

/// Two such desks answer the client's bye alike.
pub fn byes_depend_on_the_own_part()
    ensures { ByesDependOnOwnPart }
{}

/// A command changes no widget but the one that it names, and lets go at most of what the pointer holds.
pub fn commands_keep_to_their_scope()
    ensures { CommandsKeepToTheirScope }
{}

/// An input changes no widget but those to which it gives values, and grabs, lets go of and gives the focus to none but
/// what the pointer holds before it or asks for.
pub fn inputs_keep_to_their_scope()
    ensures { InputsKeepToTheirScope }
{}

/// A command that isn't one of those that make, hang, drop, open, close or raise leaves every widget where it hangs and the
/// open windows as they are.
pub fn commands_leave_hung()
    ensures { CommandsLeaveHung }
{}

/// The values that an input gives leave every widget where it hangs.
pub fn inputs_leave_hung()
    ensures { InputsLeaveHung }
{}

//! The laws of the command language, over the definitions alone. Each is a function without parameters whose
//! contract is the law.
ghost use Rattle.cmd_text.specs.Laws.{OneCommand, PrintedIsALine, EachLineIsTold, OnePlace, FrameLinesAreTold};

/// A line stands for at most one command.
pub fn one_command()
    ensures { OneCommand }
{}

/// The printed form of a command that has a line is itself a line, and stands for the command: so `parse`
/// reads it back where it has at most 512 bytes.
pub fn printed_is_a_line()
    ensures { PrintedIsALine }
{}

/// Each line stands for a command, or stands for none and has a place; of a line of any length.
pub fn each_line_is_told()
    ensures { EachLineIsTold }
{}

/// A line has at most one place.
pub fn one_place()
    ensures { OnePlace }
{}

/// Each line is a frame line or isn't one.
pub fn frame_lines_are_told()
    ensures { FrameLinesAreTold }
{}

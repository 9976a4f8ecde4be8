//! Laws of a script's lines, over the definitions alone. Each is a function without parameters whose contract
//! is the law.
ghost use Rattle.script_lines.specs.Laws.{OneOrder, EachLineIsTold, CommentsAskForNothing, CommandsAreAsked, OthersAreMisread, AskedWasSaid, MisreadWasSaid, BadFrameLinesAreOff, OnePayload, PayloadsAreSmall};

/// A line asks for at most one thing.
pub fn one_order()
    ensures { OneOrder }
{}

/// Each line, of any length, asks for something or is off the grammar.
pub fn each_line_is_told()
    ensures { EachLineIsTold }
{}

/// An empty line and each comment ask for nothing.
pub fn comments_ask_for_nothing()
    ensures { CommentsAskForNothing }
{}

/// A client's line that stands for a command asks for that command, where the client may say it.
pub fn commands_are_asked()
    ensures { CommandsAreAsked }
{}

/// A client's line that stands for no command is misread, with its place in what the client said.
pub fn others_are_misread()
    ensures { OthersAreMisread }
{}

/// A command that a line asks for is the one that its client said in that line.
pub fn asked_was_said()
    ensures { AskedWasSaid }
{}

/// In a misread line its client said no command, and the place is that of what it said.
pub fn misread_was_said()
    ensures { MisreadWasSaid }
{}

/// A frame line that stands for no command, or with whose command more bytes come than may, is off the grammar.
pub fn bad_frame_lines_are_off()
    ensures { BadFrameLinesAreOff }
{}

/// How many raw bytes follow a line is told by the line.
pub fn one_payload()
    ensures { OnePayload }
{}

/// No more raw bytes follow a line than a frame may have, 65,536.
pub fn payloads_are_small()
    ensures { PayloadsAreSmall }
{}

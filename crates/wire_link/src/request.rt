//! What a session's line asks for.
use cmd_text::{Command, Input};

/// What a session's line asks for: to become a client or a console; a client's command, or a command that comes before
/// its `hello`; nothing that there is, with the line's place; an input or a tick of a console; or that the session
/// ends.
#[derive(Debug, Drop, PartialEq)]
pub enum Request {
    Hello,
    Watch,
    Ask { command: Command },
    Unconnected,
    Misread { place: u32 },
    Feed { input: Input },
    Tick,
    Bye,
}

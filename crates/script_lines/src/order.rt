//! What a line of a script asks for.
use cmd_text::{Command, Input};

/// What a line of a script asks for. A client is a number from 1 to 16.
/// See docs/GUIDE.md, "The script".
#[derive(Debug, Drop, PartialEq)]
pub enum Order {
    /// Nothing: an empty line or a comment.
    Nothing,
    /// That the client connects.
    Connect { client: u32 },
    /// That the client leaves.
    Bye { client: u32 },
    /// The client's command.
    Ask { client: u32, command: Command },
    /// The client's line is no command: its longest front that begins some command has so many bytes, counted
    /// from the first behind the client's number and its space.
    Misread { client: u32, place: u32 },
    /// That the pointer or the keyboard does this: it goes to the pixel that is x pixels from the left and y from the
    /// top, each 0 to 9,999; its button goes down or up; or a key gives its byte.
    Feed { input: Input },
    /// So many ticks, 1 to 1,000.
    Ticks { count: u32 },
    /// How many pixels are dirty.
    Dirty,
    /// What the pixel shows that is x pixels from the left and y from the top, each 0 to 9,999.
    Pixel { x: u32, y: u32 },
    /// The screen.
    Dump,
}

use crate::payload::Payload;
use cmd_words::{Command, Drew, Input, Reply};

/// What a session asks of the server. A client number is 1 to 16. docs/MACHINE.md, "The journal".
#[derive(Debug, Drop)]
pub enum Event {
    /// A client connects under the least free number.
    Hello,
    /// A client's command, with the bytes that come with it.
    Ask {
        client: u32,
        command: Command,
        payload: Payload,
    },
    /// A client leaves.
    Bye {
        client: u32,
    },
    /// A console's input.
    Feed {
        input: Input,
    },
    /// A console's tick.
    Tick,
}

/// What an event was answered: a tick with what it drew, any other with the server's reply.
#[derive(Clone, Copy, Debug, PartialEq, Eq)]
pub enum Answer {
    Reply(Reply),
    Drew(Drew),
}

/// One entry of the journal: which seat asked, what it asked, and what it was answered.
#[derive(Debug, Drop)]
pub struct Entry {
    /// The number of the seat, from 0.
    pub seat: u32,
    pub event: Event,
    pub answer: Answer,
}

use kind_core::{EventKind, Name, Text};

/// What a client is answered.
#[derive(Clone, Copy, Debug, PartialEq, Eq)]
pub enum Reply {
    Done,
    Number(i32),
    Words(Text),
    /// An event that was kept, with the tag of its binding.
    Event {
        tag: Name,
        event: EventKind,
        a: i32,
        b: i32,
    },
    /// No event is kept.
    NoEvent,
    /// So many events were dropped since the last poll.
    Lost(u32),
    Refused(Refusal),
}

/// Why a command was refused. The numbers that clients see stand in docs/GUIDE.md, "Errors".
#[derive(Clone, Copy, Debug, PartialEq, Eq)]
pub enum Refusal {
    Memory,
    Syntax { place: u32 },
    NameTaken,
    NoSuchName,
    WrongKind,
    BadValue { least: i32, greatest: i32 },
    Full { limit: u32 },
    HasParent,
    Cycle,
    TooDeep,
    CellTaken,
    AlreadyOpen,
    NotOpen,
    NoMode,
    Admitted,
    Budget { need: u32, left: u32 },
    NotAdmitted,
    FrameSize { want: u32, got: u32 },
    InUse,
    NotConnected,
    NotHere,
    Connected,
}

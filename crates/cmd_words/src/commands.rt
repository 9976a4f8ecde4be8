use crate::lists::Options;
use kind_core::{Attr, EventKind, Kind, Name, Value};

/// The options of `place`.
#[derive(Clone, Copy, Debug, Default, PartialEq, Eq)]
pub enum PlaceOption {
    #[default]
    Column,
    Row,
    Pad,
}

/// The options of `columnconfig` and `rowconfig`.
#[derive(Clone, Copy, Debug, Default, PartialEq, Eq)]
pub enum ConfigOption {
    #[default]
    Size,
    Weight,
}

/// A client's command. Names are the client's own; numbers are as written, before any check of their range.
/// What each command does stands in docs/GUIDE.md.
#[derive(Debug, Drop, PartialEq)]
pub enum Command {
    New {
        name: Name,
        kind: Kind,
    },
    Set {
        name: Name,
        options: Options<(Attr, Value)>,
    },
    Get {
        name: Name,
        attr: Attr,
    },
    Place {
        parent: Name,
        child: Name,
        options: Options<(PlaceOption, i32)>,
    },
    Lift {
        parent: Name,
        child: Name,
    },
    ColumnConfig {
        name: Name,
        index: i32,
        options: Options<(ConfigOption, i32)>,
    },
    RowConfig {
        name: Name,
        index: i32,
        options: Options<(ConfigOption, i32)>,
    },
    Link {
        name: Name,
        variable: Name,
    },
    Unlink {
        name: Name,
    },
    Bind {
        name: Name,
        event: EventKind,
        tag: Name,
    },
    Unbind {
        name: Name,
        event: EventKind,
    },
    OpenWindow {
        name: Name,
    },
    CloseWindow {
        name: Name,
    },
    TopWindow {
        name: Name,
    },
    Mode {
        name: Name,
        w: i32,
        h: i32,
    },
    Admit {
        name: Name,
        period: i32,
    },
    Leave {
        name: Name,
    },
    SendFrame {
        name: Name,
        size: u32,
    },
    DropWidget {
        name: Name,
    },
    Poll,
}

//! Values that are read and printed as words.
ghost use Rattle.cmd_words.specs.Words.{kind_word, attr_word, event_word, place_word, config_word, method_word};

use crate::commands::{ConfigOption, PlaceOption};
use crate::methods::Method;
use kind_core::{Attr, EventKind, Kind};

/// A value that is written as a word.
pub trait Word: Copy {
    ghost use Rattle.std.specs.Prelude.{◌≡◌, ◌≤◌, length, IsTrue, List, ℕ};
    ghost use Rattle.std.specs.List.{list_all};
    ghost use Rattle.kind_core.specs.Bytes.{is_printable};

    ghost spelling: { Self → List ℕ };

    /// The word, of at most 12 bytes.
    fn word(self) -> &'static [u8]
        ensures word { result.now ≡ spelling self }
        ensures prints { IsTrue (list_all is_printable result.now) }
        ensures short { length result.now ≤ 12 };
}

impl Word for Kind {
    ghost spelling = { kind_word };

    fn word(self) -> &'static [u8] {
        match self {
            Kind::Window => b"Window",
            Kind::Grid => b"Grid",
            Kind::Frame => b"Frame",
            Kind::Button => b"Button",
            Kind::Label => b"Label",
            Kind::Entry => b"Entry",
            Kind::Scale => b"Scale",
            Kind::Scrollbar => b"Scrollbar",
            Kind::Variable => b"Variable",
            Kind::VScreen => b"VScreen",
        }
    }
}

impl Word for Attr {
    ghost spelling = { attr_word };

    fn word(self) -> &'static [u8] {
        match self {
            Attr::X => b"x",
            Attr::Y => b"y",
            Attr::W => b"w",
            Attr::H => b"h",
            Attr::Title => b"title",
            Attr::Text => b"text",
            Attr::Caret => b"caret",
            Attr::Cols => b"cols",
            Attr::Value => b"value",
            Attr::Max => b"max",
            Attr::Real => b"real",
            Attr::View => b"view",
            Attr::Vert => b"vert",
        }
    }
}

impl Word for EventKind {
    ghost spelling = { event_word };

    fn word(self) -> &'static [u8] {
        match self {
            EventKind::Press => b"press",
            EventKind::Release => b"release",
            EventKind::Click => b"click",
            EventKind::Key => b"key",
            EventKind::Change => b"change",
            EventKind::Motion => b"motion",
            EventKind::Move => b"move",
        }
    }
}

impl Word for PlaceOption {
    ghost spelling = { place_word };

    fn word(self) -> &'static [u8] {
        match self {
            PlaceOption::Column => b"column",
            PlaceOption::Row => b"row",
            PlaceOption::Pad => b"pad",
        }
    }
}

impl Word for ConfigOption {
    ghost spelling = { config_word };

    fn word(self) -> &'static [u8] {
        match self {
            ConfigOption::Size => b"size",
            ConfigOption::Weight => b"weight",
        }
    }
}

impl Word for Method {
    ghost spelling = { method_word };

    fn word(self) -> &'static [u8] {
        match self {
            Method::Set => b"set",
            Method::Get => b"get",
            Method::Place => b"place",
            Method::Lift => b"lift",
            Method::ColumnConfig => b"columnconfig",
            Method::RowConfig => b"rowconfig",
            Method::Link => b"link",
            Method::Unlink => b"unlink",
            Method::Bind => b"bind",
            Method::Unbind => b"unbind",
            Method::Open => b"open",
            Method::Close => b"close",
            Method::Top => b"top",
            Method::Mode => b"mode",
            Method::Admit => b"admit",
            Method::Leave => b"leave",
            Method::Frame => b"frame",
            Method::Drop => b"drop",
        }
    }
}

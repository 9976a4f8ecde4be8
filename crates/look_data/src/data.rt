ghost use Rattle.std.specs.Prelude.{◌≡◌};
ghost use Rattle.look_core.specs.Same.{same_look};
ghost use Rattle.look_data.specs.Data.{seen_in};

use crate::same::{
    is_button, is_entry, is_film, is_frame, is_grid, is_label, is_no_film, is_scale, is_scrollbar,
    is_window,
};
use kind_core::Text;

/// What a widget looks like, but for its size and a film's bytes: all else that its pixels are made from, in a value
/// of its own that outlives a change of the widget. Numbers are effective ones, as in look_core's `Look`. Contracts
/// see it as a look (`Seen`) whose film has no bytes. See docs/GUIDE.md, "Looks".
#[derive(Clone, Copy, Debug)]
pub enum LookData {
    Window {
        title: Text,
    },
    Grid,
    Frame,
    Button {
        text: Text,
        held: bool,
    },
    /// It shows its text, and then the number of its Variable in decimal, where it is linked to one.
    Label {
        text: Text,
        number: Option<i32>,
    },
    Entry {
        text: Text,
        /// How many of the text's bytes are left of the caret.
        caret: u32,
        focus: bool,
    },
    Scale {
        value: u32,
        max: u32,
        vert: bool,
        held: bool,
    },
    Scrollbar {
        value: u32,
        real: u32,
        view: u32,
        vert: bool,
        held: bool,
    },
    /// A VScreen with a film of so many pixels; its bytes are not kept.
    Film {
        width: u32,
        height: u32,
    },
    /// A VScreen without a film, or a Variable, which is never shown.
    NoFilm,
}

impl Default for LookData {
    /// What lies in an unused place of a list of fixed capacity.
    fn default() -> Self {
        LookData::NoFilm
    }
}

impl LookData {
    /// Whether both are of one kind and equal in all that is kept of them: then widgets of one size and, for a film,
    /// with the same shown bytes show the same pixels. See docs/GUIDE.md, "Looks".
    pub fn is_same(&self, other: &LookData) -> bool
        ensures { result ≡ same_look (seen_in self.now) (seen_in other.now) }
    {
        match self {
            LookData::Window { title } => is_window(other, title),
            LookData::Grid => is_grid(other),
            LookData::Frame => is_frame(other),
            LookData::Button { text, held } => is_button(other, text, *held),
            LookData::Label { text, number } => is_label(other, text, *number),
            LookData::Entry { text, caret, focus } => is_entry(other, text, *caret, *focus),
            LookData::Scale {
                value,
                max,
                vert,
                held,
            } => is_scale(other, *value, *max, *vert, *held),
            LookData::Scrollbar {
                value,
                real,
                view,
                vert,
                held,
            } => is_scrollbar(other, *value, *real, *view, *vert, *held),
            LookData::Film { width, height } => is_film(other, *width, *height),
            LookData::NoFilm => is_no_film(other),
        }
    }
}

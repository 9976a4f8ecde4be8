use kind_core::Text;

/// What a widget shows, but for its size: all that its pixels are made from (docs/GUIDE.md, "Looks"). Widgets
/// with equal looks and equal sizes show equal pixels. Variables show nothing. Contracts see a look as the plain
/// data `Seen`, with lists of bytes for its texts.
///
/// The numbers are effective ones: a Scale's `value` goes from 0 to `max`, a Scrollbar's from 0 to
/// `real - view`. A widget is `held` while the pointer that was pressed on it isn't released, and has the
/// `focus` where keys go to it.
#[derive(Clone, Copy, Debug)]
pub enum Look<'a> {
    WindowLook {
        title: &'a Text,
    },
    GridLook,
    FrameLook,
    ButtonLook {
        text: &'a Text,
        held: bool,
    },
    LabelLook {
        /// Its text and then the linked number in decimal, as bytes.
        shown: &'a [u8],
    },
    EntryLook {
        text: &'a Text,
        /// How many of the text's bytes are left of the caret.
        caret: u32,
        focus: bool,
    },
    ScaleLook {
        value: u32,
        max: u32,
        vert: bool,
        held: bool,
    },
    ScrollLook {
        value: u32,
        real: u32,
        view: u32,
        vert: bool,
        held: bool,
    },
    /// A VScreen with a film of `w` by `h` pixels.
    FilmLook {
        w: u32,
        h: u32,
        /// The shown bytes of one row of the film: the row that is drawn.
        row: &'a [u8],
    },
    /// A VScreen without a film.
    NoFilm,
}

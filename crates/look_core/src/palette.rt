//! The palette numbers that looks use. A film's frames may hold any byte.

/// The ink of texts.
pub const INK: u8 = 0;
/// The ground of a Window, a Grid, a Frame and a Label.
pub const GROUND: u8 = 3;
/// Lines: the edges of a Window, a Button and an Entry without focus, and the line of a Scale.
pub const LINE: u8 = 4;
/// The ground of a Window's title.
pub const TITLE_GROUND: u8 = 5;
/// The ink of a Window's title.
pub const TITLE_INK: u8 = 6;
/// The face of a Button.
pub const FACE: u8 = 7;
/// The face of a Button that is held.
pub const HELD_FACE: u8 = 8;
/// The trough of a Scale or Scrollbar.
pub const TROUGH: u8 = 9;
/// The knob of a Scale or Scrollbar.
pub const KNOB: u8 = 10;
/// The knob of a Scale or Scrollbar that is held.
pub const HELD_KNOB: u8 = 11;
/// The ground of an Entry.
pub const ENTRY_GROUND: u8 = 12;
/// The edge of an Entry that has the focus, and its caret.
pub const FOCUS: u8 = 13;
/// The ground of a VScreen.
pub const FILM_GROUND: u8 = 14;

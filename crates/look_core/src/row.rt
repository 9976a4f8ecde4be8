ghost use Rattle.std.specs.Prelude.{◌≡◌, ℕ, ◌+◌, ◌-◌, ◌≤◌, ◌<◌, length, slice_index};
ghost use Rattle.look_core.specs.Seen.{Seen, seen, in_row};
ghost use Rattle.look_core.specs.Drawable.{IsDrawable};
ghost use Rattle.look_core.specs.Colour.{colour_in_row, colour_of};

use crate::bars::{scale_span, scrollbar_span};
use crate::boxes::{button_span, entry_span, label_span, window_span};
use crate::films::film_span;
use crate::look::Look;
use crate::palette::{FILM_GROUND, GROUND};
use crate::scanline::Scanline;
use crate::strokes::lay_ground;

/// Writes into `out` the palette numbers of the pixels from (`from`, `y`) up to (`to`, `y`), this one left out,
/// of a widget of `w` by `h` pixels that shows the look. Columns and rows count from 0, from the widget's upper
/// left corner. docs/GUIDE.md, "Looks", says what each kind shows at each pixel.
///
/// The numbers of the look have to be in step with one another, as effective numbers are (docs/MACHINE.md,
/// "Looks"), and a film's `row` is its row `y`, or any bytes below the film. A text may have any bytes: those
/// that don't print have blank glyphs.
///
/// It costs one fill of the span and work in the letters that the span crosses.
#[tactic(auto, unfolding(crate::specs::Colour::colour_in_row, crate::specs::Colour::colour_of))]
pub fn row_span(look: &Look<'_>, w: u32, h: u32, y: u32, from: u32, to: u32, out: &mut [u8])
    requires order { from ≤ to }
    requires columns { to ≤ w }
    requires wide { w ≤ 4128 }
    requires row { y < h }
    requires high { h ≤ 4128 }
    requires room { length out.old ≡ to - from }
    requires drawable { IsDrawable y (seen look.now) }
    ensures pixels { (i : ℕ) → i < to - from
        → slice_index out.new i ≡ colour_in_row (seen look.now) w h (from + i) y }

    // The same from a whole look, of which this one is that of row y.
    ensures whole { (shown : Seen) → in_row y shown ≡ seen look.now
        → (i : ℕ) → i < to - from → slice_index out.new i ≡ colour_of shown w h (from + i) y }
{
    let line = Scanline { w, h, y, from };
    match *look {
        Look::WindowLook { title } => window_span(out, line, title.as_slice()),
        Look::GridLook | Look::FrameLook => lay_ground(out, GROUND),
        Look::ButtonLook { text, held } => button_span(out, line, text.as_slice(), held),
        Look::LabelLook { shown } => label_span(out, line, shown),
        Look::EntryLook { text, caret, focus } => {
            entry_span(out, line, text.as_slice(), caret, focus)
        }
        Look::ScaleLook {
            value,
            max,
            vert,
            held,
        } => scale_span(out, line, value, max, vert, held),
        Look::ScrollLook {
            value,
            real,
            view,
            vert,
            held,
        } => scrollbar_span(out, line, value, real, view, vert, held),
        Look::FilmLook { w, h, row } => film_span(out, line, w, h, row),
        Look::NoFilm => lay_ground(out, FILM_GROUND),
    }
}

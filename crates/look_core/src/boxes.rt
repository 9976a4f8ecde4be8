ghost use Rattle.std.specs.Prelude.{◌≡◌, ◌≤◌, ◌<◌, ◌&&◌, ◌||◌, nat_lt, length, if◌then◌else◌};
ghost use Rattle.look_core.specs.Span.{IsWithin, Shows};
ghost use Rattle.look_core.specs.Cases.{is_side, window_colour, label_colour, button_colour, entry_colour};

use crate::lettering::write_text;
use crate::palette::{
    ENTRY_GROUND, FACE, FOCUS, GROUND, HELD_FACE, INK, LINE, TITLE_GROUND, TITLE_INK,
};
use crate::scanline::Scanline;
use crate::strokes::{lay_column, lay_ground, lay_sides};

/// Writes the span of a Window: its title, its ground and its edge.
#[tactic(auto, unfolding(crate::specs::Cases::window_colour))]
pub fn window_span(out: &mut [u8], line: Scanline, title: &[u8])
    requires { IsWithin line (length out.old) }
    ensures { Shows (window_colour title.now line.w line.h) line out.new }
{
    if is_side(line.h, line.y) {
        lay_ground(out, LINE);
        return;
    }
    if line.y < 12 {
        lay_ground(out, TITLE_GROUND);
        write_text(out, line, title, 3, 2, TITLE_INK);
    } else {
        lay_ground(out, GROUND);
    }
    lay_sides(out, line.from, line.w, LINE);
}

/// Writes the span of a Label: the ink of what it shows, over its ground.
#[tactic(auto, unfolding(crate::specs::Cases::label_colour))]
pub fn label_span(out: &mut [u8], line: Scanline, shown: &[u8])
    requires { IsWithin line (length out.old) }
    ensures { Shows (label_colour shown.now) line out.new }
{
    lay_ground(out, GROUND);
    write_text(out, line, shown, 2, 2, INK);
}

/// Writes the span of a Button: its text over its face, and its edge.
#[tactic(auto, unfolding(crate::specs::Cases::button_colour))]
pub fn button_span(out: &mut [u8], line: Scanline, text: &[u8], held: bool)
    requires { IsWithin line (length out.old) }
    ensures { Shows (button_colour text.now held line.w line.h) line out.new }
{
    if is_side(line.h, line.y) {
        lay_ground(out, LINE);
        return;
    }
    lay_ground(out, if held { HELD_FACE } else { FACE });
    write_text(out, line, text, 4, 4, INK);
    lay_sides(out, line.from, line.w, LINE);
}

/// Writes the span of an Entry: its text over its ground, with the focus its caret, and its edge.
#[tactic(auto, unfolding(crate::specs::Cases::entry_colour))]
pub fn entry_span(out: &mut [u8], line: Scanline, text: &[u8], caret: u32, focus: bool)
    requires within { IsWithin line (length out.old) }
    requires caret { caret ≤ 64 }
    ensures { Shows (entry_colour text.now caret focus line.w line.h) line out.new }
{
    let edge = if focus { FOCUS } else { LINE };
    if is_side(line.h, line.y) {
        lay_ground(out, edge);
        return;
    }
    lay_ground(out, ENTRY_GROUND);
    write_text(out, line, text, 2, 2, INK);
    if focus && 2 <= line.y && line.y <= 9 {
        lay_column(out, line.from, 2 + 6 * caret, FOCUS);
    }
    lay_sides(out, line.from, line.w, edge);
}

/// Whether the row or column is the first or last of so many.
fn is_side(count: u32, t: u32) -> bool
    requires { t < count }
    ensures { result ≡ is_side count t }
{
    t == 0 || t == count - 1
}

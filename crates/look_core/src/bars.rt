ghost use Rattle.std.specs.Prelude.{◌≡◌, ◌≤◌, ◌<◌, ◌-◌, ◌&&◌, length, if◌then◌else◌};
ghost use Rattle.look_core.specs.Span.{IsWithin, Shows};
ghost use Rattle.look_core.specs.Knob.{is_on_knob, trough_length};
ghost use Rattle.look_core.specs.Cases.{scale_colour, scrollbar_colour, knob_colour};

use crate::knob::Knob;
use crate::palette::{HELD_KNOB, KNOB, LINE, TROUGH};
use crate::scanline::Scanline;
use crate::strokes::{lay_column, lay_columns, lay_ground};
use crate::troughs::{scale_knob, scrollbar_knob};

/// Writes the span of a Scale: its trough with its line, and its knob.
#[tactic(auto, unfolding(crate::specs::Cases::scale_colour))]
pub fn scale_span(out: &mut [u8], line: Scanline, value: u32, max: u32, vert: bool, held: bool)
    requires within { IsWithin line (length out.old) }
    requires some { 1 ≤ max }
    requires most { max ≤ 10000 }
    requires value { value ≤ max }
    ensures { Shows (scale_colour value max vert held line.w line.h) line out.new }
{
    if vert {
        let knob = scale_knob(line.h, value, max);
        if is_on_knob(knob, line.y) {
            lay_ground(out, knob_colour(held));
        } else {
            lay_ground(out, TROUGH);
            lay_column(out, line.from, line.w / 2, LINE);
        }
    } else {
        let knob = scale_knob(line.w, value, max);
        lay_ground(out, if line.y == line.h / 2 { LINE } else { TROUGH });
        lay_columns(
            out,
            line.from,
            knob.from,
            knob.from + knob.len,
            knob_colour(held),
        );
    }
}

/// Writes the span of a Scrollbar: its trough and its knob.
#[tactic(auto, unfolding(crate::specs::Cases::scrollbar_colour))]
pub fn scrollbar_span(
    out: &mut [u8],
    line: Scanline,
    value: u32,
    real: u32,
    view: u32,
    vert: bool,
    held: bool,
)
    requires within { IsWithin line (length out.old) }
    requires most { real ≤ 10000 }
    requires value { value ≤ real - view }
    ensures { Shows (scrollbar_colour value real view vert held line.w line.h) line out.new }
{
    if vert {
        let knob = scrollbar_knob(line.h, value, real, view);
        lay_ground(
            out,
            if is_on_knob(knob, line.y) {
                knob_colour(held)
            } else {
                TROUGH
            },
        );
    } else {
        let knob = scrollbar_knob(line.w, value, real, view);
        lay_ground(out, TROUGH);
        lay_columns(
            out,
            line.from,
            knob.from,
            knob.from + knob.len,
            knob_colour(held),
        );
    }
}

/// Whether a place of the trough is under the knob.
fn is_on_knob(knob: Knob, t: u32) -> bool
    ensures { result ≡ is_on_knob knob t }
{
    knob.from <= t && t - knob.from < knob.len
}

/// The colour of a knob.
fn knob_colour(held: bool) -> u8
    ensures { result ≡ knob_colour held }
{
    if held { HELD_KNOB } else { KNOB }
}

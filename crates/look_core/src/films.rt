ghost use Rattle.std.specs.Prelude.{◌≡◌, ◌≤◌, ◌<◌, length, EachIndex, slice_index, nat_lt, if◌then◌else◌};
ghost use Rattle.look_core.specs.Span.{IsWithin, Shows};
ghost use Rattle.look_core.specs.Cases.{film_colour};

use crate::palette::FILM_GROUND;
use crate::scanline::Scanline;
use crate::strokes::lay_ground;

/// Writes the span of a VScreen with a film of `w` by `h`, `row` being its shown row of the span: the film's
/// bytes, as far as the film goes, and the ground.
#[tactic(auto, unfolding(crate::specs::Cases::film_colour))]
pub fn film_span(out: &mut [u8], line: Scanline, w: u32, h: u32, row: &[u8])
    requires within { IsWithin line (length out.old) }
    requires row { line.y < h → w ≤ length row.now }
    ensures { Shows (film_colour w h row.now) line out.new }
{
    lay_ground(out, FILM_GROUND);
    if line.y < h && line.from < w {
        copy_row(out, &row[line.from as usize..w as usize]);
    }
}

/// Copies the bytes over the front of the span, as far as both go.
fn copy_row(out: &mut [u8], bytes: &[u8])
    ensures { EachIndex out.new (λ i. slice_index out.new i
        ≡ (if nat_lt i (length bytes.now) then slice_index bytes.now i else slice_index out.old i)) }
{
    let n = out.len().min(bytes.len());
    out[..n].copy_from_slice(&bytes[..n]);
}

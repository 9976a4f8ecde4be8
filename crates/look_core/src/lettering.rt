ghost use Rattle.std.specs.Prelude.{◌≡◌, ◌+◌, ◌-◌, ◌<◌, ◌≤◌, ◌&&◌, nat_le, length, slice_index};
ghost use Rattle.look_core.specs.Font.{glyph};
ghost use Rattle.look_core.specs.Ink.{is_ink, is_ink_in_row};
ghost use Rattle.look_core.specs.Span.{Lays, IsWithin};

use crate::font::{columns_of, has_pixel};
use crate::scanline::Scanline;
use crate::strokes::lay_column;

/// Writes one row (0 to 7) of a text whose first cell begins at column `x`. The bytes begin at column `from`.
/// It costs the letters whose cells meet the span.
fn write_letters(out: &mut [u8], from: u32, text: &[u8], x: u32, row: u32, colour: u8)
    requires near { x ≤ 4 }
    requires row { row < 8 }
    requires within { from + length out.old ≤ 4128 }
    ensures { Lays (is_ink_in_row text.now x row) colour from out.old out.new }
{
    let to = from as usize + out.len();
    let first = (from.saturating_sub(x) / 6) as usize;
    let end = text.len().min(to / 6 + 1);
    for k in first..end {
        write_letter(out, from, text[k], x + 6 * k as u32, row, colour);
    }
}

/// Writes one row (0 to 7) of a letter whose cell begins at column `x`.
fn write_letter(out: &mut [u8], from: u32, byte: u8, x: u32, row: u32, colour: u8)
    requires within { x ≤ 8192 }
    requires row { row < 8 }
    ensures { Lays (λ u. nat_le x u && glyph byte (u - x) row) colour from out.old out.new }
{
    let columns = columns_of(byte);
    for c in 0..5 {
        if has_pixel(columns[c], row) {
            lay_column(out, from, x + c as u32, colour);
        }
    }
}

/// Writes the text's ink in the span. The text's first cell has its upper left corner at (x, y).
pub fn write_text(out: &mut [u8], line: Scanline, text: &[u8], x: u32, y: u32, colour: u8)
    requires near { x ≤ 4 }
    requires low { y ≤ 4 }
    requires within { IsWithin line (length out.old) }
    ensures { Lays (λ u. is_ink text.now x y u line.y) colour line.from out.old out.new }
{
    if y <= line.y && line.y < y + 8 {
        write_letters(out, line.from, text, x, line.y - y, colour);
    }
}

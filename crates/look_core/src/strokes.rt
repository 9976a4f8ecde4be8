ghost use Rattle.std.specs.Prelude.{◌≡◌, if◌then◌else◌, ◌+◌, ◌<◌, ◌≤◌, ◌&&◌, ◌||◌, ◌==◌, nat_le, nat_lt, length, slice_index, EachIndex};
ghost use Rattle.look_core.specs.Span.{Lays};
ghost use Rattle.look_core.specs.Cases.{is_side};

/// Gives all bytes the colour.
pub fn lay_ground(out: &mut [u8], colour: u8)
    ensures { EachIndex out.new (λ i. slice_index out.new i ≡ colour) }
{
    out.fill(colour);
}

/// Gives the columns from `left` up to `right`, as far as they are in the span, the colour. The bytes begin
/// at column `from`.
pub fn lay_columns(out: &mut [u8], from: u32, left: u32, right: u32, colour: u8)
    ensures { Lays (λ u. nat_le left u && nat_lt u right) colour from out.old out.new }
{
    let start = left.saturating_sub(from) as usize;
    let end = out.len().min(right.saturating_sub(from) as usize);
    if start < end {
        lay_part(out, start, end, colour);
    }
}

/// Gives the bytes from `start` up to `end` the colour.
#[tactic(auto, using(crate::proofs::StrokeLemmas::filled_at))]
fn lay_part(out: &mut [u8], start: usize, end: usize, colour: u8)
    requires order { start ≤ end }
    requires within { end ≤ length out.old }
    ensures { EachIndex out.new (λ i. slice_index out.new i
        ≡ (if nat_le start i && nat_lt i end then colour else slice_index out.old i)) }
{
    out[start..end].fill(colour);
}

/// Gives the one column, where it is in the span, the colour.
pub fn lay_column(out: &mut [u8], from: u32, column: u32, colour: u8)
    ensures { Lays (λ u. u == column) colour from out.old out.new }
{
    if from <= column && ((column - from) as usize) < out.len() {
        out[(column - from) as usize] = colour;
    }
}

/// Gives the first and the last column of a widget of width `w` the colour.
pub fn lay_sides(out: &mut [u8], from: u32, w: u32, colour: u8)
    requires { w ≤ 4128 }
    ensures { Lays (is_side w) colour from out.old out.new }
{
    lay_column(out, from, 0, colour);
    lay_column(out, from, w.saturating_sub(1), colour);
}

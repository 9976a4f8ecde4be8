//! The spans of children, one axis at a time.
ghost use Rattle.std.specs.Prelude.{◌≡◌, ◌≤◌, pos, ◌≤ℤ◌, neg_ℤ, sum, take, ◌<◌, ◌^◌, length, All};
ghost use Rattle.scene_model.specs.Spans.{inset, content, framed};
ghost use Rattle.scene_model.specs.Tracks.{track_span};

use scene_model::{Axis, Span};

/// The span without the pad on both ends.
pub(crate) fn inset(pad: u32, span: Span) -> Span
    requires pad { pad ≤ 16 }
    requires low { neg_ℤ (pos 2000000) ≤ℤ span.from }
    requires high { span.from ≤ℤ pos 2000000 }
    ensures { result ≡ inset pad span }
{
    Span {
        from: span.from + pad as i32,
        len: span.len.saturating_sub(2 * pad),
    }
}

/// What a Window that has this span has for its child.
pub(crate) fn content(axis: Axis, span: Span) -> Span
    requires low { neg_ℤ (pos 1500000) ≤ℤ span.from }
    requires high { span.from ≤ℤ pos 1500000 }
    ensures { result ≡ content axis span }
{
    match axis {
        Axis::Across => Span {
            from: span.from + 1,
            len: span.len.saturating_sub(2),
        },
        Axis::Down => Span {
            from: span.from + 12,
            len: span.len.saturating_sub(13),
        },
    }
}

/// The span of a Frame's child, of that least length.
pub(crate) fn framed(pad: u32, offset: i32, least: u32, span: Span) -> Span
    requires pad { pad ≤ 16 }
    requires left { pos 0 ≤ℤ offset }
    requires right { offset ≤ℤ pos 4096 }
    requires low { neg_ℤ (pos 1500000) ≤ℤ span.from }
    requires high { span.from ≤ℤ pos 1500000 }
    ensures { result ≡ framed pad offset least span }
{
    Span {
        from: span.from + pad as i32 - offset,
        len: span.len.saturating_sub(2 * pad).max(least),
    }
}

/// The span of a track, counted from 1, where the tracks have these lengths and the first begins where the span
/// begins.
#[tactic(auto, using(crate::proofs::Lengths::sum_take_small), unfolding(scene_model::specs::Tracks::track_span))]
pub(crate) fn track_span(lengths: &[u32], span: Span, track: u32) -> Span
    requires first { 1 ≤ track }
    requires last { track ≤ length lengths.now }
    requires few { length lengths.now ≤ 16 }
    requires short { All (λ n. n ≤ 4128) lengths.now }
    requires low { neg_ℤ (pos 1500000) ≤ℤ span.from }
    requires high { span.from ≤ℤ pos 1500000 }
    ensures { result ≡ track_span lengths.now span track }
{
    let index = track as usize - 1;
    let before = sum_of(&lengths[..index]);
    Span {
        from: span.from + before as i32,
        len: lengths[index],
    }
}

/// The sum of lengths whose sum fits.
pub(crate) fn sum_of(lengths: &[u32]) -> u32
    requires { sum lengths.now < 2 ^ 32 }
    ensures { result ≡ sum lengths.now }
{
    lengths.iter().sum()
}

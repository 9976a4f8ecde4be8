// Spans: the `len` integers from `from` on, one side of a rectangle.
ghost use Rattle.std.specs.Prelude.{◌≡◌, ℤ, pos, ◌+ℤ◌, ◌≤ℤ◌, ◌<ℤ◌, ◌&&◌, ◌<◌, ◌^◌};
ghost use Rattle.geom_core.specs.Rect.{in_span, IsNear};

/// Whether `p` is in the span.
pub fn is_within(from: i32, len: u32, p: i32) -> bool
    ensures { result ≡ in_span from len p }
{
    let start = i64::from(from);
    let p = i64::from(p);
    start <= p && p < start + i64::from(len)
}

/// The integer past the span's last.
fn end_of(from: i32, len: u32) -> i64
    ensures { result ≡ from +ℤ pos len }
{
    i64::from(from) + i64::from(len)
}

/// How long the span from `from` to before `end` is.
fn len_to(from: i32, end: i64) -> u32
    requires order { from ≤ℤ end }
    requires fits { end <ℤ (from +ℤ pos (2 ^ 32)) }
    ensures { from +ℤ pos result ≡ end }
{
    (end - i64::from(from)) as u32
}

/// The span that two spans share, with the length 0 where they share nothing.
pub fn shared(from_a: i32, len_a: u32, from_b: i32, len_b: u32) -> (i32, u32)
    ensures pixels { (p : ℤ) → in_span result.0 result.1 p ≡ (in_span from_a len_a p && in_span from_b len_b p) }
    ensures near { 0 < result.1 → IsNear from_a len_a → IsNear result.0 result.1 }
{
    let from = if from_a < from_b { from_b } else { from_a };
    let end_a = end_of(from_a, len_a);
    let end_b = end_of(from_b, len_b);
    let end = if end_b < end_a { end_b } else { end_a };
    if end <= i64::from(from) {
        return (from, 0);
    }
    (from, len_to(from, end))
}

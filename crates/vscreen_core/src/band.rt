ghost use Rattle.std.specs.Prelude.{◌≡◌, ◌+◌, ◌*◌, ◌-◌, ◌<◌, ◌≤◌};
ghost use Rattle.vscreen_core.specs.Band.{band_size, band_at, share_of};

/// The pixels of a film that one beat drew, by their numbers: pixel (u, v) has the number `v * width + u`, from 0.
/// They are `from` up to `to`, without `to`. An empty band has `from` and `to` equal. The rule is in
/// docs/MACHINE.md.
#[derive(Clone, Copy, Debug, Default, PartialEq, Eq)]
pub struct Band {
    /// The first pixel.
    pub from: u32,
    /// One past the last pixel.
    pub to: u32,
}

/// The pixels per tick that a film of `w` by `h` pixels, each at most 256, reserves under a period of so many
/// ticks, at least 1: its pixels over the period, rounded up. No band has more, and the bands of a period have
/// all. The rule is in docs/MACHINE.md.
#[tactic(auto, unfolding(crate::specs::Band::share_of))]
pub fn share(w: u32, h: u32, period: u32) -> u32
    requires wide { w ≤ 256 }
    requires high { h ≤ 256 }
    requires periodic { 1 ≤ period }
    ensures share { result ≡ share_of w h period }
    ensures small { result ≤ 65536 }
    ensures enough { w * h ≤ result * period }
    ensures least { result * period < w * h + period }
{
    whole_band(pixels(w, h), period)
}

/// How many pixels a film of this width and height has.
pub(crate) fn pixels(width: u32, height: u32) -> u32
    requires wide { width ≤ 256 }
    requires high { height ≤ 256 }
    ensures pixels { result ≡ width * height }
    ensures small { result ≤ 65536 }
{
    width * height
}

/// The band that the beat at this phase draws, of a film of so many pixels.
#[tactic(auto, unfolding(crate::specs::Band::band_at, crate::specs::Band::band_start))]
pub(crate) fn band_of(pixels: u32, period: u32, phase: u32) -> Band
    requires few { pixels ≤ 65536 }
    requires periodic { 1 ≤ period }
    requires early { phase ≤ 64 }
    ensures band { result ≡ band_at pixels period phase }
    ensures order { result.from ≤ result.to }
    ensures within { result.to ≤ pixels }
    ensures few { result.to ≤ result.from + band_size pixels period }
{
    let whole = whole_band(pixels, period);
    let from = pixels.min(phase * whole);
    Band {
        from,
        to: pixels.min(from + whole),
    }
}

// How many pixels a whole band has.
#[tactic(auto, unfolding(crate::specs::Band::band_size))]
fn whole_band(pixels: u32, period: u32) -> u32
    requires periodic { 1 ≤ period }
    ensures pixels { result ≡ band_size pixels period }
    ensures few { result ≤ pixels }
    ensures enough { pixels ≤ result * period }
    ensures least { result * period < pixels + period }
{
    pixels.div_ceil(period)
}

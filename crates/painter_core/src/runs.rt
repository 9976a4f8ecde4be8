//! A band of a film as parts of the screen: the rest of the band's first row, whole rows, and the start of its last one.
ghost use Rattle.std.specs.Prelude.{◌≡◌, ◌+◌, ◌*◌, ◌<◌, ◌≤◌, ℤ, pos, ◌+ℤ◌, ◌≤ℤ◌, ◌&&◌, length};
ghost use Rattle.geom_core.specs.Count.{screen_of};
ghost use Rattle.geom_core.specs.Rect.{in_rect, IsInRange};
ghost use Rattle.scene_model.specs.Bands.{in_band};
ghost use Rattle.painter_core.specs.Runs.{AreParts, AreRuns, IsPut, first_end, last_end, part_of};

use arrayvec::ArrayVec;
use geom_core::{Rect, meet};
use vscreen_core::Band;

/// The pixels of a film that are in a band, as three rectangles, of which some may be empty.
#[derive(Clone, Copy, Debug)]
pub struct Runs {
    /// What the band has of its first row.
    pub first: Rect,
    /// The whole rows between that one and the row of the band's end.
    pub middle: Rect,
    /// What the band has of the row of its end, where that isn't the first one.
    pub last: Rect,
}

/// The same band without the numbers that the film has no pixel for.
fn clipped(film: Rect, band: Band) -> Band
    requires few { film.w * film.h ≤ 65536 }
    ensures order { result.from ≤ result.to }
    ensures within { result.to ≤ film.w * film.h }
    ensures same { (x y : ℤ) → in_band film result x y ≡ in_band film band x y }
{
    let to = band.to.min(film.w * film.h);
    Band {
        from: band.from.min(to),
        to,
    }
}

/// Where the first run ends in its row, and the last one in the row of the band's end.
fn ends(upper: u32, lower: u32, end: u32, width: u32) -> (u32, u32)
    ensures first { result.0 ≡ first_end upper lower end width }
    ensures last { result.1 ≡ last_end upper lower end }
{
    if upper == lower {
        (end, 0)
    } else {
        (width, end)
    }
}

/// A coordinate so many pixels further.
fn moved(from: i32, by: u32) -> i32
    requires start { from ≤ℤ pos 1048576 }
    requires few { by ≤ 1048577 }
    ensures { result ≡ from +ℤ pos by }
{
    from + by as i32
}

/// A part of the film, from that column and row of it on.
fn part_of(film: Rect, column: u32, row: u32, w: u32, h: u32) -> Rect
    requires in_range { IsInRange film }
    requires across { column ≤ film.w }
    requires down { row ≤ film.h + 1 }
    ensures { result ≡ part_of film column row w h }
{
    Rect {
        x: moved(film.x, column),
        y: moved(film.y, row),
        w,
        h,
    }
}

/// The runs of a band, of a film that lies there.
fn runs_of(film: Rect, band: Band) -> Runs
    requires in_range { IsInRange film }
    requires wide { 0 < film.w }
    requires order { band.from ≤ band.to }
    requires within { band.to ≤ film.w * film.h }
    ensures { AreRuns film band result.first result.middle result.last }
{
    let upper = band.from / film.w;
    let start = band.from % film.w;
    let lower = band.to / film.w;
    let (first_end, last_end) = ends(upper, lower, band.to % film.w, film.w);
    Runs {
        first: part_of(film, start, upper, first_end - start, 1),
        middle: part_of(film, 0, upper + 1, film.w, lower.saturating_sub(upper + 1)),
        last: part_of(film, 0, lower, last_end, 1),
    }
}

/// Puts what the screen has of the part at the end of the list, unless it has nothing.
fn put_seen(parts: &mut ArrayVec<Rect, 3>, part: Rect, screen: Rect)
    requires { length parts.old.items < 3 }
    ensures { IsPut part screen parts.old.items parts.new.items }
{
    let seen = meet(part, screen);
    if seen.w != 0 && seen.h != 0 {
        parts.push(seen);
    }
}

/// The runs of the band that lie on a screen of that width and height, none of them empty.
pub fn band_parts(film: Rect, band: Band, width: u32, height: u32) -> ArrayVec<Rect, 3>
    requires some { 0 < film.w }
    requires wide { film.w ≤ 256 }
    requires high { film.h ≤ 256 }
    requires width { width ≤ 1024 }
    requires height { height ≤ 768 }
    ensures { AreParts (λ x y. in_rect (screen_of width height) x y && in_band film band x y) result.items }
{
    let screen = Rect {
        x: 0,
        y: 0,
        w: width,
        h: height,
    };
    let mut parts = ArrayVec::new();
    let seen = meet(film, screen);
    if seen.w == 0 || seen.h == 0 {
        return parts;
    }
    let runs = runs_of(film, clipped(film, band));
    put_seen(&mut parts, runs.first, screen);
    put_seen(&mut parts, runs.middle, screen);
    put_seen(&mut parts, runs.last, screen);
    parts
}

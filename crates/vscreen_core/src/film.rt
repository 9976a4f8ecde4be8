ghost use Rattle.std.specs.Prelude.{◌≡◌, ◌+◌, ◌*◌, ◌%◌, ◌≤◌, ◌<◌, length, replicate, IfOk};
ghost use Rattle.vscreen_core.specs.Band.{share_of};
ghost use Rattle.vscreen_core.specs.Picture.{row_of, with_pixels};
ghost use Rattle.vscreen_core.specs.FilmState.{IsFilm, blank_film, pixels_in};
ghost use Rattle.vscreen_core.specs.Changes.{committed, commit_answer, begun, beaten, band_now, settled};

use crate::band::{Band, band_of, pixels};
use crate::no_memory::NoMemory;
use crate::wrong_size::WrongSize;
use std::alloc::{AllocError, Global};
use std::marker::Model;

/// What a VScreen shows: three pictures of one size, a byte a pixel, row by row. The pixel (u, v) has the
/// number `v * width + u`, from 0.
///
/// - `newest` is the last frame that was committed.
/// - `current` is the frame that the period under way draws.
/// - `shown` is what is drawn.
///
/// An admitted film has a period of 1 to 64 ticks and a phase below it; else its period is 0. Contracts see a
/// film as a `FilmState` with these fields. The rule is in docs/MACHINE.md.
#[derive(Debug)]
pub struct Film {
    width: u32,
    height: u32,
    newest: Vec<u8>,
    current: Vec<u8>,
    shown: Vec<u8>,
    period: u32,
    phase: u32,
}

impl Model for Film {
    ghost use Rattle.vscreen_core.specs.FilmState.{FilmState, IsFilm};

    ghost Value = { FilmState };

    ghost view = { λ f. record { width = f.width; height = f.height; newest = f.newest.items; current = f.current.items; shown = f.shown.items; period = f.period; phase = f.phase } };

    ghost invariant = { λ f. IsFilm (record { width = f.width; height = f.height; newest = f.newest.items; current = f.current.items; shown = f.shown.items; period = f.period; phase = f.phase }) };
}

impl Drop for Film {
    fn drop(self) {
        let Film {
            width: _,
            height: _,
            newest: _,
            current: _,
            shown: _,
            period: _,
            phase: _,
        } = self;
    }
}

impl Film {
    /// A film of `w` by `h` pixels, each 1 to 256, all of value 0 and not admitted. `NoMemory` where memory is
    /// short, and only then.
    #[tactic(auto, unfolding(crate::specs::FilmState::blank_film))]
    pub fn new(alloc: Global, w: u32, h: u32) -> Result<Film, NoMemory>
        requires some_width { 1 ≤ w }
        requires width { w ≤ 256 }
        requires some_height { 1 ≤ h }
        requires height { h ≤ 256 }
        ensures blank { IfOk result (λ film. film ≡ blank_film w h) }
        ensures valid { IfOk result (λ film. IsFilm film) }
    {
        let size = pixels(w, h) as usize;
        Ok(Film {
            width: w,
            height: h,
            newest: blank(alloc, size)?,
            current: blank(alloc, size)?,
            shown: blank(alloc, size)?,
            period: 0,
            phase: 0,
        })
    }

    /// Another film that equals this one in all: its size, its three pictures, its period and its phase. `NoMemory`
    /// where memory is short, and only then; nothing of the copy is left behind. It costs one move of each picture.
    pub fn copy(&self) -> Result<Film, NoMemory>
        ensures same { IfOk result (λ film. film ≡ self.now) }
        ensures valid { IsFilm self.now }
    {
        let alloc = *self.newest.allocator();
        Ok(Film {
            width: self.width,
            height: self.height,
            newest: Vec::from_slice(alloc, &self.newest)?,
            current: Vec::from_slice(alloc, &self.current)?,
            shown: Vec::from_slice(alloc, &self.shown)?,
            period: self.period,
            phase: self.phase,
        })
    }

    /// Makes the frame, of at most 65,536 bytes, the newest, and changes nothing else: the period under way goes on
    /// with its own frame. `WrongSize` with both numbers of bytes, and nothing changed, exactly where it hasn't a
    /// byte for each pixel. It costs one copy of the frame.
    #[tactic(auto, unfolding(crate::specs::Changes::committed, crate::specs::Changes::commit_answer))]
    pub fn commit(&mut self, frame: &[u8]) -> Result<(), WrongSize>
        requires { length frame.now ≤ 65536 }
        ensures film { self.new ≡ committed self.old frame.now }
        ensures answer { result ≡ commit_answer self.old frame.now }
        ensures kept { self.new ≡ record self.old { newest = self.new.newest } }
        ensures valid { IsFilm self.new }
    {
        let want = self.newest.len();
        if frame.len() != want {
            return Err(WrongSize {
                want: want as u32,
                got: frame.len() as u32,
            });
        }
        self.newest.copy_from_slice(frame);
        Ok(())
    }

    /// Admits the film with a period of 1 to 64 ticks, at phase 0. The pictures stay.
    #[tactic(auto, unfolding(crate::specs::Changes::begun))]
    pub fn begin(&mut self, period: u32)
        requires some { 1 ≤ period }
        requires within { period ≤ 64 }
        ensures film { self.new ≡ begun self.old period }
        ensures valid { IsFilm self.new }
    {
        self.period = period;
        self.phase = 0;
    }

    /// Draws the band of this phase, of an admitted film, and goes on to the next phase, round the period. At
    /// phase 0 the newest frame first becomes the current one. Answers the band: with s the film's share and k
    /// the phase, the pixels k * s up to (k + 1) * s, as far as the film has them. It costs one copy of the
    /// band's run of bytes, and at phase 0 one of the whole frame.
    #[tactic(auto, unfolding(crate::specs::Changes::beaten, crate::specs::Changes::band_now, crate::specs::Changes::frame_now, crate::specs::Band::share_of))]
    pub fn beat(&mut self) -> Band
        requires { 1 ≤ self.old.period }
        ensures film { self.new ≡ beaten self.old }
        ensures band { result ≡ band_now self.old }
        ensures order { result.from ≤ result.to }
        ensures within { result.to ≤ pixels_in self.old }
        ensures share { result.to ≤ result.from + share_of self.old.width self.old.height self.old.period }
        ensures valid { IsFilm self.new }
    {
        if self.phase == 0 {
            self.current.copy_from_slice(&self.newest);
        }
        let band = band_of(pixels(self.width, self.height), self.period, self.phase);
        copy_run(&mut self.shown, &self.current, band);
        self.phase = next_phase(self.phase, self.period);
        band
    }

    /// Ends the admission: the newest frame is shown at once, and the period is 0.
    #[tactic(auto, unfolding(crate::specs::Changes::settled))]
    pub fn settle(&mut self)
        ensures film { self.new ≡ settled self.old }
        ensures valid { IsFilm self.new }
    {
        self.shown.copy_from_slice(&self.newest);
        self.period = 0;
    }

    /// The bytes of row `y` (from 0, below the height) of what is shown, one for each pixel from the left.
    #[tactic(auto, using(crate::proofs::Pictures::row_fits))]
    pub fn shown_row(&self, y: u32) -> &[u8]
        requires { y < self.now.height }
        ensures row { result.now ≡ row_of self.now.width self.now.shown y }
        ensures length { length result.now ≡ self.now.width }
        ensures valid { IsFilm self.now }
    {
        let from = row_start(self.width, y);
        let to = from + self.width as usize;
        &self.shown[from..to]
    }

    /// What is shown, row by row from the top: a byte for each pixel.
    pub fn shown(&self) -> &[u8]
        ensures shown { result.now ≡ self.now.shown }
        ensures valid { IsFilm self.now }
    {
        &self.shown
    }

    /// The frame that was committed last, row by row from the top: a byte for each pixel, each 0 before the first.
    pub fn newest(&self) -> &[u8]
        ensures newest { result.now ≡ self.now.newest }
        ensures valid { IsFilm self.now }
    {
        &self.newest
    }

    /// The frame that the period under way draws, row by row from the top: a byte for each pixel.
    pub fn current(&self) -> &[u8]
        ensures current { result.now ≡ self.now.current }
        ensures valid { IsFilm self.now }
    {
        &self.current
    }

    /// The width in pixels, 1 to 256.
    pub fn width(&self) -> u32
        ensures width { result ≡ self.now.width }
        ensures valid { IsFilm self.now }
    {
        self.width
    }

    /// The height in pixels, 1 to 256.
    pub fn height(&self) -> u32
        ensures height { result ≡ self.now.height }
        ensures valid { IsFilm self.now }
    {
        self.height
    }

    /// The period in ticks, 1 to 64, or 0 where the film isn't admitted.
    pub fn period(&self) -> u32
        ensures period { result ≡ self.now.period }
        ensures valid { IsFilm self.now }
    {
        self.period
    }

    /// The phase that the next beat draws, from 0 below the period. It stays what it was where the film isn't admitted.
    pub fn phase(&self) -> u32
        ensures phase { result ≡ self.now.phase }
        ensures valid { IsFilm self.now }
    {
        self.phase
    }
}

// The number of the row's first pixel.
fn row_start(width: u32, y: u32) -> usize
    requires wide { width ≤ 256 }
    requires high { y ≤ 256 }
    ensures start { result ≡ y * width }
    ensures small { result ≤ 65536 }
{
    y as usize * width as usize
}

// A picture of so many bytes of value 0.
fn blank(alloc: Global, size: usize) -> Result<Vec<u8>, AllocError>
    ensures { IfOk result (λ picture. picture.items ≡ replicate size 0) }
{
    vec![in alloc; 0; size]
}

// Copies the band's pixels of `frame` into `shown`, at the same place.
fn copy_run(shown: &mut [u8], frame: &[u8], band: Band)
    requires order { band.from ≤ band.to }
    requires shown { band.to ≤ length shown.old }
    requires frame { band.to ≤ length frame.now }
    ensures copied { shown.new ≡ with_pixels shown.old frame.now band.from band.to }
    ensures size { length shown.new ≡ length shown.old }
{
    let from = band.from as usize;
    let to = band.to as usize;
    shown[from..to].copy_from_slice(&frame[from..to]);
}

// The phase after this one, round the period.
fn next_phase(phase: u32, period: u32) -> u32
    requires { phase < period }
    ensures { result ≡ (phase + 1) % period }
{
    let next = phase + 1;
    if next == period { 0 } else { next }
}

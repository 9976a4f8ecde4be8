ghost use Rattle.std.specs.Prelude.{◌≡◌, ℕ, ◌+◌, ◌-◌, ◌*◌, ◌^◌, ◌<◌, ◌≤◌, length, take, drop, replicate, slice_index, if◌then◌else◌, IfOk};
ghost use Rattle.std.specs.Borrow.{sem};
ghost use Rattle.canvas_core.specs.Screen.{IsScreen, counted, desk_colour, in_span, pixel_of, place, risen, spans_of, with_span};
ghost use Rattle.canvas_core.specs.Lending.{LendsRow};

use crate::no_memory::NoMemory;
use std::alloc::Global;
use std::marker::Model;

/// The palette number of the empty desk, which each pixel of a new canvas has.
pub const DESK_COLOUR: u8 = 2;

/// A screen of `width * height` pixels, one byte each, row after row from the top.
///
/// Contracts see the record `Screen`: the width, the height, the list of bytes, of the time since the last
/// `start_count` the number of bytes written and the number of spans, and the same two numbers of all time,
/// which no call takes back, each modulo 2^64. The rules are in `docs/MACHINE.md`.
#[derive(Debug)]
pub struct Canvas {
    width: u32,
    height: u32,
    bytes: Vec<u8>,
    writes: u32,
    spans: u32,
    all_writes: u64,
    all_spans: u64,
}

impl Model for Canvas {
    ghost use Rattle.canvas_core.specs.Screen.{Screen, IsScreen};

    ghost Value = { Screen };

    ghost view = { λ c. record {
      width = c.width;
      height = c.height;
      bytes = c.bytes.items;
      writes = c.writes;
      spans = c.spans;
      all_writes = c.all_writes;
      all_spans = c.all_spans;
    } };

    ghost invariant = { λ c. IsScreen (record {
      width = c.width;
      height = c.height;
      bytes = c.bytes.items;
      writes = c.writes;
      spans = c.spans;
      all_writes = c.all_writes;
      all_spans = c.all_spans;
    }) };
}

impl Drop for Canvas {
    fn drop(self) {
        let Canvas {
            width: _,
            height: _,
            bytes: _,
            writes: _,
            spans: _,
            all_writes: _,
            all_spans: _,
        } = self;
    }
}

impl Canvas {
    /// A canvas of `width` by `height` pixels, each in the desk's colour, with all counts at 0.
    /// `NoMemory` comes only for want of memory. `docs/MACHINE.md` has the limits of a screen.
    pub fn new(alloc: Global, width: u32, height: u32) -> Result<Canvas, NoMemory>
        requires least_width { 16 ≤ width }
        requires greatest_width { width ≤ 1024 }
        requires least_height { 16 ≤ height }
        requires greatest_height { height ≤ 768 }
        ensures width { IfOk result (λ c. c.width ≡ width) }
        ensures height { IfOk result (λ c. c.height ≡ height) }
        ensures bytes { IfOk result (λ c. c.bytes ≡ replicate (width * height) desk_colour) }
        ensures writes { IfOk result (λ c. c.writes ≡ 0) }
        ensures spans { IfOk result (λ c. c.spans ≡ 0) }
        ensures all_writes { IfOk result (λ c. c.all_writes ≡ 0) }
        ensures all_spans { IfOk result (λ c. c.all_spans ≡ 0) }
        ensures valid { IfOk result (λ c. IsScreen c) }
    {
        match Vec::from_elem(alloc, DESK_COLOUR, width as usize * height as usize) {
            Ok(bytes) => Ok(Canvas {
                width,
                height,
                bytes,
                writes: 0,
                spans: 0,
                all_writes: 0,
                all_spans: 0,
            }),
            Err(_) => Err(NoMemory),
        }
    }

    /// The number of pixels in a row.
    pub fn width(&self) -> u32
        ensures width { result ≡ self.now.width }
        ensures valid { IsScreen self.now }
    {
        self.width
    }

    /// The number of rows.
    pub fn height(&self) -> u32
        ensures height { result ≡ self.now.height }
        ensures valid { IsScreen self.now }
    {
        self.height
    }

    /// Begins to count writes and spans anew, from 0. No pixel changes, and the counts of all time stay.
    pub fn start_count(&mut self)
        ensures writes { self.new.writes ≡ 0 }
        ensures spans { self.new.spans ≡ 0 }
        ensures all_writes { self.new.all_writes ≡ self.old.all_writes }
        ensures all_spans { self.new.all_spans ≡ self.old.all_spans }
        ensures bytes { self.new.bytes ≡ self.old.bytes }
        ensures width { self.new.width ≡ self.old.width }
        ensures height { self.new.height ≡ self.old.height }
        ensures valid { IsScreen self.new }
    {
        self.writes = 0;
        self.spans = 0;
    }

    // Counts a span of so many bytes, which are to be written.
    fn count(&mut self, len: u32)
        requires count_fits { self.old.writes + len < 2 ^ 32 }
        ensures screen { self.new ≡ counted self.old len }
    {
        self.writes += len;
        self.spans += len.min(1);
        self.all_writes = self.all_writes.wrapping_add(len as u64);
        self.all_spans = self.all_spans.wrapping_add(len.min(1) as u64);
    }

    /// Lends the `len` pixels of row `y` from column `x` on (both from 0) for writing, without a copy, and
    /// adds their number to the counts of writes, and one to those of spans where there is at least one. They are
    /// as they were, until they are written. The span has to be on the screen, and the count has to fit.
    pub fn row_for(&mut self, x: u32, y: u32, len: u32) -> &mut [u8]
        requires on_row { x + len ≤ self.old.width }
        requires on_screen { y < self.old.height }
        requires count_fits { self.old.writes + len < 2 ^ 32 }
        ensures* lends { sem 𝓛 (LendsRow self.entry (place self.old x y) len result) }
        ensures len { length result.now ≡ len }
        ensures bytes { result.now ≡ take len (drop (place self.old x y) self.old.bytes) }
        ensures valid { IsScreen self.old }
    {
        let at = y as usize * self.width as usize + x as usize;
        let end = at + len as usize;
        self.count(len);
        self.bytes.slice_mut(at..end)
    }

    /// Writes `bytes` over the pixels of row `y` from column `x` on (both from 0), and adds their
    /// number to the counts of writes, and one to those of spans where there is at least one. The span
    /// has to be on the screen, and the count has to fit.
    pub fn put_row(&mut self, x: u32, y: u32, bytes: &[u8])
        requires on_row { x + length bytes.now ≤ self.old.width }
        requires on_screen { y < self.old.height }
        requires count_fits { self.old.writes + length bytes.now < 2 ^ 32 }
        ensures bytes { self.new.bytes ≡ with_span self.old.bytes (place self.old x y) bytes.now }
        ensures by_index { (k : ℕ) → slice_index self.new.bytes k
            ≡ (if in_span (place self.old x y) (length bytes.now) k
            then slice_index bytes.now (k - place self.old x y)
            else slice_index self.old.bytes k) }
        ensures writes { self.new.writes ≡ self.old.writes + length bytes.now }
        ensures spans { self.new.spans ≡ self.old.spans + spans_of (length bytes.now) }
        ensures all_writes { self.new.all_writes ≡ risen self.old.all_writes (length bytes.now) }
        ensures all_spans { self.new.all_spans ≡ risen self.old.all_spans (spans_of (length bytes.now)) }
        ensures width { self.new.width ≡ self.old.width }
        ensures height { self.new.height ≡ self.old.height }
        ensures valid { IsScreen self.new }
    {
        self.row_for(x, y, bytes.len() as u32)
            .copy_from_slice(bytes);
    }

    /// The byte of the pixel in column `x` of row `y`, both from 0.
    pub fn pixel(&self, x: u32, y: u32) -> u8
        requires on_row { x < self.now.width }
        requires on_screen { y < self.now.height }
        ensures pixel { result ≡ pixel_of self.now x y }
        ensures valid { IsScreen self.now }
    {
        self.bytes[y as usize * self.width as usize + x as usize]
    }

    /// All bytes, row after row from the top: the pixel (x, y) is byte `y * width + x`.
    pub fn bytes(&self) -> &[u8]
        ensures bytes { result.now ≡ self.now.bytes }
        ensures valid { IsScreen self.now }
    {
        &self.bytes
    }

    /// The number of bytes written since the last `start_count`, or since the canvas was made.
    pub fn writes(&self) -> u32
        ensures writes { result ≡ self.now.writes }
        ensures valid { IsScreen self.now }
    {
        self.writes
    }

    /// The number of spans since the last `start_count`, or since the canvas was made: of calls of `row_for` and
    /// `put_row` on at least one pixel. It is at most the number of bytes written.
    pub fn spans(&self) -> u32
        ensures spans { result ≡ self.now.spans }
        ensures within { result ≤ self.now.writes }
        ensures valid { IsScreen self.now }
    {
        self.spans
    }

    /// The number of bytes written since the canvas was made, modulo 2^64. `start_count` leaves it.
    pub fn all_writes(&self) -> u64
        ensures all_writes { result ≡ self.now.all_writes }
        ensures valid { IsScreen self.now }
    {
        self.all_writes
    }

    /// The number of spans since the canvas was made, modulo 2^64. `start_count` leaves it.
    pub fn all_spans(&self) -> u64
        ensures all_spans { result ≡ self.now.all_spans }
        ensures valid { IsScreen self.now }
    {
        self.all_spans
    }
}

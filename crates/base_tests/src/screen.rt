//! The pixels of the screen.
ghost use Rattle.std.specs.Prelude.{◌≡◌, ◌+◌, ◌<◌, ◌^◌, length};

use canvas_core::Canvas;
use std::process::Abort;
use std::test::Fail;

/// A new screen of 16 by 17 pixels has the desk's colour, and nothing was written.
fn is_new(rt: &impl Abort, canvas: &Canvas) {
    assert_eq!(rt; canvas.width(), 16);
    assert_eq!(rt; canvas.height(), 17);
    assert_eq!(rt; canvas.bytes().len(), 272);
    has_bytes(rt, canvas, &[]);
}

/// Each pixel but these has the desk's colour.
fn has_bytes(rt: &impl Abort, canvas: &Canvas, changed: &[(usize, u8)]) {
    for (k, byte) in canvas.bytes().iter().enumerate() {
        let put = changed.iter().find(|(place, _)| *place == k);
        assert_eq!(rt; *byte, put.map_or(2, |(_, value)| *value), "at {k}");
    }
}

/// The pixel has this byte.
fn has_pixel(rt: &impl Abort, canvas: &Canvas, x: u32, y: u32, byte: u8) {
    assert!(rt; x < canvas.width() && y < canvas.height());
    assert_eq!(rt; canvas.pixel(x, y), byte, "at {x} {y}");
}

/// Writes the bytes, of which there are so many altogether since the count began.
fn puts(rt: &impl Abort, canvas: &mut Canvas, x: u32, y: u32, bytes: &[u8], writes: u32) {
    assert!(rt; x < 16 && bytes.len() < 16 && x as usize + bytes.len() <= canvas.width() as usize);
    assert!(rt; y < canvas.height() && canvas.writes() < 1000);
    canvas.put_row(x, y, bytes);
    assert_eq!(rt; canvas.writes(), writes);
}

/// Rows land on their spans alone.
fn draws(rt: &impl Abort, canvas: &mut Canvas) {
    puts(rt, canvas, 13, 16, &[7, 8, 9], 3);
    puts(rt, canvas, 3, 1, &[6], 4);
    has_pixel(rt, canvas, 13, 16, 7);
    has_pixel(rt, canvas, 15, 16, 9);
    has_pixel(rt, canvas, 3, 1, 6);
    has_pixel(rt, canvas, 1, 3, 2);
    has_bytes(rt, canvas, &[(19, 6), (269, 7), (270, 8), (271, 9)]);
    canvas.start_count();
    assert_eq!(rt; canvas.writes(), 0);
    has_pixel(rt, canvas, 15, 16, 9);
}

#[test]
fn a_row_lands_on_its_span_alone(rt: HostRuntime) -> Result<(), Fail> {
    let mut canvas = Canvas::new(rt.alloc(), 16, 17)?;
    assert_eq!(rt; canvas.writes(), 0);
    is_new(&rt, &canvas);
    draws(&rt, &mut canvas);
    Ok(())
}

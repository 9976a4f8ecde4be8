//! Looks that are asked for single pixels.
ghost use Rattle.std.specs.Prelude.{ℕ};
ghost use Rattle.look_core.specs.Seen.{seen};
ghost use Rattle.look_core.specs.Drawable.{IsDrawable};

use kind_core::{Text, text_from};
use look_core::{Look, row_span};
use std::process::Abort;

/// What the look shows at the pixel (u, v) of a widget of `w` by `h`.
pub fn pixel(rt: &impl Abort, look: &Look<'_>, w: u32, h: u32, u: u32, v: u32) -> u8
    requires { (y : ℕ) → IsDrawable y (seen look.now) }
{
    assert!(rt; w <= 4128 && h <= 4128);
    assert!(rt; u < w && v < h);
    let mut out = [99];
    row_span(look, w, h, v, u, u + 1, &mut out);
    out[0]
}

/// The number that a word writes, or one that no test has.
fn number(word: Option<&str>) -> u32 {
    match word {
        Some(digits) => digits.parse::<u32>().unwrap_or(9999),
        None => 9999,
    }
}

/// The look shows a colour at a pixel of a widget of `w` by `h`: the line has its column, its row and its colour.
fn shows_one(rt: &impl Abort, look: &Look<'_>, w: u32, h: u32, line: &str)
    requires { (y : ℕ) → IsDrawable y (seen look.now) }
{
    let mut words = line.split_whitespace();
    let u = number(words.next());
    let v = number(words.next());
    let colour = number(words.next());
    assert_eq!(rt; u32::from(pixel(rt, look, w, h, u, v)), colour, "at {line}");
}

/// The look shows these colours in a widget of `w` by `h`, a pixel a line.
pub fn shows(rt: &impl Abort, look: &Look<'_>, w: u32, h: u32, table: &str)
    requires { (y : ℕ) → IsDrawable y (seen look.now) }
{
    for line in table.lines() {
        shows_one(rt, look, w, h, line);
    }
}

/// The bytes as a text.
pub fn text(rt: &impl Abort, bytes: &[u8]) -> Text {
    text_from(bytes).expect(rt, "a text")
}

//! The lines of output.
ghost use Rattle.std.specs.Prelude.{◌≡◌};
ghost use Rattle.dope_run.specs.Text.{reply_line, drew_line, dirty_line, pixel_line, dump_line};

use arrayvec::ArrayString;
use cmd_text::{Reply, print_reply};
use cmd_words::Drew;
use itoa::Buffer;
use kind_core::Shape;

/// A line of output, with its line feed.
pub type Line = ArrayString<64>;

/// A client's number, its reply and a line feed: 10 digits, a space, 256 bytes and one more at most.
pub type ReplyLine = ArrayString<268>;

/// The line for a client's reply.
pub fn reply_line(client: u32, reply: &Reply) -> ReplyLine
    ensures { result.bytes ≡ reply_line client reply.now }
{
    let mut text = ArrayString::new();
    let mut number = Buffer::new();
    text.push_str(number.format(client));
    text.push_str(" ");
    text.push_str(print_reply(reply).as_str());
    text.push_str("\n");
    text
}

/// The line for what a tick drew.
pub fn drew_line(drew: Drew) -> Line
    ensures { result.bytes ≡ drew_line drew }
{
    let mut text = ArrayString::new();
    let mut number = Buffer::new();
    text.push_str("drew ");
    text.push_str(number.format(drew.bands));
    text.push_str("+");
    text.push_str(number.format(drew.queue));
    text.push_str(" left ");
    text.push_str(number.format(drew.left));
    text.push_str("\n");
    text
}

/// The line for a count of dirty pixels.
pub fn dirty_line(count: u32) -> Line
    ensures { result.bytes ≡ dirty_line count }
{
    let mut text = ArrayString::new();
    let mut number = Buffer::new();
    text.push_str("dirty ");
    text.push_str(number.format(count));
    text.push_str("\n");
    text
}

/// The line for what a pixel shows; None off the screen.
pub fn pixel_line(byte: Option<u8>) -> Line
    ensures { result.bytes ≡ pixel_line byte }
{
    let mut text = ArrayString::new();
    let mut number = Buffer::new();
    match byte {
        Some(byte) => {
            text.push_str("pixel ");
            text.push_str(number.format(byte));
            text.push_str("\n");
        }
        None => text.push_str("pixel outside\n"),
    }
    text
}

/// The line before the bytes of a whole screen of this shape.
pub fn dump_line(shape: Shape) -> Line
    ensures { result.bytes ≡ dump_line shape }
{
    let mut text = ArrayString::new();
    let mut number = Buffer::new();
    text.push_str("dump ");
    text.push_str(number.format(shape.width));
    text.push_str(" ");
    text.push_str(number.format(shape.height));
    text.push_str("\n");
    text
}

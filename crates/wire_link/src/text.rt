//! What is written for an answer.
ghost use Rattle.std.specs.Prelude.{◌≡◌, ◌≤◌, length};
ghost use Rattle.wire_link.specs.Told.{reply_line, drew_line, answer_line};
ghost use Rattle.wire_link.specs.Calls.{ticked};

use arrayvec::ArrayString;
use cmd_text::{Drew, Refusal, Reply, print_reply};
use itoa::Buffer;

/// A line that is written, with its line feed: 256 bytes of a reply and one more at most.
pub type Line = ArrayString<264>;

/// The line for a reply.
pub fn reply_line(reply: &Reply) -> Line
    ensures { result.bytes ≡ reply_line reply.now }
{
    let mut text = ArrayString::new();
    text.push_str(print_reply(reply).as_str());
    text.push_str("\n");
    text
}

/// The line for what a tick drew.
pub fn drew_line(drew: Drew) -> Line
    ensures { result.bytes ≡ drew_line drew }
{
    let mut text = ArrayString::new();
    let mut number = Buffer::new();
    text.push_str("drew ");
    text.push_str(number.format(drew.bands));
    text.push_str("+");
    text.push_str(number.format(drew.queue));
    text.push_str(" left ");
    text.push_str(number.format(drew.left));
    text.push_str("\n");
    text
}

/// The line for what a tick is answered.
pub fn tick_line(answer: Result<Drew, Refusal>) -> Line
    ensures { result.bytes ≡ answer_line (ticked answer) }
{
    match answer {
        Ok(drew) => drew_line(drew),
        Err(refusal) => reply_line(&Reply::Refused(refusal)),
    }
}

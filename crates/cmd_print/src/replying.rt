//! Replies as text.
ghost use Rattle.std.specs.Prelude.{◌≡◌, ◌+◌, ◌≤◌, ◌++◌, ℤ, pos, List, [], ◌∷◌, length, codes};
ghost use Rattle.std.specs.List.{flat_map};
ghost use Rattle.arrayvec.specs.ArrayString.{array_string_len};
ghost use Rattle.cmd_print.specs.Replies.{error_number, error_details, spaced, reply_text};
ghost use Rattle.cmd_words.specs.declared.replies.Reply.TheVariants as reply_of;

use crate::putting::{put_count, put_name, put_number, put_quoted, put_word};
use arrayvec::ArrayString;
use cmd_words::{Refusal, Reply};
use kind_core::{EventKind, Name};

/// A space and a number.
fn put_spaced(text: &mut ArrayString<256>, n: i32)
    requires { array_string_len text.old + 12 ≤ 256 }
    ensures bytes { text.new.bytes ≡ text.old.bytes ++ spaced n }
    ensures len { array_string_len text.new ≤ array_string_len text.old + 12 }
{
    text.push_str(" ");
    put_number(text, n);
}

/// A space and a count.
fn put_spaced_count(text: &mut ArrayString<256>, n: u32)
    requires { array_string_len text.old + 12 ≤ 256 }
    ensures bytes { text.new.bytes ≡ text.old.bytes ++ spaced (pos n) }
    ensures len { array_string_len text.new ≤ array_string_len text.old + 12 }
{
    text.push_str(" ");
    put_count(text, n);
}

/// The number of an error.
fn number_of(refusal: &Refusal) -> u32
    ensures { result ≡ error_number refusal.now }
{
    match refusal {
        Refusal::Memory => 1,
        Refusal::Syntax { .. } => 2,
        Refusal::NameTaken => 3,
        Refusal::NoSuchName => 4,
        Refusal::WrongKind => 5,
        Refusal::BadValue { .. } => 6,
        Refusal::Full { .. } => 7,
        Refusal::HasParent => 8,
        Refusal::Cycle => 9,
        Refusal::TooDeep => 10,
        Refusal::CellTaken => 11,
        Refusal::AlreadyOpen => 12,
        Refusal::NotOpen => 13,
        Refusal::NoMode => 14,
        Refusal::Admitted => 15,
        Refusal::Budget { .. } => 16,
        Refusal::NotAdmitted => 17,
        Refusal::FrameSize { .. } => 18,
        Refusal::InUse => 19,
        Refusal::NotConnected => 20,
        Refusal::NotHere => 21,
        Refusal::Connected => 22,
    }
}

/// The further numbers of an error, each after a space.
fn put_details(text: &mut ArrayString<256>, refusal: &Refusal)
    requires { array_string_len text.old + 24 ≤ 256 }
    ensures { text.new.bytes ≡ text.old.bytes ++ flat_map spaced (error_details refusal.now) }
{
    match refusal {
        Refusal::Syntax { place } => put_spaced_count(text, *place),
        Refusal::BadValue { least, greatest } => {
            put_spaced(text, *least);
            put_spaced(text, *greatest);
        }
        Refusal::Full { limit } => put_spaced_count(text, *limit),
        Refusal::Budget { need, left } => {
            put_spaced_count(text, *need);
            put_spaced_count(text, *left);
        }
        Refusal::FrameSize { want, got } => {
            put_spaced_count(text, *want);
            put_spaced_count(text, *got);
        }
        _ => {}
    }
}

/// The text of an error.
fn of_refusal(refusal: &Refusal) -> ArrayString<256>
    ensures { result.bytes ≡ codes "error" ++ spaced (pos (error_number refusal.now)) ++ flat_map spaced (error_details refusal.now) }
{
    let mut text = ArrayString::new();
    text.push_str("error");
    put_spaced_count(&mut text, number_of(refusal));
    put_details(&mut text, refusal);
    text
}

/// The text of an event.
fn of_event(tag: Name, event: EventKind, a: i32, b: i32) -> ArrayString<256>
    ensures { result.bytes ≡ reply_text (reply_of.Event tag event a b) }
{
    let mut text = ArrayString::new();
    text.push_str("event ");
    put_name(&mut text, tag);
    text.push_str(" ");
    put_word(&mut text, event);
    put_spaced(&mut text, a);
    put_spaced(&mut text, b);
    text
}

/// The text of a reply, without a line feed (docs/GUIDE.md, "Replies").
pub fn print_reply(reply: &Reply) -> ArrayString<256>
    ensures { result.bytes ≡ reply_text reply.now }
{
    let mut text = ArrayString::new();
    match reply {
        Reply::Done => text.push_str("ok"),
        Reply::Number(n) => {
            text.push_str("ok");
            put_spaced(&mut text, *n);
        }
        Reply::Words(words) => {
            text.push_str("ok ");
            put_quoted(&mut text, words);
        }
        Reply::Event { tag, event, a, b } => return of_event(*tag, *event, *a, *b),
        Reply::NoEvent => text.push_str("none"),
        Reply::Lost(n) => {
            text.push_str("lost");
            put_spaced_count(&mut text, *n);
        }
        Reply::Refused(refusal) => return of_refusal(refusal),
    }
    text
}

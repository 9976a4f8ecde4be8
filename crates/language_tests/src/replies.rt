//! The texts of replies.
use cmd_text::{Refusal, Reply, print_reply};
use kind_core::{EventKind, Name, Text, name_from, text_from};
use std::process::Abort;
use std::test::Fail;

fn name(bytes: &[u8]) -> Result<Name, &'static str> {
    name_from(bytes).ok_or("a name")
}

fn words(bytes: &[u8]) -> Result<Text, &'static str> {
    text_from(bytes).ok_or("a text")
}

/// The reply has that text.
fn reads(rt: &impl Abort, reply: Reply, text: &str) {
    assert_eq!(rt; print_reply(&reply).as_str(), text);
}

#[test]
fn texts_of_plain_replies(rt: HostRuntime) {
    reads(&rt, Reply::Done, "ok");
    reads(&rt, Reply::Number(0), "ok 0");
    reads(&rt, Reply::Number(-1024), "ok -1024");
    reads(&rt, Reply::NoEvent, "none");
    reads(&rt, Reply::Lost(1), "lost 1");
    reads(&rt, Reply::Refused(Refusal::Memory), "error 1");
}

#[test]
fn texts_of_replies_with_words(rt: HostRuntime) -> Result<(), Fail> {
    let event = Reply::Event {
        tag: name(b"a")?,
        event: EventKind::Release,
        a: -21,
        b: 48,
    };
    reads(&rt, Reply::Words(words(b"a\"b")?), "ok \"a\\\"b\"");
    reads(&rt, event, "event a release -21 48");
    Ok(())
}

/// The refusal has that text.
fn says(rt: &impl Abort, refusal: Refusal, text: &str) {
    reads(rt, Reply::Refused(refusal), text);
}

#[test]
fn texts_of_refusals_1_to_7(rt: HostRuntime) {
    let range = Refusal::BadValue {
        least: -1024,
        greatest: 1024,
    };
    says(&rt, Refusal::Memory, "error 1");
    says(&rt, Refusal::Syntax { place: 13 }, "error 2 13");
    says(&rt, Refusal::NameTaken, "error 3");
    says(&rt, Refusal::NoSuchName, "error 4");
    says(&rt, Refusal::WrongKind, "error 5");
    says(&rt, range, "error 6 -1024 1024");
    says(&rt, Refusal::Full { limit: 128 }, "error 7 128");
}

#[test]
fn texts_of_refusals_8_to_15(rt: HostRuntime) {
    says(&rt, Refusal::HasParent, "error 8");
    says(&rt, Refusal::Cycle, "error 9");
    says(&rt, Refusal::TooDeep, "error 10");
    says(&rt, Refusal::CellTaken, "error 11");
    says(&rt, Refusal::AlreadyOpen, "error 12");
    says(&rt, Refusal::NotOpen, "error 13");
    says(&rt, Refusal::NoMode, "error 14");
    says(&rt, Refusal::Admitted, "error 15");
}

#[test]
fn texts_of_refusals_16_to_22(rt: HostRuntime) {
    says(
        &rt,
        Refusal::Budget { need: 40, left: 10 },
        "error 16 40 10",
    );
    says(&rt, Refusal::NotAdmitted, "error 17");
    says(
        &rt,
        Refusal::FrameSize { want: 100, got: 0 },
        "error 18 100 0",
    );
    says(&rt, Refusal::InUse, "error 19");
    says(&rt, Refusal::NotConnected, "error 20");
    says(&rt, Refusal::NotHere, "error 21");
    says(&rt, Refusal::Connected, "error 22");
}

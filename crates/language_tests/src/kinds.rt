//! The table of kinds and attributes.
use kind_core::{Attr, AttrRefusal, EventKind, Kind, Text, Value, check, default_of, gives};
use std::process::Abort;

/// Whether the kind's attribute may have that value.
fn is_judged(
    rt: &impl Abort,
    kind: Kind,
    attr: Attr,
    value: Value,
    answer: Result<(), AttrRefusal>,
) {
    assert_eq!(rt; check(kind, attr, &value), answer);
}

/// The empty text as a value.
fn words() -> Value {
    Value::Words(Text::empty())
}

/// The kind's attribute may not have that value.
fn is_strange(rt: &impl Abort, kind: Kind, attr: Attr, value: Value) {
    is_judged(rt, kind, attr, value, Err(AttrRefusal::NotOfKind));
}

/// The kind's attribute has values from the least to the greatest, and this number is outside.
fn is_outside(rt: &impl Abort, kind: Kind, attr: Attr, number: i32, least: i32, greatest: i32) {
    let outside = Err(AttrRefusal::OutOfRange { least, greatest });
    is_judged(rt, kind, attr, Value::Number(number), outside);
}

#[test]
fn a_value_is_one_that_the_attribute_takes(rt: HostRuntime) {
    is_judged(&rt, Kind::Window, Attr::W, Value::Number(16), Ok(()));
    is_outside(&rt, Kind::Window, Attr::W, 15, 16, 1024);
    is_strange(&rt, Kind::Window, Attr::W, words());
    is_strange(&rt, Kind::Window, Attr::Text, words());
}

/// The value that the kind's attribute has at first.
fn begins_with(rt: &impl Abort, kind: Kind, attr: Attr, value: Option<Value>) {
    assert_eq!(rt; default_of(kind, attr), value);
}

#[test]
fn an_attribute_has_a_first_value(rt: HostRuntime) {
    begins_with(&rt, Kind::Entry, Attr::Cols, Some(Value::Number(16)));
    begins_with(&rt, Kind::Label, Attr::Text, Some(words()));
    begins_with(&rt, Kind::Grid, Attr::X, None);
}

#[test]
fn a_kind_gives_its_events(rt: HostRuntime) {
    assert!(rt; gives(Kind::VScreen, EventKind::Motion));
    assert!(rt; !gives(Kind::Label, EventKind::Press));
}

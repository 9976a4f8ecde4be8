use look_core::{Look, row_span};
use std::process::Abort;

/// A label's span from `from` up to `to` in row `y` reads as wanted, and what lies behind it isn't touched.
fn label_reads(rt: &impl Abort, w: u32, h: u32, y: u32, from: u32, to: u32, wanted: &[u8]) {
    assert!(rt; from <= to && to <= w);
    assert!(rt; w <= 4128 && h <= 4128);
    assert!(rt; y < h && to - from <= 16);
    let mut out = [99; 16];
    let look = Look::LabelLook { shown: b"A" };
    row_span(&look, w, h, y, from, to, &mut out[..(to - from) as usize]);
    assert_eq!(rt; out.as_slice(), wanted);
}

#[test]
fn a_span_begins_and_ends_anywhere(rt: HostRuntime) {
    label_reads(
        &rt,
        10,
        12,
        4,
        1,
        7,
        &[3, 0, 3, 3, 3, 0, 99, 99, 99, 99, 99, 99, 99, 99, 99, 99],
    );
    label_reads(
        &rt,
        10,
        12,
        4,
        5,
        9,
        &[3, 0, 3, 3, 99, 99, 99, 99, 99, 99, 99, 99, 99, 99, 99, 99],
    );
    label_reads(&rt, 10, 12, 4, 6, 6, &[99; 16]);
    label_reads(&rt, 10, 12, 4, 10, 10, &[99; 16]);
}

#[test]
fn a_widget_may_have_no_width_or_one_row(rt: HostRuntime) {
    label_reads(&rt, 0, 12, 4, 0, 0, &[99; 16]);
    label_reads(
        &rt,
        3,
        1,
        0,
        0,
        3,
        &[3, 3, 3, 99, 99, 99, 99, 99, 99, 99, 99, 99, 99, 99, 99, 99],
    );
}

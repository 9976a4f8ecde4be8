use crate::pixels::{shows, text};
use look_core::Look;
use std::process::Abort;

// The columns of the glyph of `A` are 7C 12 11 12 7C: rows 2 to 6, rows 1 and 4, rows 0 and 4, rows 1 and 4, rows
// 2 to 6.

fn window_shows(rt: &impl Abort, title: &[u8], w: u32, h: u32, table: &str) {
    let title = text(rt, title);
    shows(rt, &Look::WindowLook { title: &title }, w, h, table);
}

#[test]
fn a_window_has_its_edge_its_title_and_its_ground(rt: HostRuntime) {
    window_shows(
        &rt,
        b"A",
        20,
        16,
        "0 0 4
0 5 4
19 7 4
19 15 4
10 0 4
7 15 4
3 4 6
5 2 6
5 6 6
3 2 5
5 3 5
8 4 5
9 4 5
1 1 5
10 11 5
10 12 3
18 14 3",
    );
}

#[test]
fn a_long_title_ends_at_the_edge(rt: HostRuntime) {
    window_shows(
        &rt,
        b"----------",
        20,
        16,
        "3 5 6
7 5 6
8 5 5
9 5 6
15 5 6
18 5 6
19 5 4
18 4 5
18 6 5",
    );
}

#[test]
fn a_grid_a_frame_and_a_vscreen_without_film_are_plain(rt: HostRuntime) {
    let grounds = "0 0 3
6 0 3
3 2 3
6 4 3";
    shows(&rt, &Look::GridLook, 7, 5, grounds);
    shows(&rt, &Look::FrameLook, 7, 5, grounds);
    shows(
        &rt,
        &Look::NoFilm,
        7,
        5,
        "0 0 14
6 0 14
3 2 14
6 4 14",
    );
}

#[test]
fn a_label_has_ink_on_its_ground(rt: HostRuntime) {
    shows(
        &rt,
        &Look::LabelLook { shown: b"!A" },
        16,
        12,
        "0 0 3
4 1 3
4 2 0
4 7 3
4 8 0
4 9 3
7 4 3
8 4 0
8 3 3
10 2 0
12 8 0
12 9 3
14 4 3
15 11 3",
    );
}

fn button_shows(rt: &impl Abort, held: bool, table: &str) {
    let text = text(rt, b"A");
    shows(rt, &Look::ButtonLook { text: &text, held }, 30, 20, table);
}

#[test]
fn a_button_has_another_face_while_it_is_held(rt: HostRuntime) {
    button_shows(
        &rt,
        false,
        "0 0 4
29 10 4
10 19 4
0 10 4
4 6 0
6 4 0
4 4 7
9 6 7
28 18 7",
    );
    button_shows(
        &rt,
        true,
        "0 0 4
29 10 4
4 6 0
4 4 8
28 18 8",
    );
}

fn entry_shows(rt: &impl Abort, caret: u32, focus: bool, w: u32, table: &str) {
    let text = text(rt, b"AA");
    assert!(rt; caret as usize <= text.as_slice().len());
    let look = Look::EntryLook {
        text: &text,
        caret,
        focus,
    };
    shows(rt, &look, w, 12, table);
}

#[test]
fn an_entry_without_focus_has_no_caret(rt: HostRuntime) {
    entry_shows(
        &rt,
        0,
        false,
        40,
        "0 0 4
39 5 4
20 11 4
2 4 0
2 2 12
8 4 0
7 5 12
20 5 12",
    );
}

#[test]
fn an_entry_with_focus_has_its_edge_and_its_caret(rt: HostRuntime) {
    entry_shows(
        &rt,
        0,
        true,
        40,
        "0 0 13
39 5 13
20 11 13
2 1 12
2 2 13
2 4 13
2 9 13
2 10 12
1 4 12
3 3 0
3 2 12
8 4 0",
    );
    entry_shows(
        &rt,
        1,
        true,
        40,
        "2 4 0
2 2 12
7 5 12
8 2 13
8 4 13
8 9 13
8 10 12
9 3 0
9 5 12",
    );
    entry_shows(
        &rt,
        2,
        true,
        15,
        "13 5 12
14 5 13
14 1 13
14 10 13",
    );
}

fn scale_shows(
    rt: &impl Abort,
    value: u32,
    max: u32,
    vert: bool,
    held: bool,
    w: u32,
    h: u32,
    table: &str,
) {
    assert!(rt; 1 <= max && max <= 10_000);
    assert!(rt; value <= max);
    let look = Look::ScaleLook {
        value,
        max,
        vert,
        held,
    };
    shows(rt, &look, w, h, table);
}

#[test]
fn the_knob_of_a_scale_is_8_long_and_stands_by_the_value(rt: HostRuntime) {
    scale_shows(
        &rt,
        50,
        100,
        false,
        false,
        108,
        11,
        "49 0 9
50 0 10
57 10 10
58 0 9
0 5 4
49 5 4
50 5 10
57 5 10
58 5 4
0 4 9
0 6 9",
    );
    scale_shows(
        &rt,
        100,
        100,
        false,
        true,
        108,
        11,
        "99 5 4
99 4 9
100 5 11
107 0 11",
    );
    scale_shows(
        &rt,
        1,
        3,
        false,
        false,
        18,
        4,
        "2 0 9
3 0 10
10 3 10
11 3 9
11 2 4
11 1 9",
    );
}

#[test]
fn a_scale_that_stands_upright_goes_by_rows(rt: HostRuntime) {
    scale_shows(
        &rt,
        50,
        100,
        true,
        false,
        11,
        108,
        "0 49 9
0 50 10
10 57 10
0 58 9
5 49 4
5 50 10
5 0 4
4 0 9
6 0 9",
    );
    scale_shows(
        &rt,
        3,
        3,
        true,
        true,
        4,
        7,
        "0 0 11
3 6 11
2 3 11",
    );
}

fn scrollbar_shows(
    rt: &impl Abort,
    value: u32,
    real: u32,
    view: u32,
    vert: bool,
    held: bool,
    w: u32,
    h: u32,
    table: &str,
) {
    assert!(rt; 1 <= real && real <= 10_000);
    assert!(rt; value <= real.saturating_sub(view));
    let look = Look::ScrollLook {
        value,
        real,
        view,
        vert,
        held,
    };
    shows(rt, &look, w, h, table);
}

#[test]
fn the_knob_of_a_scrollbar_is_as_long_as_its_view(rt: HostRuntime) {
    scrollbar_shows(
        &rt,
        25,
        100,
        50,
        false,
        false,
        40,
        10,
        "9 0 9
10 0 10
29 9 10
30 9 9",
    );
    scrollbar_shows(
        &rt,
        50,
        100,
        50,
        false,
        true,
        40,
        10,
        "19 5 9
20 5 11
39 5 11",
    );
    scrollbar_shows(
        &rt,
        2,
        7,
        2,
        false,
        false,
        30,
        10,
        "7 0 9
8 0 10
15 0 10
16 0 9",
    );
    scrollbar_shows(
        &rt,
        25,
        100,
        50,
        true,
        false,
        10,
        40,
        "0 9 9
0 10 10
9 29 10
9 30 9",
    );
}

#[test]
fn the_knob_of_a_scrollbar_has_its_least_and_greatest_length(rt: HostRuntime) {
    scrollbar_shows(
        &rt,
        9999,
        10_000,
        1,
        false,
        false,
        40,
        10,
        "31 0 9
32 0 10
39 9 10",
    );
    scrollbar_shows(
        &rt,
        1,
        2,
        1,
        false,
        false,
        5,
        3,
        "0 0 10
4 2 10",
    );
    scrollbar_shows(
        &rt,
        0,
        100,
        100,
        false,
        false,
        20,
        10,
        "0 0 10
19 9 10",
    );
    scrollbar_shows(
        &rt,
        0,
        100,
        10_000,
        true,
        true,
        20,
        10,
        "0 0 11
19 9 11",
    );
}

#[test]
fn a_vscreen_shows_its_film_and_a_ground_beside_it(rt: HostRuntime) {
    let film = Look::FilmLook {
        w: 3,
        h: 2,
        row: &[7, 0, 255],
    };
    shows(
        &rt,
        &film,
        5,
        4,
        "0 1 7
1 1 0
2 1 255
3 1 14
4 0 14
0 2 14
2 3 14",
    );
    shows(
        &rt,
        &film,
        2,
        1,
        "0 0 7
1 0 0",
    );
}

//! Parts of rows that are lent for writing.
use canvas_core::Canvas;
use std::process::Abort;
use std::test::Fail;

/// Lends so many pixels from column `x` of row `y` on.
fn lends<'a>(rt: &impl Abort, canvas: &'a mut Canvas, x: u32, y: u32, len: u32) -> &'a mut [u8] {
    assert!(rt; x <= 16 && len <= 16 && x + len <= canvas.width());
    assert!(rt; y < canvas.height() && canvas.writes() < 1000);
    canvas.row_for(x, y, len)
}

/// Puts one byte into column `x` of row `y`.
fn puts(rt: &impl Abort, canvas: &mut Canvas, x: u32, y: u32, byte: u8) {
    assert!(rt; x < canvas.width() && y < canvas.height() && canvas.writes() < 1000);
    canvas.put_row(x, y, &[byte]);
}

/// Does what the row says: it fills, lends or puts so many pixels from that column and row on, or starts the count.
fn does(rt: &impl Abort, canvas: &mut Canvas, row: &str, numbers: [u32; 6]) {
    let [x, y, len, byte, _, _] = numbers;
    let byte = (byte % 256) as u8;
    if row.starts_with("fill") {
        lends(rt, canvas, x, y, len).fill(byte);
    } else if row.starts_with("lend") {
        assert_eq!(rt; lends(rt, canvas, x, y, len).len(), len as usize);
    } else if row.starts_with("put") {
        puts(rt, canvas, x, y, byte);
    } else {
        canvas.start_count();
    }
}

/// So many bytes and spans were counted, by the row's last two numbers.
fn has_counted(rt: &impl Abort, canvas: &Canvas, row: &str, numbers: [u32; 6]) {
    let [_, _, _, _, writes, spans] = numbers;
    let counts = (canvas.writes(), canvas.spans());
    assert_eq!(rt; counts, (writes, spans), "at {row}");
}

/// The calls above wrote 24 bytes in 5 spans, of which the last 1 and 1 came after the count was started anew.
fn has_counted_in_all(rt: &impl Abort, canvas: &Canvas) {
    let counts = (canvas.all_writes(), canvas.all_spans());
    assert_eq!(rt; counts, (24, 5));
}

/// The six numbers behind the first word of a row; a number that is missing is 0.
fn numbers_of(row: &str) -> Result<[u32; 6], Fail> {
    let mut numbers = [0; 6];
    for (place, word) in row.split_whitespace().skip(1).take(6).enumerate() {
        if place < 6 {
            numbers[place] = word.parse()?;
        }
    }
    Ok(numbers)
}

/// A call, its column, its row, its number of pixels and its byte; then the bytes and spans counted.
const CALLS: &str = "fill 3 1 4 7   4 1
fill 0 16 16 5   20 2
fill 16 0 0 9   20 2
put 15 0 1 6   21 3
lend 8 8 2 0   23 4
start 0 0 0 0   0 0
lend 0 3 0 0   0 0
fill 1 0 1 3   1 1";

/// Runs of bytes: the first one's place, how many, and their value.
const RUNS: [(usize, usize, u8); 4] = [(1, 1, 3), (15, 1, 6), (19, 4, 7), (256, 16, 5)];

/// The bytes of the screen are those of the runs, and else the desk's colour.
fn has_runs(rt: &impl Abort, canvas: &Canvas, runs: &[(usize, usize, u8)]) {
    for (k, byte) in canvas.bytes().iter().enumerate() {
        let run = runs
            .iter()
            .find(|(from, len, _)| *from <= k && k - *from < *len);
        assert_eq!(rt; *byte, run.map_or(2, |(_, _, value)| *value), "at {k}");
    }
}

/// Does what each row says, and compares what is counted.
fn draws(rt: &impl Abort, canvas: &mut Canvas, calls: &str) -> Result<(), Fail> {
    for row in calls.lines() {
        let numbers = numbers_of(row)?;
        does(rt, canvas, row, numbers);
        has_counted(rt, canvas, row, numbers);
    }
    has_runs(rt, canvas, &RUNS);
    has_counted_in_all(rt, canvas);
    Ok(())
}

#[test]
fn a_lent_row_is_written_in_place_and_counted_once(rt: HostRuntime) -> Result<(), Fail> {
    draws(&rt, &mut Canvas::new(rt.alloc(), 16, 17)?, CALLS)
}

//! Single calls of a source and of a sink, made through their bounds as the callers above make them, and compared
//! with what a row of a table says.
use outside_io::{Failed, Sink, Source, write_all};
use std::process::Abort;
use std::test::Fail;

/// The bytes that a column of a table stands for: `-` is none.
fn bytes_of(column: &str) -> &[u8] {
    match column {
        "-" => &[],
        _ => column.as_bytes(),
    }
}

/// Whether a read into a buffer of so many bytes, at most 8, gives what is wanted, and leaves the rest of the
/// buffer as it was.
fn reads<S: Source>(source: &mut S, room: usize, wanted: &str) -> bool {
    let mut buffer = [b'.'; 8];
    match source.read(&mut buffer[..room.min(8)]) {
        Ok(count) => {
            buffer.as_slice().starts_with(bytes_of(wanted))
                && bytes_of(wanted).len() == count
                && buffer.iter().skip(count).all(|byte| *byte == b'.')
        }
        Err(Failed) => wanted == "failed" && buffer.iter().all(|byte| *byte == b'.'),
    }
}

/// Reads by the rows of a table, each the length of a buffer and what it gets: bytes, `-` for none, or `failed`.
pub fn reads_all<S: Source>(rt: &impl Abort, source: &mut S, table: &str) -> Result<(), Fail> {
    for row in table.lines() {
        let (room, wanted) = row.split_once(' ').ok_or("a row has no answer")?;
        let is_so = reads(source, room.parse()?, wanted);
        assert!(rt; is_so, "at {row}");
    }
    Ok(())
}

/// Whether a count, or `failed`, is what a call answered.
fn is_count(answer: Result<usize, Failed>, wanted: &str) -> bool {
    match answer {
        Ok(count) => wanted.parse() == Ok(count),
        Err(Failed) => wanted == "failed",
    }
}

/// Whether `ok`, or `failed`, is what a call answered.
pub fn is_done(answer: Result<(), Failed>, wanted: &str) -> bool {
    match answer {
        Ok(()) => wanted == "ok",
        Err(Failed) => wanted == "failed",
    }
}

/// Writes by the rows of a table, each the bytes, `-` for none, and the answer: how many were taken, or `failed`.
/// A row that begins with `all` writes all of the bytes, and its answer is `ok` or `failed`.
pub fn writes_all<K: Sink>(rt: &impl Abort, sink: &mut K, table: &str) -> Result<(), Fail> {
    for row in table.lines() {
        let is_so = match row.split_once(' ').ok_or("a row has no answer")? {
            ("all", rest) => {
                let (bytes, wanted) = rest.split_once(' ').ok_or("a row has no answer")?;
                is_done(write_all(sink, bytes_of(bytes)), wanted)
            }
            (bytes, wanted) => is_count(sink.write(bytes_of(bytes)), wanted),
        };
        assert!(rt; is_so, "at {row}");
    }
    Ok(())
}

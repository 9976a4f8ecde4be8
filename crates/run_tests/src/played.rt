//! One run of a script in memory, as the tests make it.
ghost use Rattle.std.specs.Prelude.{◌≤◌};

use dope_run::{Server, Status, report, run};
use outside_io::{MemSink, MemSource, Sink, Source};
use std::alloc::Global;
use std::test::Fail;

/// The words of the first script's run.
pub const WORDS: &str = "play --width 32 --height 32 --budget 100 --spare 10";

/// A script that opens a window of 20 by 20 pixels and draws it in four ticks.
pub const SCRIPT: &str =
    "connect 1\n1 w = new Window()\n1 w.set(-w 20 -h 20)\n1 w.open()\ndirty\ntick 4\npixel 0 0\npixel 1 1\npixel 1 12\npixel 20 20\n";

/// What that script writes under those words.
pub const TRANSCRIPT: &str =
    "1 ok\n1 ok\n1 ok\n1 ok\ndirty 400\ndrew 0+100 left 300\ndrew 0+100 left 200\ndrew 0+100 left 100\ndrew 0+100 left 0\npixel 4\npixel 5\npixel 3\npixel 2\n";

/// What a run came to: its status, what the sink holds, how many bytes the source has left, and whether a server was
/// kept.
#[derive(Drop)]
pub struct Played {
    pub status: Status,
    pub held: Vec<u8>,
    pub left: usize,
    pub is_kept: bool,
}

/// The words of a line, between its spaces; `~` is an empty one.
pub fn words_of(alloc: Global, line: &str) -> Result<Vec<String>, Fail> {
    let mut words = Vec::new(alloc);
    for word in line.split(' ') {
        words.push(if word == "~" { "" } else { word }.to_string(alloc)?)?;
    }
    Ok(words)
}

/// Runs the words over a source and a sink, and answers the status and whether a server was kept.
pub fn run_over<S: Source, K: Sink>(
    alloc: Global,
    words: &[String],
    source: &mut S,
    sink: &mut K,
) -> (Status, bool) {
    let mut kept: Option<Server> = None;
    let status = run(alloc, words, source, sink, &mut kept);
    (status, kept.is_some())
}

/// Runs the words over the script. The source gives at most `step` bytes a read; it fails at the reads, and the
/// sink at the writes, of these numbers.
pub fn play_with(
    alloc: Global,
    words: &str,
    script: &[u8],
    step: usize,
    bad_reads: &[u64],
    bad_writes: &[u64],
) -> Result<Played, Fail>
    requires { 1 ≤ step }
{
    let words = words_of(alloc, words)?;
    let mut source = MemSource::new(script.to_vec(alloc)?, step, bad_reads.to_vec(alloc)?);
    let mut sink = MemSink::new(alloc, 65536, bad_writes.to_vec(alloc)?)?;
    let (status, is_kept) = run_over(alloc, words.as_slice(), &mut source, &mut sink);
    Ok(Played {
        status,
        held: sink.held().to_vec(alloc)?,
        left: source.left().len(),
        is_kept,
    })
}

/// Whether a run ended so: `done`, or the program's message without its name, as `bad script at line 2`.
pub fn is_status(status: &Status, wanted: &str) -> bool {
    let told = report(status);
    match told.err.as_str().strip_prefix("dope: ") {
        Some(message) => message.trim_end() == wanted,
        None => wanted == "done",
    }
}

/// The three columns of a table's row.
pub fn columns(row: &str) -> Result<(&str, &str, &str), Fail> {
    let (first, rest) = row.split_once(" | ").ok_or("a row has no second column")?;
    let (second, third) = rest.split_once(" | ").ok_or("a row has no third column")?;
    Ok((first, second, third))
}

/// The bytes that a column stands for: each `/` is a line feed, and `-` is no bytes.
pub fn bytes_of(alloc: Global, column: &str) -> Result<Vec<u8>, Fail> {
    let mut bytes = Vec::new(alloc);
    if column == "-" {
        return Ok(bytes);
    }
    for byte in column.as_bytes() {
        bytes.push(if *byte == b'/' { b'\n' } else { *byte })?;
    }
    Ok(bytes)
}

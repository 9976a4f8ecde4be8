//! How a run ends.

/// How a run ends. See docs/GUIDE.md, "How a run ends".
///
/// - `Done`: the script was read to its end, and all its output was written.
/// - `ReadFault`, `WriteFault`: the source, or the sink, failed.
/// - `Usage`: the words order no command that is built.
/// - `BadScript`: that line, counted from 1, is the first outside the grammar.
/// - `NoMemory`: there was no memory to open the server.
/// - `TooMuch`: the script has more than 67,108,864 bytes.
#[derive(Clone, Copy, Debug, PartialEq, Eq)]
pub enum Status {
    Done,
    ReadFault,
    WriteFault,
    Usage,
    BadScript { line: u64 },
    NoMemory,
    TooMuch,
}

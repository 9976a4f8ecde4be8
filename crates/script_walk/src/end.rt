//! How a walk ends.

/// How a walk over a script ends.
///
/// - `Done`: the script was read to its end, and all output was written.
/// - `ReadFault`, `WriteFault`: the source, or the sink, failed.
/// - `BadLine`: that line, counted from 1, is the first outside the grammar.
/// - `TooMuch`: the script has more than 67,108,864 bytes.
#[derive(Clone, Copy, Debug, PartialEq, Eq)]
pub enum End {
    Done,
    ReadFault,
    WriteFault,
    BadLine { line: u64 },
    TooMuch,
}

//! How a session ends.

/// How a session ends. Lines are counted from 1, payload bytes are no lines, and the count stays at
/// 18,446,744,073,709,551,615 once it is there. See docs/MACHINE.md, "The lines of a connection".
///
/// - `Bye`: the line `bye` came, and its reply was written.
/// - `EndOfInput`: a read gave no bytes.
/// - `LinkFault`: the link failed.
/// - `LineTooLong`: that line has more than 512 bytes before its line feed.
/// - `BadFrame`: that line is a bad frame line, with its place.
#[derive(Clone, Copy, Debug, PartialEq, Eq)]
pub enum End {
    Bye,
    EndOfInput,
    LinkFault,
    LineTooLong { line: u64 },
    BadFrame { line: u64, place: u32 },
}

//! What comes next out of the bytes of a connection.

/// What comes next out of the bytes of a connection. See docs/MACHINE.md, "The lines of a connection".
///
/// - `More`: no whole line with its payload is in, and what is in is neither too long nor a bad frame line.
/// - `Line`: a line that no payload follows.
/// - `Payload`: a frame line with its payload.
/// - `TooLong`: a line has more than 512 bytes before its line feed.
/// - `BadFrame`: a frame line is no command, or its payload has more than 65,536 bytes; the place is how many bytes
///   its longest front has that begins some command, or the line's length where only the payload is too large.
#[derive(Clone, Copy, Debug, PartialEq, Eq)]
pub enum Cut {
    More,
    Line,
    Payload,
    TooLong,
    BadFrame { place: u32 },
}

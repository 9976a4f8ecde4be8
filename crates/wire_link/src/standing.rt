//! How a session stands between two of its lines.

/// How a session stands between two of its lines: before its `hello`, as a client, as a console, or after its `bye`.
#[derive(Clone, Copy, Debug, PartialEq, Eq)]
pub enum Standing {
    Before,
    Client,
    Console,
    Over,
}

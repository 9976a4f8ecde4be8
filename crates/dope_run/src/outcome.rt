//! What the program tells of a status.
use arrayvec::ArrayString;

/// What the program tells of a status: its exit status, its text for standard output and its text for
/// standard error, each with its line feed, or empty. See docs/GUIDE.md, "How a run ends".
#[derive(Drop, Debug)]
pub struct Report {
    pub exit: u8,
    pub out: ArrayString<64>,
    pub err: ArrayString<64>,
}

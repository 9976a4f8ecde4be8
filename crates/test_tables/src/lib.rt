//! Rows of words that tests read, and the widgets of client 1 that they make of them. A row that isn't as the test means
//! it is a `Fail`, so a test with a wrong table doesn't pass. No crate of the program stands on this one.
#![tactic(auto)]

mod building;
mod films;
mod making;
mod tracks;
mod widgets;
mod words;

pub use building::{join, make_all, make_rows};
pub use making::make;
pub use widgets::{grid, named, other, widget};
pub use words::{attr, event, index, integer, kind, name, number, rect, rows, word};

//! Which commands of a client, and which values of its widgets, may move a widget.
#![tactic(auto)]

mod kinds;
mod moving;
mod room;

pub use moving::{may_move, moves};
pub use room::value_moves;

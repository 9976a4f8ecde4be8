//! Tests of the turnstile. A ledger stands for a value that keeps a journal: its calls show that a
//! client can meet what the turnstile asks, and what it may promise of each call.
#![tactic(auto)]

mod calls;
mod hands;
mod ledger;
mod line;
#[cfg(test)]
mod missing;
#[cfg(test)]
mod threads;
mod turns;
#[cfg(test)]
mod waiting;

pub use calls::{call, settle};
pub use hands::{put_last, take_last};
pub use ledger::Ledger;
pub use line::Line;
pub use turns::{take_turns, turns_of_all};

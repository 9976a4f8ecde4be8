//! Admission: whose shares of the drawing time are promised, never more than the limit in all.
#![tactic(auto)]

mod over_budget;
mod roster;
pub mod threads;

pub use over_budget::OverBudget;
pub use roster::Roster;

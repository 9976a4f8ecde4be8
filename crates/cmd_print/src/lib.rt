//! The printed form of commands, and the texts of replies. Nothing here takes memory.
#![tactic(auto)]

mod printing;
mod putting;
mod replying;

pub use printing::print;
pub use replying::print_reply;

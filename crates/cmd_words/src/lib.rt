//! The words of the command language: commands, options, replies and refusals as values, how each word is
//! written, and the grammar, which says which line stands for which command. Nothing here takes memory.
#![tactic(auto)]

mod commands;
mod inputs;
mod lists;
mod methods;
mod replies;
mod words;

pub use commands::{Command, ConfigOption, PlaceOption};
pub use inputs::{Drew, Input};
pub use lists::Options;
pub use methods::Method;
pub use replies::{Refusal, Reply};
pub use words::Word;

//! The command language: which lines are commands, and what they mean. What the language speaks of and how
//! it is printed stand in cmd_words and cmd_print, and are named here too. Nothing here takes memory.
#![tactic(auto)]

mod command_lines;
mod counts;
mod frames;
mod fronts;
pub mod laws;
mod optioning;
mod parsing;
mod picking;
mod reading;

pub use cmd_print::{print, print_reply};
pub use cmd_words::{Command, ConfigOption, Drew, Input, Options, PlaceOption, Refusal, Reply};
pub use command_lines::{BadLine, parse};
pub use counts::count_from;
pub use frames::is_frame_line;

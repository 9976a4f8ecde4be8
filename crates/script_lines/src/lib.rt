//! The lines of a script: what each asks for. docs/GUIDE.md, "The script", reads the rules in prose. Nothing
//! here takes memory.
#![tactic(auto)]

mod client;
mod digits;
pub mod laws;
mod line;
mod number;
mod order;
mod parts;
mod payload;
mod plain;

pub use cmd_text::{Command, Input};
pub use line::line_order;
pub use number::number_in;
pub use order::Order;
pub use payload::{payload_of, payload_size};

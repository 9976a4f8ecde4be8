//! The words of a command line, read by `clap`. One table says which commands there are, and which options each has
//! with which numbers; from it follow the `clap` command, the reading and its law. docs/GUIDE.md, "The words", has
//! the table for people, and specs/Table.antt as a definition.
#![tactic(auto)]

mod building;
mod first;
pub mod laws;
mod matched;
mod numbers;
mod order;
mod reading;
mod table;
mod unread;

pub use building::command;
pub use first::{is_render, is_serve};
pub use order::Order;
pub use reading::read;
pub use unread::Unread;

//! The server: the desk, its screen and what is dirty on it. A change of the desk makes dirt; a tick draws the bands of
//! films and a slice of the dirt, at most a budget of pixels. Each call is one step of the machine of machine_model.
#![tactic(auto)]

mod following;
pub mod laws;
mod no_memory;
mod server;
pub mod threads;

pub use cmd_words::{Command, Drew, Input, Reply};
pub use kind_core::Shape;
pub use no_memory::NoMemory;
pub use server::Server;

//! The walk over a script: from the bytes of a source to its lines, each carried out by what the walk is given, up to
//! the end of the script, the first line off the grammar, a fault or the limit. `walk` carries its theorem, for every
//! command that works through a script; docs/MACHINE.md, "The walk over a script", reads it in prose.
#![tactic(auto)]

mod cut;
mod end;
mod ending;
pub mod laws;
mod performer;
mod raw_bytes;
mod reader;
mod walker;
mod walking;

pub use end::End;
pub use outside_io::NoMemory;
pub use performer::Performer;
pub use script_lines::Order;
pub use walking::Walker;

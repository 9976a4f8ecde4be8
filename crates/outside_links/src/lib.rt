//! Connections, ports and threads from outside: what a server reads, writes, accepts and starts, each in memory
//! and as an adapter over the real thing.
#![tactic(auto)]

mod link;
mod mem_link;

pub use link::Link;
pub use mem_link::MemLink;

//! Bytes from outside and to the outside: what is read from, what is written to, each in memory
//! and as an adapter over the real thing.
#![tactic(auto)]

mod failed;
mod mem_sink;
mod mem_source;
mod no_memory;
mod outbox;
mod sink;
mod source;
mod std_in;
mod std_out;

pub use failed::Failed;
pub use mem_sink::MemSink;
pub use mem_source::MemSource;
pub use no_memory::NoMemory;
pub use outbox::Outbox;
pub use sink::{Sink, write_all};
pub use source::Source;
pub use std_in::StdIn;
pub use std_out::StdOut;

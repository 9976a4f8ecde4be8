//! Tests of what is read from and written to: in memory, gathered, and over a reader or a writer of std.
#![tactic(auto)]

#[cfg(test)]
mod adapters;
#[cfg(test)]
mod calls;
#[cfg(test)]
mod memory;
#[cfg(test)]
mod outbox;

//! Tests of what the pointer and the keyboard do, by tables: each row is an input with what it meets, and what it asks
//! of the desk. The places and numbers are worked out by hand.
#![tactic(auto)]

#[cfg(test)]
mod edits;
#[cfg(test)]
mod given;
#[cfg(test)]
mod keys;
#[cfg(test)]
mod pointing;
#[cfg(test)]
mod troughs;
#[cfg(test)]
mod wanted;

//! Tests of a client's kept events: what is posted, and what polls then answer.
#![tactic(auto)]

#[cfg(test)]
mod events;
#[cfg(test)]
mod runs;
#[cfg(test)]
mod tables;

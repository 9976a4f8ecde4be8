//! Tests of what is left to draw: pixels added and taken, against counts worked out by hand and a plain map.
#![tactic(auto)]

#[cfg(test)]
mod beside;
#[cfg(test)]
mod rows;
#[cfg(test)]
mod singles;

//! Tests of the words of the language by tables: names and texts, kinds and attributes, the printed replies, the
//! commands and the lines of a script.
#![tactic(auto)]

#[cfg(test)]
mod commands;
#[cfg(test)]
mod kinds;
#[cfg(test)]
mod names;
#[cfg(test)]
mod replies;
#[cfg(test)]
mod script;
#[cfg(test)]
mod tables;

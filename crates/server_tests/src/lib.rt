//! Tests of the server by tables of lines: what each client is answered, what is dirty, and what the screen shows.
#![tactic(auto)]

#[cfg(test)]
mod lending;
#[cfg(test)]
mod playing;
#[cfg(test)]
mod screens;

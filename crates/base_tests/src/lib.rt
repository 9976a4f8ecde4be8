//! Tests of the base crates by tables: rectangles, room for columns, the window order, admission and the screen.
#![tactic(auto)]

#[cfg(test)]
mod admission;
#[cfg(test)]
mod columns;
#[cfg(test)]
mod orders;
#[cfg(test)]
mod rectangles;
#[cfg(test)]
mod screen;
#[cfg(test)]
mod tables;

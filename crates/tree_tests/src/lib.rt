//! Tests of the tree of widgets by tables of calls: what each call answers, and what the tree then has.
#![tactic(auto)]

#[cfg(test)]
mod asking;
#[cfg(test)]
mod changing;
#[cfg(test)]
mod citing;
#[cfg(test)]
mod copying;
#[cfg(test)]
mod films;
#[cfg(test)]
mod playing;
#[cfg(test)]
mod tables;
#[cfg(test)]
mod widgets;

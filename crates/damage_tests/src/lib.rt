//! Tests of the reach by tables: widgets of client 1, what is shown before and after a change, and the pixels that the
//! change reaches. The pixels and their counts are worked out by hand.
#![tactic(auto)]

#[cfg(test)]
mod cases;
#[cfg(test)]
mod reaching;
#[cfg(test)]
mod showing;

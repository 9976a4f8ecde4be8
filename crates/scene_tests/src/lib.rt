//! Tests of the layout by tables: each row makes or changes a widget of client 1, or says where one is. The places are
//! worked out by hand.
#![tactic(auto)]

#[cfg(test)]
mod edges;
#[cfg(test)]
mod nests;
#[cfg(test)]
mod places;
#[cfg(test)]
mod playing;
#[cfg(test)]
mod shown;

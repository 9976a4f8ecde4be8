//! Tests of painting by tables: each row changes a widget of client 1, opens a Window, paints a piece or a band, or says
//! what the screen then has. What is wanted is worked out by hand from the layout, the looks and the font.
#![tactic(auto)]

#[cfg(test)]
mod bands;
#[cfg(test)]
mod painting;
#[cfg(test)]
mod pieces;
#[cfg(test)]
mod playing;
#[cfg(test)]
mod showing;

//! Tests of the looks: what each kind shows at single pixels, worked out by hand from the table of looks.
#![tactic(auto)]

#[cfg(test)]
mod font;
#[cfg(test)]
mod kinds;
#[cfg(test)]
mod pixels;
#[cfg(test)]
mod spans;

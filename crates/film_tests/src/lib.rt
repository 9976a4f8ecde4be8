//! Tests of films and of admission, by tables: what each call answers, which pixels a beat draws and what is shown.
#![tactic(auto)]

#[cfg(test)]
mod admission;
#[cfg(test)]
mod admitting;
#[cfg(test)]
mod bands;
#[cfg(test)]
mod copying;
#[cfg(test)]
mod filming;
#[cfg(test)]
mod frames;

//! Tests of the desk by rows of commands: what each line of a client is answered.
#![tactic(auto)]

#[cfg(test)]
mod asking;
#[cfg(test)]
mod clients;
#[cfg(test)]
mod copying;
#[cfg(test)]
mod inputs;
#[cfg(test)]
mod placement;
#[cfg(test)]
mod places;
#[cfg(test)]
mod refusals;
#[cfg(test)]
mod screens;
#[cfg(test)]
mod widgets;

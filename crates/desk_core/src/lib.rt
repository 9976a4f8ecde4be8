//! The desk: the sequential server, which answers each client's command.
#![tactic(auto)]

mod asked;
mod asking;
mod carried;
mod clients;
mod copying;
mod desk;
mod feeding;
mod joining;
pub mod laws;
mod member;
mod polling;
pub mod threads;
mod touching;
mod watching;

pub use asking::only_asks;
pub use desk::Desk;

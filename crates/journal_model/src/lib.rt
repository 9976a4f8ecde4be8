//! The definitions of journals: what can be checked of the machine from its answers alone, without its screen. The crates
//! that keep a journal, or judge one, cite them in their contracts; there is no code here but the laws. docs/MACHINE.md
//! reads them in prose.
#![tactic(auto)]

pub mod laws;

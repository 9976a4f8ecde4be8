//! The definitions of the machine: the reach of a change, states, steps, runs, and what holds of every run. Crates
//! above cite them in their contracts; there is no code here. docs/MACHINE.md reads them in prose.
#![tactic(auto)]

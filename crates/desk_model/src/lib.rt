//! The definitions of a desk: clients, each command's row, how events end, and what always holds of a desk. Crates
//! above cite them in their contracts; there is no code here. docs/MACHINE.md reads them in prose.
#![tactic(auto)]

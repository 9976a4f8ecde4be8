//! The definitions of widgets: their rows, names and numbers, how they hang in one another and are linked, and what
//! always holds of them. Crates above cite them in their contracts; there is no code here. docs/MACHINE.md reads them
//! in prose.
#![tactic(auto)]

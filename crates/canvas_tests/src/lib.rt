//! Tests of the screen's rows: what is lent, filled and put, and how it is counted.
#![tactic(auto)]

#[cfg(test)]
mod rows_lent;

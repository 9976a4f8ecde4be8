//! Tests of the run of whole scripts over a source and a sink in memory, of what the built program can't show: faults
//! of single reads and writes, scripts and raw bytes cut at any byte, the order of reads and writes, and the server that is kept.
//! What it can show stands in `cases/`.
#![tactic(auto)]

#[cfg(test)]
mod dumps;
#[cfg(test)]
mod faults;
#[cfg(test)]
mod grammar;
#[cfg(test)]
mod kept;
#[cfg(test)]
mod order;
#[cfg(test)]
mod payloads;
#[cfg(test)]
mod played;
#[cfg(test)]
mod reports;

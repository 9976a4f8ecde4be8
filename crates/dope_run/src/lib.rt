//! The run of a script: from the words of a command line and the bytes of a script to a transcript and a status.
//! `run` carries the headline; specs/Transcript.antt has its definitions, and docs/MACHINE.md reads them in prose.
#![tactic(auto)]

mod ending;
mod obeying;
mod outcome;
mod player;
mod playing;
mod running;
mod stage;
mod status;
mod text;
mod words;

pub use ending::report;
pub use outcome::Report;
pub use running::run;
pub use server_core::Server;
pub use status::Status;

//! `dope`: the window server's command line.
#![tactic(auto)]

use dope_run::{Report, Server, Status, report, run};
use outside_io::{StdIn, StdOut};
use std::env;
use std::io::{self, ErrorKind, Write};
use std::process::ExitCode;

/// The words of the command line, without the program's name.
fn words(rt: &HostRuntime) -> io::Result<Vec<String>> {
    let mut words = Vec::new(rt.alloc());
    for word in env::args(rt)?.skip(1) {
        words.push(word)?;
    }
    Ok(words)
}

/// Runs the command on standard input and output.
fn run_command(rt: &HostRuntime) -> Status {
    match words(rt) {
        Ok(words) => {
            let mut kept: Option<Server> = None;
            run(
                rt.alloc(),
                words.as_slice(),
                &mut StdIn::new(rt.stdin()),
                &mut StdOut::new(rt.stdout()),
                &mut kept,
            )
        }
        Err(error) => unread_words(&error),
    }
}

/// How the program ends where its words can't be had: without memory, or with a word that isn't text.
fn unread_words(error: &io::Error) -> Status {
    match error.kind() {
        ErrorKind::OutOfMemory => Status::NoMemory,
        _ => Status::Usage,
    }
}

/// Writes a report's texts, each where it belongs.
fn tell(rt: &HostRuntime, report: &Report) -> io::Result<()> {
    rt.stdout().write_all(report.out.as_str().as_bytes())?;
    rt.stderr().write_all(report.err.as_str().as_bytes())
}

fn main(rt: HostRuntime) -> ExitCode {
    let report = report(&run_command(&rt));
    let _ = tell(&rt, &report);
    ExitCode::from(report.exit)
}

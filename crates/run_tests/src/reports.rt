//! What the program tells of each status.
use dope_run::{Status, report};
use std::process::Abort;

/// The status has this exit, no text for standard output, and this one for standard error.
fn tells(rt: &impl Abort, status: Status, exit: u8, line: &str) {
    let told = report(&status);
    let is_so = told.exit == exit && told.out.as_str() == "" && told.err.as_str() == line;
    assert!(rt; is_so, "at {status:?}");
}

#[test]
fn each_status_has_its_exit_and_its_line(rt: HostRuntime) {
    tells(&rt, Status::Done, 0, "");
    tells(&rt, Status::ReadFault, 1, "dope: read fault\n");
    tells(&rt, Status::WriteFault, 2, "dope: write fault\n");
    tells(&rt, Status::Usage, 3, "dope: usage\n");
    tells(
        &rt,
        Status::BadScript { line: 1 },
        4,
        "dope: bad script at line 1\n",
    );
    tells(
        &rt,
        Status::BadScript { line: 67108864 },
        4,
        "dope: bad script at line 67108864\n",
    );
    tells(&rt, Status::NoMemory, 5, "dope: no memory\n");
    tells(&rt, Status::TooMuch, 6, "dope: script too long\n");
}

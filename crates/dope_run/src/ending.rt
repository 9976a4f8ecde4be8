//! The report of each status.
ghost use Rattle.std.specs.Prelude.{◌≡◌, ◌≤◌, ◌++◌, [], length, codes, decimal};
ghost use Rattle.dope_run.specs.Report.{exit_of, message_of};

use crate::outcome::Report;
use crate::status::Status;
use arrayvec::ArrayString;
use itoa::Buffer;

/// The report of a status.
#[tactic(auto, unfolding(crate::specs::Report::exit_of))]
pub fn report(status: &Status) -> Report
    ensures exit { result.exit ≡ exit_of status.now }
    ensures out { result.out.bytes ≡ [] }
    ensures err { result.err.bytes ≡ message_of status.now }
{
    let err = message(status);
    Report {
        exit: exit(status),
        out: ArrayString::new(),
        err,
    }
}

#[tactic(auto, unfolding(crate::specs::Report::exit_of))]
fn exit(status: &Status) -> u8
    ensures { result ≡ exit_of status.now }
{
    match status {
        Status::Done => 0,
        Status::ReadFault => 1,
        Status::WriteFault => 2,
        Status::Usage => 3,
        Status::BadScript { line: _ } => 4,
        Status::NoMemory => 5,
        Status::TooMuch => 6,
    }
}

#[tactic(auto, unfolding(crate::specs::Report::message_of))]
fn message(status: &Status) -> ArrayString<64>
    ensures { result.bytes ≡ message_of status.now }
{
    match status {
        Status::Done => ArrayString::new(),
        Status::ReadFault => fixed("dope: read fault\n"),
        Status::WriteFault => fixed("dope: write fault\n"),
        Status::Usage => fixed("dope: usage\n"),
        Status::BadScript { line } => bad_script(*line),
        Status::NoMemory => fixed("dope: no memory\n"),
        Status::TooMuch => fixed("dope: script too long\n"),
    }
}

fn fixed(words: &str) -> ArrayString<64>
    requires { length words.now ≤ 64 }
    ensures { result.bytes ≡ words.now }
{
    let mut text = ArrayString::new();
    text.push_str(words);
    text
}

fn bad_script(line: u64) -> ArrayString<64>
    ensures { result.bytes ≡ codes "dope: bad script at line " ++ decimal line ++ codes "\n" }
{
    let mut text = ArrayString::new();
    let mut number = Buffer::new();
    text.push_str("dope: bad script at line ");
    text.push_str(number.format(line));
    text.push_str("\n");
    text
}

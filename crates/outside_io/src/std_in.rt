ghost use Rattle.std.specs.Prelude.{◌≡◌, ℕ, ◌≤◌, None, is_ok, OnOk, OnErr, IfOk, length, if◌then◌else◌};
ghost use Rattle.std.specs.Io.{ReadsAtMost};
ghost use Rattle.std.specs.Io.KnownBytes.{ReadConsumes};
ghost use Rattle.outside_io.specs.Telling.{TellsAsBefore};
ghost use Rattle.outside_io.specs.Count.{Rose, one_more};

use crate::failed::Failed;
use crate::source::Source;
use std::io::Read;

/// A source over a reader of std, as standard input: the trusted edge, since no clause can say what
/// a file or a terminal gives. It tells no bytes. Each error of the reader is a fault; the count of
/// faults stays at its last value.
#[derive(Drop)]
pub struct StdIn<R: Read + Drop> {
    reader: R,
    faults: u64,
}

impl<R: Read + Drop> StdIn<R> {
    ghost use Rattle.outside_io.specs.Adapter.{reader_of, faults_of_reader};

    /// A source over `reader`, without a fault so far: `StdIn::new(rt.stdin())` in `main`.
    pub fn new(reader: R) -> StdIn<R>
        ensures reader { reader_of result ≡ reader }
        ensures faults { faults_of_reader result ≡ 0 }
    {
        StdIn { reader, faults: 0 }
    }
}

impl<R: Read + Drop> Source for StdIn<R> {
    ghost use Rattle.outside_io.specs.Adapter.{reader_of, faults_of_reader};

    ghost left = { λ _. None };

    ghost faults = { faults_of_reader };

    /// Hands on what the reader answers, and counts its errors. Where the reader tells its bytes,
    /// exactly those are handed on.
    fn read(&mut self, buf: &mut [u8]) -> Result<usize, Failed>
        ensures bound { ReadsAtMost result buf.new }
        ensures bytes { ReadConsumes None None result buf.new }
        ensures tells { TellsAsBefore None None }
        ensures later { faults_of_reader self.old ≤ faults_of_reader self.new }
        ensures cause { OnErr result (Rose (faults_of_reader self.old) (faults_of_reader self.new)) }
        ensures steady { OnOk result (faults_of_reader self.new ≡ faults_of_reader self.old) }
        ensures faults { faults_of_reader self.new ≡ (if is_ok result then faults_of_reader self.old else one_more (faults_of_reader self.old)) }
        ensures handed_on { ReadConsumes (R.remaining (reader_of self.old)) (R.remaining (reader_of self.new)) result buf.new }
    {
        match self.reader.read(buf) {
            Ok(count) => Ok(count),
            Err(_) => {
                self.faults = self.faults.saturating_add(1);
                Err(Failed)
            }
        }
    }
}

ghost use Rattle.std.specs.Prelude.{◌≡◌, ℕ, ◌<◌, ◌≤◌, None, is_ok, OnOk, OnErr, IfOk, length, take, if◌then◌else◌};
ghost use Rattle.std.specs.Io.{WritesAtMost};
ghost use Rattle.std.specs.Io.KnownBytes.{Appends, WriteAppends};
ghost use Rattle.outside_io.specs.Telling.{TellsAsBefore};
ghost use Rattle.outside_io.specs.Count.{Rose, one_more};

use crate::failed::Failed;
use crate::sink::Sink;
use std::io::Write;

/// A sink over a writer of std, as standard output: the trusted edge, since no clause can say what
/// a file or a terminal takes. It tells no bytes. Each error of the writer is a fault, and so is a
/// write that took nothing; the count of faults stays at its last value. Each write is flushed, so
/// nothing is kept back when the program ends.
#[derive(Drop)]
pub struct StdOut<W: Write + Drop> {
    writer: W,
    faults: u64,
}

impl<W: Write + Drop> StdOut<W> {
    ghost use Rattle.outside_io.specs.Adapter.{writer_of, faults_of_writer};

    /// A sink over `writer`, without a fault so far: `StdOut::new(rt.stdout())` in `main`.
    pub fn new(writer: W) -> StdOut<W>
        ensures writer { writer_of result ≡ writer }
        ensures faults { faults_of_writer result ≡ 0 }
    {
        StdOut { writer, faults: 0 }
    }
}

impl<W: Write + Drop> Sink for StdOut<W> {
    ghost use Rattle.outside_io.specs.Adapter.{writer_of, faults_of_writer};

    ghost held = { λ _. None };

    ghost faults = { faults_of_writer };

    /// Hands `bytes` on to the writer and flushes it. An error of either is a fault, and so is a
    /// write that took none of bytes that aren't empty.
    fn write(&mut self, bytes: &[u8]) -> Result<usize, Failed>
        ensures bound { WritesAtMost result bytes.now }
        ensures takes { IfOk result (λ n. 0 < length bytes.now → 0 < n) }
        ensures bytes { WriteAppends None None result bytes.now }
        ensures tells { TellsAsBefore None None }
        ensures later { faults_of_writer self.old ≤ faults_of_writer self.new }
        ensures cause { OnErr result (Rose (faults_of_writer self.old) (faults_of_writer self.new)) }
        ensures steady { OnOk result (faults_of_writer self.new ≡ faults_of_writer self.old) }
        ensures faults { faults_of_writer self.new ≡ (if is_ok result then faults_of_writer self.old else one_more (faults_of_writer self.old)) }
        ensures handed_on { IfOk result (λ n. Appends (W.contents (writer_of self.old)) (W.contents (writer_of self.new)) (take n bytes.now)) }
    {
        match write_through(&mut self.writer, bytes) {
            Ok(count) if count > 0 || bytes.is_empty() => Ok(count),
            _ => {
                self.faults = self.faults.saturating_add(1);
                Err(Failed)
            }
        }
    }
}

// Writes once and flushes.
fn write_through<W: Write>(writer: &mut W, bytes: &[u8]) -> std::io::Result<usize>
    ensures bound { WritesAtMost result bytes.now }
    ensures bytes { IfOk result (λ n. Appends (W.contents writer.old) (W.contents writer.new) (take n bytes.now)) }
{
    let count = writer.write(bytes)?;
    writer.flush()?;
    Ok(count)
}

ghost use Rattle.std.specs.Prelude.{◌≡◌, ℕ, ◌<◌, ◌≤◌, List, [], length, Option, IfOk, OnOk, OnErr};
ghost use Rattle.std.specs.Io.{WritesAtMost};
ghost use Rattle.std.specs.Io.KnownBytes.{Appends, WriteAppends};
ghost use Rattle.outside_io.specs.Count.{Rose};
ghost use Rattle.outside_io.specs.Telling.{TellsAsBefore};
ghost use Rattle.outside_io.specs.Sink.{AppendsFront};

use crate::failed::Failed;

/// What bytes are written to. `docs/MACHINE.md` has the rules.
pub trait Sink {
    /// The bytes that the sink holds, where it tells them.
    ghost held: { Self → Option (List ℕ) };

    /// How often the sink has failed.
    ghost faults: { Self → ℕ };

    /// Appends the first of `bytes`, and answers their number, which is above 0 where `bytes` isn't
    /// empty. `Failed` comes only where the count of faults rose in this call, and then nothing was
    /// appended; any other answer leaves the count as it was. No call changes whether the sink tells
    /// its bytes.
    fn write(&mut self, bytes: &[u8]) -> Result<usize, Failed>
        ensures bound { WritesAtMost result bytes.now }
        ensures takes { IfOk result (λ n. 0 < length bytes.now → 0 < n) }
        ensures bytes { WriteAppends (held self.old) (held self.new) result bytes.now }
        ensures tells { TellsAsBefore (held self.old) (held self.new) }
        ensures later { faults self.old ≤ faults self.new }
        ensures cause { OnErr result (Rose (faults self.old) (faults self.new)) }
        ensures steady { OnOk result (faults self.new ≡ faults self.old) };
}

/// Writes all of `bytes`, by as many calls as it takes, none where there are no bytes. `Failed` comes
/// only where the count of faults rose in this call; then a front of the bytes was appended, maybe
/// none of them.
pub fn write_all<K: Sink>(sink: &mut K, bytes: &[u8]) -> Result<(), Failed>
    ensures ok { OnOk result (Appends (K.held sink.old) (K.held sink.new) bytes.now) }
    ensures err { OnErr result (AppendsFront (K.held sink.old) (K.held sink.new) bytes.now) }
    ensures tells { TellsAsBefore (K.held sink.old) (K.held sink.new) }
    ensures later { K.faults sink.old ≤ K.faults sink.new }
    ensures cause { OnErr result (Rose (K.faults sink.old) (K.faults sink.new)) }
    ensures steady { OnOk result (K.faults sink.new ≡ K.faults sink.old) }
    ensures unasked { bytes.now ≡ [] → sink.new ≡ sink.old }
{
    let mut written = 0;
    while written < bytes.len() {
        match sink.write(&bytes[written..]) {
            Ok(count) => written += count,
            Err(failed) => return Err(failed),
        }
    }
    Ok(())
}

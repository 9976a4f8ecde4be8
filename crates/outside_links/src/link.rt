ghost use Rattle.std.specs.Prelude.{◌≡◌, ℕ, ◌<◌, ◌≤◌, List, Option, length, IfOk, OnOk, OnErr};
ghost use Rattle.std.specs.Io.{ReadsAtMost, WritesAtMost};
ghost use Rattle.std.specs.Io.KnownBytes.{ReadConsumes, WriteAppends};
ghost use Rattle.outside_io.specs.Count.{Rose};
ghost use Rattle.outside_io.specs.Telling.{TellsAsBefore};

use outside_io::Failed;

/// A connection, which is read from and written to. `docs/MACHINE.md`, "Connections and jobs", has the rules.
pub trait Link {
    /// The bytes that are left to read, where the link tells them.
    ghost left: { Self → Option (List ℕ) };

    /// The bytes that were written, where the link tells them.
    ghost held: { Self → Option (List ℕ) };

    /// How often the link has failed.
    ghost faults: { Self → ℕ };

    /// Reads into the front of `buf`, and answers the number of bytes. They are the first of those left, and
    /// after the call exactly the others are left. `Ok(0)` with a buffer that isn't empty comes exactly at the
    /// end. `Failed` comes only where the count of faults rose in this call, and then nothing was taken; any
    /// other answer leaves the count as it was. The bytes held stay, and no call changes whether the link tells
    /// its bytes.
    fn read(&mut self, buf: &mut [u8]) -> Result<usize, Failed>
        ensures bound { ReadsAtMost result buf.new }
        ensures bytes { ReadConsumes (left self.old) (left self.new) result buf.new }
        ensures tells { TellsAsBefore (left self.old) (left self.new) }
        ensures still { held self.new ≡ held self.old }
        ensures later { faults self.old ≤ faults self.new }
        ensures cause { OnErr result (Rose (faults self.old) (faults self.new)) }
        ensures steady { OnOk result (faults self.new ≡ faults self.old) };

    /// Appends the first of `bytes`, and answers their number, which is above 0 where `bytes` isn't empty.
    /// `Failed` comes only where the count of faults rose in this call, and then nothing was appended; any other
    /// answer leaves the count as it was. The bytes left stay, and no call changes whether the link tells its
    /// bytes.
    fn write(&mut self, bytes: &[u8]) -> Result<usize, Failed>
        ensures bound { WritesAtMost result bytes.now }
        ensures takes { IfOk result (λ n. 0 < length bytes.now → 0 < n) }
        ensures bytes { WriteAppends (held self.old) (held self.new) result bytes.now }
        ensures tells { TellsAsBefore (held self.old) (held self.new) }
        ensures still { left self.new ≡ left self.old }
        ensures later { faults self.old ≤ faults self.new }
        ensures cause { OnErr result (Rose (faults self.old) (faults self.new)) }
        ensures steady { OnOk result (faults self.new ≡ faults self.old) };
}

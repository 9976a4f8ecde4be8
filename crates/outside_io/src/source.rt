ghost use Rattle.std.specs.Prelude.{◌≡◌, ℕ, ◌≤◌, List, Option, OnOk, OnErr};
ghost use Rattle.std.specs.Io.{ReadsAtMost};
ghost use Rattle.std.specs.Io.KnownBytes.{ReadConsumes};
ghost use Rattle.outside_io.specs.Count.{Rose};
ghost use Rattle.outside_io.specs.Telling.{TellsAsBefore};

use crate::failed::Failed;

/// What bytes are read from. `docs/MACHINE.md` has the rules.
pub trait Source {
    /// The bytes that are left to read, where the source tells them.
    ghost left: { Self → Option (List ℕ) };

    /// How often the source has failed.
    ghost faults: { Self → ℕ };

    /// Reads into the front of `buf`, and answers the number of bytes. They are the first of those
    /// left, and after the call exactly the others are left. `Ok(0)` with a buffer that isn't empty
    /// comes exactly at the end. `Failed` comes only where the count of faults rose in this call,
    /// and then nothing was taken; any other answer leaves the count as it was. No call changes
    /// whether the source tells its bytes.
    fn read(&mut self, buf: &mut [u8]) -> Result<usize, Failed>
        ensures bound { ReadsAtMost result buf.new }
        ensures bytes { ReadConsumes (left self.old) (left self.new) result buf.new }
        ensures tells { TellsAsBefore (left self.old) (left self.new) }
        ensures later { faults self.old ≤ faults self.new }
        ensures cause { OnErr result (Rose (faults self.old) (faults self.new)) }
        ensures steady { OnOk result (faults self.new ≡ faults self.old) };
}

ghost use Rattle.std.specs.Prelude.{◌≡◌};
ghost use Rattle.turnstile.specs.Passes.{number_of};

use crate::kept::Kept;
use crate::rule::Place;

/// The right to take turns at one turnstile. It may go to another thread.
///
/// Contracts see its number, the entries that it saw last (`seen`), the entries that it added
/// (`mine`), how many entries the value had at the opening, and the parts of the passes that were
/// gathered into it. The rules are in `docs/MACHINE.md`.
pub struct Pass<V: Kept> {
    pub(crate) seat: Place<V>,
    pub(crate) number: u32,
    /// How many entries there were when it came in, modulo 2^64.
    pub(crate) len: u64,
}

impl<V: Kept> Drop for Pass<V> {
    fn drop(self) {
        let Pass {
            seat: _,
            number: _,
            len: _,
        } = self;
    }
}

impl<V: Kept> Pass<V> {
    /// The number of this pass, from 0 on. It never changes.
    pub fn number(&self) -> u32
        ensures { result ≡ number_of self.now }
    {
        self.number
    }

    pub(crate) fn into_seat(self) -> Place<V>
        ensures { result ≡ self.seat }
    {
        let Pass {
            seat,
            number: _,
            len: _,
        } = self;
        seat
    }
}

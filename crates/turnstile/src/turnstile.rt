ghost use Rattle.std.specs.Prelude.{◌≡◌, ◌^◌, ◌<◌};

use crate::kept::Kept;
use crate::rule::Gate;

/// A lock round a value, which passes come to one at a time, in the order of their tickets.
///
/// Threads share it by `&`, each with a pass of its own. The rules are in `docs/MACHINE.md`.
pub struct Turnstile<V: Kept> {
    pub(crate) table: Gate<V>,
    pub(crate) made: u32,
    ghost sized: { (table.shared.table_id.words ≡ 3) × (table.shared.table_id.slots ≡ 1) },
    ghost told: { table.shared.key.made ≡ made },
    ghost some: { 0 < made },
    ghost few: { made < 2 ^ 32 },
}

impl<V: Kept> Drop for Turnstile<V> {
    fn drop(self) {
        let Turnstile { table: _, made: _ } = self;
    }
}

impl<V: Kept> Turnstile<V> {
    pub(crate) fn into_table(self) -> Gate<V>
        ensures { result ≡ self.table }
    {
        let Turnstile { table, made: _ } = self;
        table
    }
}

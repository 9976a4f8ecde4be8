//! The whole journal, of which no entry is stored.
ghost use Rattle.std.specs.Prelude.{◌≡◌, [], ◌∷◌, ◌++◌, ◌%◌, ◌^◌, length, IfOk};

use crate::entry::Entry;
use crate::no_memory::NoMemory;
use atomic_table::{Play, Seat, Table, TableRule};
use std::alloc::Global;
use std::collections::LinkedList;
use std::marker::{Brand, Model};

/// All entries that were ever made, in order. It keeps their number modulo 2^64 and none of them: what they were is
/// known to contracts alone, which see the list. docs/MACHINE.md, "The journal".
pub struct Tape {
    table: Table<u64, Written, (), Counts, Global>,
    seat: Seat<u64, Written>,
}

// What the one seat of the table knows: the entries. No value of it is made.
pub struct Written {
    pub entries: LinkedList<Entry>,
}

// The table's one word is the number of entries.
pub struct Counts;

impl TableRule<u64, Written, ()> for Counts {
    ghost use Rattle.hall_core.specs.Tape.{IsCounted, nothing_written};

    ghost holds = { λ key. IsCounted };

    ghost first = { λ key. nothing_written };
}

// The entry that a step adds.
pub trait Adds {
    ghost use Rattle.hall_core.specs.declared.entry.Entry.{Entry};

    ghost entry: { Entry };
}

impl Adds for Brand {
    ghost use Rattle.hall_core.specs.Tape.{some_entry};

    ghost entry = { some_entry };
}

// The step that adds it.
struct Append<E: Adds> {
    of: std::marker::PhantomData<E>,
}

impl<E: Adds> Play<u64, Written> for Append<E> {
    ghost use Rattle.hall_core.specs.Tape.{Appended};

    ghost then = { λ step before found after. Appended E.entry before found after };
}

impl Model for Tape {
    ghost use Rattle.std.specs.Prelude.{◌≡◌, ℕ, ◌<◌, List, []};
    ghost use Rattle.hall_core.specs.declared.entry.Entry.{Entry};

    ghost Value = { List Entry };

    ghost view = { λ t. t.seat.me.0.entries };

    ghost invariant = { λ t. record { one : t.seat.table_id ≡ t.table.shared.table_id; word : t.table.shared.table_id.words ≡ 1; free : t.seat.me.1 ≡ [] } };
}

impl Drop for Tape {
    fn drop(self) {
        let Tape { table: _, seat: _ } = self;
    }
}

impl Tape {
    /// A tape with no entry. `NoMemory` comes only for want of memory; no other call takes any.
    pub fn new(alloc: Global) -> Result<Tape, NoMemory>
        ensures empty { IfOk result (λ t. t ≡ []) }
    {
        match Table::of_words(alloc, &[0], &()) {
            Ok((table, seat)) => Ok(Tape { table, seat }),
            Err(_) => Err(NoMemory),
        }
    }

    /// Adds the entry behind all others, and answers how many there were before, modulo 2^64.
    pub fn append(&mut self, entry: &Entry) -> u64
        ensures entries { self.new ≡ self.old ++ entry.now ∷ [] }
        ensures number { result ≡ length self.old % 2 ^ 64 }
    {
        add::<Brand>(&self.table, &mut self.seat, entry)
    }
}

fn add<E: Adds>(
    table: &Table<u64, Written, (), Counts, Global>,
    seat: &mut Seat<u64, Written>,
    entry: &Entry,
) -> u64
    requires adds { entry.now ≡ E.entry }
    requires table { seat.old.table_id ≡ table.now.shared.table_id }
    requires word { table.now.shared.table_id.words ≡ 1 }
    requires free { seat.old.me.1 ≡ [] }
    ensures table_stays { seat.new.table_id ≡ seat.old.table_id }
    ensures still_free { seat.new.me.1 ≡ [] }
    ensures entries { seat.new.me.0.entries ≡ seat.old.me.0.entries ++ entry.now ∷ [] }
    ensures number { result ≡ length seat.old.me.0.entries % 2 ^ 64 }
{
    table.shared.fetch_add::<Append<E>>(seat, 0, 1)
}

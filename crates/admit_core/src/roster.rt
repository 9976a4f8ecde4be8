ghost use Rattle.std.specs.Prelude.{◌≡◌, ◌+◌, ◌<◌, ◌≤◌, false, length, slice_get};
ghost use Rattle.admit_core.specs.Roster.{IsRoster, empty_roster, has_key, others, total};
ghost use Rattle.admit_core.specs.Admission.{admitted, admit_answer, dismissed};

use crate::over_budget::OverBudget;
use arrayvec::ArrayVec;
use std::marker::Model;

/// The most entries that a roster has.
const CAPACITY: usize = 128;

/// Who is admitted, in order of admission: keys with their shares, in pixels per tick, and the limit that the shares
/// never pass in all. Contracts see it as a `RosterState`. The rule is in docs/MACHINE.md.
#[derive(Debug, Drop)]
pub struct Roster {
    entries: ArrayVec<(u32, u32), CAPACITY>,
    limit: u32,
}

impl Model for Roster {
    ghost use Rattle.admit_core.specs.Roster.{RosterState, IsRoster};

    ghost Value = { RosterState };

    ghost view = { λ r. record { entries = r.entries.items; limit = r.limit } };

    ghost invariant = { λ r. IsRoster (record { entries = r.entries.items; limit = r.limit }) };
}

impl Roster {
    /// A roster with no entry. Its shares may come to `limit` pixels per tick.
    #[tactic(auto, unfolding(crate::specs::Roster::empty_roster, crate::specs::Roster::total))]
    pub fn new(limit: u32) -> Roster
        ensures empty { result ≡ empty_roster limit }
        ensures valid { IsRoster result }
    {
        Roster {
            entries: ArrayVec::new(),
            limit,
        }
    }

    /// Another roster with the same entries in the same order and the same limit. It takes no memory.
    pub fn copy(&self) -> Roster
        ensures same { result ≡ self.now }
        ensures valid { IsRoster self.now }
    {
        let mut entries = ArrayVec::new();
        match entries.try_extend_from_slice(self.entries.as_slice()) {
            Ok(()) => {}
            Err(_) => unreachable!(),
        }
        Roster {
            entries,
            limit: self.limit,
        }
    }

    /// Admits this key with this share, as the last one; an entry that it had is left out. A key that isn't there
    /// needs fewer than 128 entries. `OverBudget` with both numbers, and nothing changed, exactly where the
    /// shares of the others and this one pass the limit.
    #[tactic(auto, unfolding(crate::specs::Admission::admitted, crate::specs::Admission::admit_answer, crate::specs::Admission::fits, crate::specs::Admission::left_for))]
    pub fn admit(&mut self, key: u32, share: u32) -> Result<(), OverBudget>
        requires { has_key key self.old.entries ≡ false → length self.old.entries < 128 }
        ensures roster { self.new ≡ admitted self.old key share }
        ensures answer { result ≡ admit_answer self.old key share }
        ensures valid { IsRoster self.new }
    {
        let left = left_of(self.entries.as_slice(), self.limit, key);
        if share > left {
            return Err(OverBudget { need: share, left });
        }
        remove_key(&mut self.entries, key);
        self.entries.push((key, share));
        Ok(())
    }

    /// Takes the key's entry out. False exactly where it has none.
    #[tactic(auto, unfolding(crate::specs::Admission::dismissed))]
    pub fn leave(&mut self, key: u32) -> bool
        ensures roster { self.new ≡ dismissed self.old key }
        ensures answer { result ≡ has_key key self.old.entries }
        ensures valid { IsRoster self.new }
    {
        let was_there = has_entry(self.entries.as_slice(), key);
        remove_key(&mut self.entries, key);
        was_there
    }

    /// The key and share at this place in the order of admission, from 0; none past the last.
    pub fn at(&self, index: usize) -> Option<(u32, u32)>
        ensures entry { result ≡ slice_get self.now.entries index }
        ensures valid { IsRoster self.now }
    {
        self.entries.as_slice().get(index).copied()
    }

    /// The number of entries, at most 128.
    pub fn len(&self) -> usize
        ensures count { result ≡ length self.now.entries }
        ensures valid { IsRoster self.now }
    {
        self.entries.len()
    }
}

// What the other keys' shares leave of the limit.
#[tactic(auto, using(crate::proofs::Rosters::total_of_fewer))]
fn left_of(entries: &[(u32, u32)], limit: u32, key: u32) -> u32
    requires few { length entries.now ≤ 128 }
    requires within { total entries.now ≤ limit }
    ensures { result + total (others key entries.now) ≡ limit }
{
    limit - total_of_others(entries, key) as u32
}

// The shares of all keys but this one.
#[tactic(auto, unfolding(crate::specs::Roster::total, crate::specs::Roster::others))]
fn total_of_others(entries: &[(u32, u32)], key: u32) -> u64
    requires { length entries.now ≤ 128 }
    ensures { result ≡ total (others key entries.now) }
{
    entries
        .iter()
        .filter(|entry| entry.0 != key)
        .map(|entry| u64::from(entry.1))
        .sum()
}

// Whether the key has an entry.
#[tactic(auto, unfolding(crate::specs::Roster::has_key))]
fn has_entry(entries: &[(u32, u32)], key: u32) -> bool
    ensures { result ≡ has_key key entries.now }
{
    entries.iter().any(|entry| entry.0 == key)
}

// Leaves only the other keys' entries.
#[tactic(auto, unfolding(crate::specs::Roster::others))]
fn remove_key(entries: &mut ArrayVec<(u32, u32), CAPACITY>, key: u32)
    ensures { entries.new.items ≡ others key entries.old.items }
{
    entries.retain(|entry| entry.0 != key);
}

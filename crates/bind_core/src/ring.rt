ghost use Rattle.std.specs.Prelude.{◌≡◌, ◌≤◌, not, length, map, drop, IfOk};
ghost use Rattle.bind_core.specs.Ring.{IsRing, new_ring, event_of};
ghost use Rattle.bind_core.specs.Posting.{has_room, kept_with, after_post};
ghost use Rattle.bind_core.specs.Polling.{oldest, poll_answer, after_poll};

use crate::no_memory::NoMemory;
use crate::polled::Polled;
use crate::posted::Posted;
use circular_buffer::HeapCircularBuffer;
use std::alloc::{AllocError, Global};
use std::marker::Model;

/// The most events that a ring keeps.
const CAPACITY: usize = 32;

/// The latest events posted to a client, at most 32, oldest first, and how many were lost since it was last told.
///
/// Contracts see the record `RingState`: the list of the kept events, each as its tag's bytes, its kind and its two
/// numbers, and the number lost. docs/MACHINE.md, "Kept events", has the rule.
#[derive(Debug)]
pub struct Ring {
    events: HeapCircularBuffer<Posted>,
    lost: u32,
}

impl Model for Ring {
    ghost use Rattle.std.specs.Prelude.{◌≡◌, map};
    ghost use Rattle.bind_core.specs.Ring.{RingState, IsRing, event_of};

    ghost Value = { RingState };

    ghost view = { λ r. record { kept = map event_of r.events.items; lost = r.lost } };

    ghost invariant = { λ r. (r.events.capacity ≡ 32) × IsRing (record { kept = map event_of r.events.items; lost = r.lost }) };
}

impl Drop for Ring {
    fn drop(self) {
        let Ring { events: _, lost: _ } = self;
    }
}

impl Ring {
    /// A ring with no event, of which none was lost. `NoMemory` comes only for want of memory; no other call takes
    /// any.
    pub fn new(alloc: Global) -> Result<Ring, NoMemory>
        ensures ring { IfOk result (λ r. r ≡ new_ring) }
        ensures valid { IfOk result (λ r. IsRing r) }
    {
        match HeapCircularBuffer::with_capacity(alloc, CAPACITY) {
            Ok(events) => Ok(Ring { events, lost: 0 }),
            Err(_) => Err(NoMemory),
        }
    }

    /// Another ring with the same events kept and the same number lost, and room for as many more. `NoMemory` comes
    /// only for want of memory, and nothing of the copy is left behind then. It costs one move of the kept events.
    pub fn copy(&self) -> Result<Ring, NoMemory>
        ensures same { IfOk result (λ ring. ring ≡ self.now) }
        ensures valid { IsRing self.now }
    {
        match copy_of(&self.events) {
            Ok(events) => Ok(Ring {
                events,
                lost: self.lost,
            }),
            Err(_) => Err(NoMemory),
        }
    }

    /// Keeps the event as the latest. Where 32 are kept the oldest is dropped, and the number lost rises by one, up
    /// to 4,294,967,295.
    #[tactic(auto, unfolding(crate::specs::Posting::after_post))]
    pub fn post(&mut self, posted: Posted)
        ensures ring { self.new ≡ after_post self.old (event_of posted) }
        ensures valid { IsRing self.new }
    {
        if put_last(&mut self.events, posted) {
            self.lost = self.lost.saturating_add(1);
        }
    }

    /// `Lost` exactly where events were lost since the last such answer, with their number, which then is 0. Else
    /// `One` with the oldest kept event, which is taken out, and `Empty` exactly where none is kept either.
    #[tactic(auto, unfolding(crate::specs::Polling::poll_answer, crate::specs::Polling::after_poll))]
    pub fn poll(&mut self) -> Polled
        ensures answer { result ≡ poll_answer self.old }
        ensures ring { self.new ≡ after_poll self.old }
        ensures valid { IsRing self.new }
    {
        if self.lost > 0 {
            return Polled::Lost(self.take_lost());
        }
        self.take_oldest()
    }

    // The number lost, which then is 0.
    fn take_lost(&mut self) -> u32
        ensures lost { result ≡ self.old.lost }
        ensures ring { self.new ≡ record self.old { lost = 0 } }
        ensures valid { IsRing self.new }
    {
        let lost = self.lost;
        self.lost = 0;
        lost
    }

    // The oldest kept event, which is taken out.
    #[tactic(auto, using(crate::proofs::Events::told_oldest, crate::proofs::Events::fewer_events))]
    fn take_oldest(&mut self) -> Polled
        ensures answer { result ≡ oldest self.old.kept }
        ensures ring { self.new ≡ record self.old { kept = drop 1 self.old.kept } }
        ensures valid { IsRing self.new }
    {
        match self.events.pop_front() {
            Some(posted) => Polled::One(posted),
            None => Polled::Empty,
        }
    }
}

// The same events in a room of their own, with place for as many.
#[tactic(auto, using(crate::proofs::Events::moved))]
fn copy_of(events: &HeapCircularBuffer<Posted>) -> Result<HeapCircularBuffer<Posted>, AllocError>
    requires room { events.now.capacity ≡ 32 }
    requires few { length events.now.items ≤ 32 }
    ensures events { IfOk result (λ copy. copy ≡ events.now) }
{
    let mut copy = HeapCircularBuffer::with_capacity(*events.allocator(), CAPACITY)?;
    let (first, second) = events.as_slices();
    copy.extend_from_slice(first);
    copy.extend_from_slice(second);
    Ok(copy)
}

// Puts the event last, and answers whether the oldest was dropped for it.
#[tactic(auto, using(crate::proofs::Events::put_last), unfolding(crate::specs::Posting::kept_with))]
fn put_last(events: &mut HeapCircularBuffer<Posted>, posted: Posted) -> bool
    requires room { events.old.capacity ≡ 32 }
    requires few { length events.old.items ≤ 32 }
    ensures dropped { result ≡ not (has_room (map event_of events.old.items)) }
    ensures events { map event_of events.new.items ≡ kept_with (map event_of events.old.items) (event_of posted) }
    ensures room { events.new.capacity ≡ 32 }
    ensures few { length events.new.items ≤ 32 }
{
    events.push_back(posted).is_some()
}

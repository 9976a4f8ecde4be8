//! What a book holds, behind its one pointer.
ghost use Rattle.std.specs.Prelude.{◌≡◌, ◌≤◌, ◌<◌, ◌%◌, ◌^◌, [], ◌∷◌, ◌++◌, length, vec_capacity, Some, None, IfOk, OnOk, OnErr, IsOk, MatchOption, true, false};
ghost use Rattle.scene_model.specs.Shapes.{IsShape};
ghost use Rattle.desk_model.specs.Desk.{opening_desk};
ghost use Rattle.machine_model.specs.State.{IsState, opening};
ghost use Rattle.machine_model.specs.Step.{Step};
ghost use Rattle.hall_core.specs.Entries.{event_of, answer_of, payload_of, IsAsked};
ghost use Rattle.hall_core.specs.Books.{Stands, Answered, Unfolded, HasRoomFor, MadeRoom, must_fold, is_leaving, folded_of, kept_at};

use crate::entry::{Answer, Entry, Event};
use crate::no_memory::NoMemory;
use crate::tape::Tape;
use cmd_words::Reply;
use desk_core::Desk;
use kind_core::Shape;
use server_core::Server;
use std::alloc::Global;
use std::marker::Model;

/// So many kept entries must fold before the next event.
const FOLDS_AT: usize = 4096;
/// There is room for so many: where no memory is had for a fold, each client that leaves adds one more.
const ROOM: usize = 4112;
/// The bytes that came with the kept entries are never more.
const MOST_BYTES: u64 = 67_108_864;

/// The server, its journal, and what is kept of the journal. Contracts see a `BookState`.
pub struct Volume {
    server: Server,
    tape: Tape,
    start: Desk,
    base: u64,
    kept: Vec<Entry>,
    bytes: u64,
}

impl Model for Volume {
    ghost use Rattle.std.specs.Prelude.{◌≡◌, ◌≤◌, vec_capacity};
    ghost use Rattle.hall_core.specs.Books.{BookState, Stands, HasRoom, payloads_of};

    ghost Value = { BookState };

    ghost view = { λ v. record { server = v.server; journal = v.tape; start = v.start.desk; base = v.base; kept = v.kept.items } };

    ghost invariant = { λ v. record {
      stands : Stands (record { server = v.server; journal = v.tape; start = v.start.desk; base = v.base; kept = v.kept.items });
      room : HasRoom (record { server = v.server; journal = v.tape; start = v.start.desk; base = v.base; kept = v.kept.items });
      reserved : 4112 ≤ vec_capacity v.kept;
      counted : v.bytes ≡ payloads_of v.kept.items;
    } };
}

impl Drop for Volume {
    fn drop(self) {
        let Volume {
            server: _,
            tape: _,
            start: _,
            base: _,
            kept: _,
            bytes: _,
        } = self;
    }
}

impl Volume {
    /// A server with these numbers and no entry, with room for all entries that are ever kept. `NoMemory` comes only for
    /// want of memory.
    pub fn new(alloc: Global, shape: Shape) -> Result<Volume, NoMemory>
        requires { IsShape shape }
        ensures state { IfOk result (λ v. v.server.state ≡ opening shape) }
        ensures journal { IfOk result (λ v. v.journal ≡ []) }
        ensures start { IfOk result (λ v. v.start ≡ opening_desk shape) }
        ensures base { IfOk result (λ v. v.base ≡ 0) }
        ensures kept { IfOk result (λ v. v.kept ≡ []) }
        ensures stands { IfOk result (λ v. Stands v) }
    {
        let server = match Server::new(alloc, shape) {
            Ok(server) => server,
            Err(_) => return Err(NoMemory),
        };
        let tape = Tape::new(alloc)?;
        let kept = match Vec::with_capacity(alloc, ROOM) {
            Ok(kept) => kept,
            Err(_) => return Err(NoMemory),
        };
        Ok(Volume {
            server,
            tape,
            start: Desk::new(alloc, shape),
            base: 0,
            kept,
            bytes: 0,
        })
    }

    /// Carries out the event for the seat, and keeps its entry. Before it the book folds where it must; `NoMemory` comes only
    /// where it must and no memory is had for it, never to a connected client that leaves, and then nothing has changed.
    pub fn call(&mut self, seat: u32, event: Event) -> Result<Answer, NoMemory>
        requires asked { IsAsked event }
        ensures answered { IfOk result (λ answer. Answered self.old seat event answer self.new) }
        ensures unchanged { OnErr result (self.new ≡ self.old) }
        ensures cause { OnErr result (must_fold self.old event ≡ true) }
        ensures leaving { is_leaving self.old event ≡ true → IsOk result }
        ensures stands { Stands self.new }
    {
        match self.make_room(&event) {
            Ok(()) => Ok(self.carry_out(seat, event)),
            Err(short) => Err(short),
        }
    }

    /// The server.
    pub fn server(&self) -> &Server
        ensures server { result.now ≡ self.now.server }
        ensures stands { Stands self.now }
    {
        &self.server
    }

    /// The entry at this place of the journal, from 0; None exactly where no kept entry has that place. Places are taken
    /// modulo 2^64.
    pub fn entry(&self, index: u64) -> Option<&Entry>
        ensures entry { MatchOption result (kept_at self.now index ≡ None) (λ entry. kept_at self.now index ≡ Some entry.now) }
        ensures stands { Stands self.now }
    {
        let place = index.wrapping_sub(self.base);
        if place < self.kept.len() as u64 {
            self.kept.get(place as usize)
        } else {
            None
        }
    }

    /// How many entries there are, modulo 2^64.
    pub fn len(&self) -> u64
        ensures count { result ≡ length self.now.journal % 2 ^ 64 }
        ensures stands { Stands self.now }
    {
        self.base.wrapping_add(self.kept.len() as u64)
    }

    /// How many entries are no longer kept, modulo 2^64.
    pub fn base(&self) -> u64
        ensures base { result ≡ self.now.base }
        ensures stands { Stands self.now }
    {
        self.base
    }

    // Makes room for the event's entry: folds where the book must. Only a connected client that leaves is let go without.
    fn make_room(&mut self, event: &Event) -> Result<(), NoMemory>
        requires asked { IsAsked event.now }
        ensures room { OnOk result (HasRoomFor self.new event.now) }
        ensures made { OnOk result (MadeRoom (must_fold self.old event.now) (is_leaving self.old event.now) self.old self.new) }
        ensures unchanged { OnErr result (self.new ≡ self.old) }
        ensures cause { OnErr result (must_fold self.old event.now ≡ true) }
        ensures leaving { is_leaving self.old event.now ≡ true → IsOk result }
        ensures stands { Stands self.new }
    {
        if !self.must_fold(event) {
            return Ok(());
        }
        if self.folds() {
            return Ok(());
        }
        if self.is_leaving(event) {
            return Ok(());
        }
        Err(NoMemory)
    }

    // Whether the book must fold before the event.
    #[tactic(auto, unfolding(crate::specs::Books::must_fold))]
    fn must_fold(&self, event: &Event) -> bool
        requires asked { IsAsked event.now }
        ensures must { result ≡ must_fold self.now event.now }
        ensures stands { Stands self.now }
    {
        self.kept.len() >= FOLDS_AT || self.bytes + bytes_of(event) > MOST_BYTES
    }

    // Whether a connected client leaves.
    fn is_leaving(&self, event: &Event) -> bool
        ensures { result ≡ is_leaving self.now event.now }
    {
        match event {
            Event::Bye { client } => self.server.desk().is_connected(*client),
            _ => false,
        }
    }

    // Folds, and tells whether there was memory for it; else nothing changes.
    fn folds(&mut self) -> bool
        ensures folded { result ≡ true → self.new ≡ folded_of self.old }
        ensures unchanged { result ≡ false → self.new ≡ self.old }
        ensures stands { Stands self.new }
    {
        let desk = match self.server.desk().copy() {
            Ok(desk) => desk,
            Err(_) => return false,
        };
        self.start = desk;
        self.base = self.base.wrapping_add(self.kept.len() as u64);
        self.kept.clear();
        self.bytes = 0;
        true
    }

    // Carries out the event and keeps its entry behind the others, for which there is room.
    fn carry_out(&mut self, seat: u32, event: Event) -> Answer
        requires asked { IsAsked event }
        requires few { HasRoomFor self.old event }
        ensures step { Step self.old.server.state (event_of event) (answer_of result) self.new.server.state }
        ensures journal { self.new.journal ≡ self.old.journal ++ record { seat = seat; event = event; answer = result } ∷ [] }
        ensures kept { Unfolded self.old (record { seat = seat; event = event; answer = result }) self.new }
        ensures stands { Stands self.new }
    {
        let answer = ask(&mut self.server, &event);
        let kept = &answer;
        let entry = Entry {
            seat,
            event,
            answer: *kept,
        };
        self.bytes += bytes_of(&entry.event);
        self.tape.append(&entry);
        put(&mut self.kept, entry);
        answer
    }
}

// Puts the entry behind the others, for which there is room.
fn put(kept: &mut Vec<Entry>, entry: Entry)
    requires room { length kept.old.items < vec_capacity kept.old }
    ensures entries { kept.new.items ≡ kept.old.items ++ entry ∷ [] }
    ensures reserved { vec_capacity kept.old ≤ vec_capacity kept.new }
{
    match kept.push(entry) {
        Ok(()) => {}
        Err(_) => unreachable!(),
    }
}

// How many bytes come with the event, at most 65,536.
fn bytes_of(event: &Event) -> u64
    requires asked { IsAsked event.now }
    ensures bytes { result ≡ payload_of event.now }
    ensures few { result ≤ 65536 }
{
    match event {
        Event::Ask {
            client: _,
            command: _,
            payload,
        } => payload.len() as u64,
        _ => 0,
    }
}

// One step of the server.
fn ask(server: &mut Server, event: &Event) -> Answer
    requires asked { IsAsked event.now }
    ensures step { Step server.old.state (event_of event.now) (answer_of result) server.new.state }
    ensures valid { IsState server.new.state }
{
    match event {
        Event::Hello => Answer::Reply(server.hello()),
        Event::Ask {
            client,
            command,
            payload,
        } => Answer::Reply(server.command(*client, command, payload.as_slice())),
        Event::Bye { client } => Answer::Reply(server.bye(*client)),
        Event::Feed { input } => {
            server.feed(*input);
            Answer::Reply(Reply::Done)
        }
        Event::Tick => Answer::Drew(server.tick()),
    }
}

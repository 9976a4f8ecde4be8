ghost use Rattle.std.specs.Prelude.{◌≡◌, ◌%◌, ◌^◌, [], length, Some, None, IfOk, OnErr, IsOk, MatchOption, true};
ghost use Rattle.scene_model.specs.Shapes.{IsShape};
ghost use Rattle.desk_model.specs.Desk.{opening_desk};
ghost use Rattle.machine_model.specs.State.{opening};
ghost use Rattle.hall_core.specs.Entries.{IsAsked};
ghost use Rattle.hall_core.specs.Books.{Stands, Answered, must_fold, is_leaving, kept_at};

use crate::entry::{Answer, Entry, Event};
use crate::no_memory::NoMemory;
use crate::volume::Volume;
use kind_core::Shape;
use server_core::Server;
use std::alloc::Global;
use std::marker::Model;

/// A server that began fresh, and the journal of all its events. It is one pointer, so it costs little to hand on.
///
/// Contracts see the record `BookState`: the server, the whole journal, and what of it the program keeps: a start desk,
/// how many entries are before it (`base`), and the entries from there on. Before an event the book folds where it keeps
/// 4,096 entries or more, or where the bytes that came with them and with the event pass 67,108,864: then it copies the
/// desk, which becomes the start desk, and keeps no older entry. docs/MACHINE.md, "The journal".
pub struct Book {
    volume: Box<Volume>,
}

impl Model for Book {
    ghost use Rattle.hall_core.specs.Books.{BookState};

    ghost Value = { BookState };

    ghost view = { λ b. b.volume.value };
}

impl Drop for Book {
    fn drop(self) {
        let Book { volume: _ } = self;
    }
}

impl Book {
    /// A fresh server with these numbers and an empty journal, with room for all the entries that are ever kept.
    /// `NoMemory` comes only for want of memory.
    pub fn new(alloc: Global, shape: Shape) -> Result<Book, NoMemory>
        requires { IsShape shape }
        ensures state { IfOk result (λ book. book.server.state ≡ opening shape) }
        ensures journal { IfOk result (λ book. book.journal ≡ []) }
        ensures start { IfOk result (λ book. book.start ≡ opening_desk shape) }
        ensures base { IfOk result (λ book. book.base ≡ 0) }
        ensures kept { IfOk result (λ book. book.kept ≡ []) }
        ensures stands { IfOk result (λ book. Stands book) }
    {
        let volume = Volume::new(alloc, shape)?;
        match Box::new(alloc, volume) {
            Ok(volume) => Ok(Book { volume }),
            Err(_) => Err(NoMemory),
        }
    }

    /// Carries out a seat's event and answers it: a tick with what it drew, any other with the server's reply. The journal
    /// gains just this entry. `NoMemory` comes only where the book must fold and finds no memory for it, never to a
    /// connected client that leaves; then nothing has changed.
    pub fn call(&mut self, seat: u32, event: Event) -> Result<Answer, NoMemory>
        requires asked { IsAsked event }
        ensures answered { IfOk result (λ answer. Answered self.old seat event answer self.new) }
        ensures unchanged { OnErr result (self.new ≡ self.old) }
        ensures cause { OnErr result (must_fold self.old event ≡ true) }
        ensures leaving { is_leaving self.old event ≡ true → IsOk result }
        ensures stands { Stands self.new }
    {
        self.volume.call(seat, event)
    }

    /// The server.
    pub fn server(&self) -> &Server
        ensures server { result.now ≡ self.now.server }
        ensures stands { Stands self.now }
    {
        self.volume.server()
    }

    /// The entry at this place of the journal, from 0; None exactly where no kept entry has that place. Places are taken
    /// modulo 2^64.
    pub fn entry(&self, index: u64) -> Option<&Entry>
        ensures entry { MatchOption result (kept_at self.now index ≡ None) (λ entry. kept_at self.now index ≡ Some entry.now) }
        ensures stands { Stands self.now }
    {
        self.volume.entry(index)
    }

    /// How many entries the journal has, modulo 2^64.
    pub fn len(&self) -> u64
        ensures count { result ≡ length self.now.journal % 2 ^ 64 }
        ensures stands { Stands self.now }
    {
        self.volume.len()
    }

    /// How many entries are no longer kept, modulo 2^64.
    pub fn base(&self) -> u64
        ensures base { result ≡ self.now.base }
        ensures stands { Stands self.now }
    {
        self.volume.base()
    }
}

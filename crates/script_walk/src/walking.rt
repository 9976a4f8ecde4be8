//! The walk over a script from its source to its end.
ghost use Rattle.std.specs.Prelude.{◌≡◌, ◌≢◌, ◌≤◌, [], length, take, IfOk, OnOk, OnErr};
ghost use Rattle.std.specs.Io.KnownBytes.{Consumes, IsAtEnd, Keeps};
ghost use Rattle.outside_io.specs.Count.{Rose};
ghost use Rattle.script_walk.specs.Reading.{IsReader, IsFresh};
ghost use Rattle.script_walk.specs.Walked.{Walked};

use crate::end::End;
use crate::ending::finish;
use crate::performer::Performer;
use crate::reader::Reader;
use outside_io::{Failed, NoMemory, Outbox, Sink, Source};
use std::alloc::Global;
use std::marker::Model;

/// The bytes that a read asks for at most.
pub const PIECE: usize = 4096;

/// The bytes that a script has at most.
pub const SCRIPT_LIMIT: usize = 67_108_864;

/// Reads into the front of the buffer, at most `room` bytes, and answers their number.
fn read_front<S: Source>(source: &mut S, buffer: &mut [u8], room: usize) -> Result<usize, Failed>
    requires some { 1 ≤ room }
    requires fits { room ≤ length buffer.old }
    ensures bound { IfOk result (λ count. count ≤ room) }
    ensures consumes { IfOk result (λ count. Consumes (S.left source.old) (S.left source.new) (take count buffer.new)) }
    ensures end { IfOk result (λ count. count ≡ 0 → IsAtEnd (S.left source.new)) }
    ensures keeps { OnErr result (Keeps (S.left source.old) (S.left source.new)) }
    ensures later { S.faults source.old ≤ S.faults source.new }
    ensures cause { OnErr result (Rose (S.faults source.old) (S.faults source.new)) }
    ensures steady { OnOk result (S.faults source.new ≡ S.faults source.old) }
{
    source.read(&mut buffer[..room])
}

/// Works through the script of the source from its beginning, each line on the performer, and answers how it ended. A
/// read asks for at most as many bytes as a piece has, and never for one past the script's limit before all lines up to
/// there are done; their output is written before the next read.
fn work<P: Performer, S: Source, K: Sink>(
    reader: &mut Reader,
    buffer: &mut [u8],
    performer: &mut P,
    source: &mut S,
    out: &mut Outbox,
    sink: &mut K,
) -> End
    requires piece { length buffer.old ≡ PIECE }
    requires fresh { IsFresh reader.old }
    requires reader { IsReader reader.old }
    requires valid { P.rules.valid (P.state performer.old) }
    requires written { out.old ≡ [] }
    ensures walked { Walked P.rules result (P.state performer.old) (P.state performer.new)
        (S.left source.old) (S.left source.new) (K.held sink.old) (K.held sink.new) }
    ensures read_later { S.faults source.old ≤ S.faults source.new }
    ensures read_cause { result ≡ End.ReadFault → Rose (S.faults source.old) (S.faults source.new) }
    ensures read_steady { result ≢ End.ReadFault → S.faults source.new ≡ S.faults source.old }
    ensures write_later { K.faults sink.old ≤ K.faults sink.new }
    ensures write_cause { result ≡ End.WriteFault → Rose (K.faults sink.old) (K.faults sink.new) }
    ensures write_steady { result ≢ End.WriteFault → K.faults sink.new ≡ K.faults sink.old }
{
    let mut taken: usize = 0;
    loop {
        let room = PIECE.min(SCRIPT_LIMIT - taken).max(1);
        let count = match read_front(source, buffer, room) {
            Ok(count) => count,
            Err(_) => return End::ReadFault,
        };
        if count == 0 {
            return finish(reader, performer, out, sink);
        }
        if taken == SCRIPT_LIMIT {
            return End::TooMuch;
        }
        match reader.take(&buffer[..count], performer, out, sink) {
            Ok(()) => {}
            Err(cut) => return cut.end(),
        }
        taken += count;
    }
}

/// What a walk over a script works with. It takes all its memory when it is made.
pub struct Walker {
    reader: Reader,
    buffer: Vec<u8>,
}

impl Drop for Walker {
    fn drop(self) {
        let Walker {
            reader: _,
            buffer: _,
        } = self;
    }
}

impl Model for Walker {
    ghost use Rattle.std.specs.Prelude.{◌≡◌, length};
    ghost use Rattle.script_walk.specs.declared.walking.TheConstants.{PIECE};

    ghost Value = { Unit {0} };

    ghost view = { λ w. tt };

    ghost invariant = { λ w. length w.buffer.items ≡ PIECE };
}

impl Walker {
    /// A walker, for one script after another. `NoMemory` comes only for want of memory.
    pub fn new(alloc: Global) -> Result<Walker, NoMemory> {
        let reader = match Reader::new(alloc) {
            Ok(reader) => reader,
            Err(NoMemory) => return Err(NoMemory),
        };
        match Vec::from_elem(alloc, 0u8, PIECE) {
            Ok(buffer) => Ok(Walker { reader, buffer }),
            Err(_) => Err(NoMemory),
        }
    }

    /// Walks over the script of the source from its beginning, each line performed on the performer, and answers how it
    /// ended. Nothing waits in the outbox before.
    ///
    /// - What the source has given, which lines were worked through, what the sink has gained and what state the
    ///   performer is left in is what the performer's rules say; docs/MACHINE.md, "The walk over a script".
    /// - A read begins only where all output is written that the lines whole in earlier reads ask for.
    /// - `ReadFault` and `WriteFault` come only where that object's count of faults rose in this call, and every other
    ///   end leaves the count as it was: what failed is not tried again.
    pub fn walk<P: Performer, S: Source, K: Sink>(
        &mut self,
        performer: &mut P,
        source: &mut S,
        out: &mut Outbox,
        sink: &mut K,
    ) -> End
        requires valid { P.rules.valid (P.state performer.old) }
        requires written { out.old ≡ [] }
        ensures walked { Walked P.rules result (P.state performer.old) (P.state performer.new)
            (S.left source.old) (S.left source.new) (K.held sink.old) (K.held sink.new) }
        ensures read_later { S.faults source.old ≤ S.faults source.new }
        ensures read_cause { result ≡ End.ReadFault → Rose (S.faults source.old) (S.faults source.new) }
        ensures read_steady { result ≢ End.ReadFault → S.faults source.new ≡ S.faults source.old }
        ensures write_later { K.faults sink.old ≤ K.faults sink.new }
        ensures write_cause { result ≡ End.WriteFault → Rose (K.faults sink.old) (K.faults sink.new) }
        ensures write_steady { result ≢ End.WriteFault → K.faults sink.new ≡ K.faults sink.old }
    {
        self.reader.restart();
        work(
            &mut self.reader,
            self.buffer.as_mut_slice(),
            performer,
            source,
            out,
            sink,
        )
    }
}

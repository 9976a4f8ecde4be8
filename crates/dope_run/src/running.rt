//! The run of the program: from its words to its status.
ghost use Rattle.std.specs.Prelude.{◌≡◌, ◌≢◌, ◌≤◌, map, string_bytes, None, IsNone, IsSomeAnd};
ghost use Rattle.kind_core.specs.declared.shapes.Shape.{Shape};
ghost use Rattle.outside_io.specs.Count.{Rose};
ghost use Rattle.command_line.specs.declared.order.Order.{Order};
ghost use Rattle.command_line.specs.Law.{Orders, Spells, SpellsPlainly};
ghost use Rattle.dope_run.specs.Transcript.{Ended, IsRefused, IsPlayed};

use crate::playing::play;
use crate::status::Status;
use crate::words::play_shape;
use command_line::Unread;
use outside_io::{Sink, Source};
use server_core::Server;
use std::alloc::Global;

/// Runs the command that the words, without the program's name, stand for: plays the script of the source from
/// its opening to its end, and writes the transcript to the sink. `kept` holds the server that it opened.
///
/// - `Usage` comes only where `clap` doesn't take the words for the program's command, or where its matches are no
///   order to play; so never for the command with each of its options once, in any order, each with a number in its
///   range. Neither then nor at `NoMemory` is anything read or written, and `kept` stays None.
/// - After every other status the source has given, the sink has gained and the server is left as a run of
///   the machine over the script's lines says, which keeps the laws; docs/MACHINE.md, "The run of a script".
/// - A read begins only where all output is written that the lines whole in earlier reads ask for.
/// - `ReadFault` and `WriteFault` come only where that object's count of faults rose in this call, and every other
///   status leaves the count as it was: what failed is not tried again.
pub fn run<S: Source, K: Sink>(
    alloc: Global,
    words: &[String],
    source: &mut S,
    sink: &mut K,
    kept: &mut Option<Server>,
) -> Status
    requires none_kept { IsNone kept.old }
    ensures usage { result ≡ Status.Usage → (shape : Shape) → ¬ Orders (map string_bytes words.now) (Order.Play shape) }
    ensures plain { (shape : Shape) → SpellsPlainly (map string_bytes words.now) (Order.Play shape) → result ≢ Status.Usage }
    ensures spelled { (shape : Shape) → Spells (map string_bytes words.now) (Order.Play shape) → result ≢ Status.Usage }
    ensures untouched { IsRefused result → (source.new ≡ source.old) × (sink.new ≡ sink.old) × (kept.new ≡ None) }
    ensures played { IsPlayed result → (shape : Shape) × Orders (map string_bytes words.now) (Order.Play shape)
        × IsSomeAnd kept.new (λ server. Ended shape result (S.left source.old) (S.left source.new)
        (K.held sink.old) (K.held sink.new) server.state) }
    ensures read_later { S.faults source.old ≤ S.faults source.new }
    ensures read_cause { result ≡ Status.ReadFault → Rose (S.faults source.old) (S.faults source.new) }
    ensures read_steady { result ≢ Status.ReadFault → S.faults source.new ≡ S.faults source.old }
    ensures write_later { K.faults sink.old ≤ K.faults sink.new }
    ensures write_cause { result ≡ Status.WriteFault → Rose (K.faults sink.old) (K.faults sink.new) }
    ensures write_steady { result ≢ Status.WriteFault → K.faults sink.new ≡ K.faults sink.old }
{
    match play_shape(alloc, words) {
        Ok(shape) => play(alloc, shape, source, sink, kept),
        Err(Unread::Usage) => Status::Usage,
        Err(Unread::NoMemory) => Status::NoMemory,
    }
}

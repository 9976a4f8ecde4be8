//! The command `play`.
ghost use Rattle.std.specs.Prelude.{◌≡◌, ◌≢◌, ◌≤◌, None, IsNone, IsSomeAnd};
ghost use Rattle.outside_io.specs.Count.{Rose};
ghost use Rattle.scene_model.specs.Shapes.{IsShape};
ghost use Rattle.dope_run.specs.Transcript.{Ended, IsRefused, IsPlayed, status_of};

use crate::stage::Stage;
use crate::status::Status;
use outside_io::{Sink, Source};
use script_walk::End;
use server_core::{NoMemory, Server, Shape};
use std::alloc::Global;

/// The status of a run, by how the walk over its script ended.
fn status(end: End) -> Status
    ensures { result ≡ status_of end }
{
    match end {
        End::Done => Status::Done,
        End::ReadFault => Status::ReadFault,
        End::WriteFault => Status::WriteFault,
        End::BadLine { line } => Status::BadScript { line },
        End::TooMuch => Status::TooMuch,
    }
}

/// Plays the script of the source on a server of this shape, from its opening on, and writes the transcript to the sink.
/// `kept` holds the server afterwards. `NoMemory` comes only for want of memory, and then nothing was read or written.
pub fn play<S: Source, K: Sink>(
    alloc: Global,
    shape: Shape,
    source: &mut S,
    sink: &mut K,
    kept: &mut Option<Server>,
) -> Status
    requires shape { IsShape shape }
    requires none_kept { IsNone kept.old }
    ensures untouched { IsRefused result → (result ≡ Status.NoMemory) × (source.new ≡ source.old) × (sink.new ≡ sink.old) × (kept.new ≡ None) }
    ensures played { IsPlayed result → IsSomeAnd kept.new (λ server. Ended shape result
        (S.left source.old) (S.left source.new) (K.held sink.old) (K.held sink.new) server.state) }
    ensures read_later { S.faults source.old ≤ S.faults source.new }
    ensures read_cause { result ≡ Status.ReadFault → Rose (S.faults source.old) (S.faults source.new) }
    ensures read_steady { result ≢ Status.ReadFault → S.faults source.new ≡ S.faults source.old }
    ensures write_later { K.faults sink.old ≤ K.faults sink.new }
    ensures write_cause { result ≡ Status.WriteFault → Rose (K.faults sink.old) (K.faults sink.new) }
    ensures write_steady { result ≢ Status.WriteFault → K.faults sink.new ≡ K.faults sink.old }
{
    let mut stage = match Stage::open(alloc, shape) {
        Ok(stage) => stage,
        Err(NoMemory) => return Status::NoMemory,
    };
    let end = stage
        .walker
        .walk(&mut stage.player, source, &mut stage.out, sink);
    *kept = Some(stage.into_server());
    status(end)
}

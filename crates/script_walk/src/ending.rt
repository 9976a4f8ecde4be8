//! The end of a script.
ghost use Rattle.std.specs.Prelude.{◌≡◌, ◌+◌, ◌<◌, ◌^◌, []};
ghost use Rattle.script_walk.specs.Points.{IsReady, Finished, point};

use crate::end::End;
use crate::performer::Performer;
use crate::reader::Reader;
use outside_io::{Outbox, Sink};

/// The script is at its end: performs a last line that has no line feed, where there is one, and writes its output.
pub fn finish<P: Performer, K: Sink>(
    reader: &mut Reader,
    performer: &mut P,
    out: &mut Outbox,
    sink: &mut K,
) -> End
    requires ready { IsReady P.rules (point P.rules reader.old (P.state performer.old) (K.held sink.old) [] (K.faults sink.old)) }
    requires room { reader.old.lines + 1 < 2 ^ 64 }
    requires written { out.old ≡ [] }
    ensures { Finished P.rules result
        (point P.rules reader.old (P.state performer.old) (K.held sink.old) [] (K.faults sink.old))
        (point P.rules reader.new (P.state performer.new) (K.held sink.new) [] (K.faults sink.new)) }
{
    if reader.is_between() {
        return End::Done;
    }
    match reader.end_script(performer, out, sink) {
        Ok(()) => match out.flush(sink) {
            Ok(()) => End::Done,
            Err(_) => End::WriteFault,
        },
        Err(cut) => cut.end(),
    }
}

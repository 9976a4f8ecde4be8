//! Replies that wait to be written, so that many short ones go to a link in one write.
ghost use Rattle.std.specs.Prelude.{◌≡◌, ◌≤◌, [], length, OnOk, OnErr};
ghost use Rattle.std.specs.Io.KnownBytes.{Appends};
ghost use Rattle.outside_io.specs.Count.{Rose};
ghost use Rattle.outside_io.specs.Sink.{AppendsFront};
ghost use Rattle.outside_io.specs.Outbox.{Puts, PutsFront, output};

use arrayvec::ArrayVec;
use outside_io::Failed;
use outside_links::Link;

/// The bytes that may wait.
pub const ROOM: usize = 4096;

/// Replies that wait to be written, in order.
pub type Replies = ArrayVec<u8, ROOM>;

/// Writes all of `bytes`, by as many calls as it takes, none where there are no bytes. `Failed` comes only where the
/// count of faults rose in this call; then a front of the bytes was written, maybe none of them.
fn write_all<L: Link>(link: &mut L, bytes: &[u8]) -> Result<(), Failed>
    ensures ok { OnOk result (Appends (L.held link.old) (L.held link.new) bytes.now) }
    ensures err { OnErr result (AppendsFront (L.held link.old) (L.held link.new) bytes.now) }
    ensures still { L.left link.new ≡ L.left link.old }
    ensures later { L.faults link.old ≤ L.faults link.new }
    ensures cause { OnErr result (Rose (L.faults link.old) (L.faults link.new)) }
    ensures steady { OnOk result (L.faults link.new ≡ L.faults link.old) }
{
    let mut written = 0;
    while written < bytes.len() {
        match link.write(&bytes[written..]) {
            Ok(count) => written += count,
            Err(failed) => return Err(failed),
        }
    }
    Ok(())
}

/// Writes all that waits. `Failed` comes only where the link's count of faults rose in this call; then a front of what
/// waited was written. Nothing waits any more.
pub fn flush<L: Link>(out: &mut Replies, link: &mut L) -> Result<(), Failed>
    ensures ok { OnOk result (Appends (L.held link.old) (L.held link.new) out.old.items) }
    ensures err { OnErr result (AppendsFront (L.held link.old) (L.held link.new) out.old.items) }
    ensures empty { out.new.items ≡ [] }
    ensures still { L.left link.new ≡ L.left link.old }
    ensures later { L.faults link.old ≤ L.faults link.new }
    ensures cause { OnErr result (Rose (L.faults link.old) (L.faults link.new)) }
    ensures steady { OnOk result (L.faults link.new ≡ L.faults link.old) }
{
    let written = write_all(link, out.as_slice());
    out.clear();
    written
}

/// Puts a text behind what waits, and writes what waits first where there is no room for both. `Failed` comes only
/// where the link's count of faults rose in this call; then a front of what waited was written.
pub fn put<L: Link>(out: &mut Replies, text: &[u8], link: &mut L) -> Result<(), Failed>
    requires { length text.now ≤ ROOM }
    ensures ok { OnOk result (Puts (output (L.held link.old) out.old.items) (output (L.held link.new) out.new.items) text.now) }
    ensures err { OnErr result (PutsFront (output (L.held link.old) out.old.items) (output (L.held link.new) out.new.items) text.now) }
    ensures still { L.left link.new ≡ L.left link.old }
    ensures later { L.faults link.old ≤ L.faults link.new }
    ensures cause { OnErr result (Rose (L.faults link.old) (L.faults link.new)) }
    ensures steady { OnOk result (L.faults link.new ≡ L.faults link.old) }
{
    if text.len() > ROOM - out.len() {
        match flush(out, link) {
            Ok(()) => {}
            Err(failed) => return Err(failed),
        }
    }
    let _kept = out.try_extend_from_slice(text);
    Ok(())
}

//! Carrying out what a line asks for.
ghost use Rattle.std.specs.Prelude.{◌≡◌, ℕ, ◌≤◌, ◌∷◌, List, [], length, replicate, Option, OnOk, OnErr};
ghost use Rattle.outside_io.specs.Count.{Rose};
ghost use Rattle.outside_io.specs.Outbox.{Puts, PutsFront, output};
ghost use Rattle.machine_model.specs.State.{IsState, seen_at};
ghost use Rattle.desk_model.specs.Commands.{IsPayload};
ghost use Rattle.machine_model.specs.Events.Event.{Connect, Bye, Ask, Misread, Feed, Tick, CountDirty, LookAt, Dump};
ghost use Rattle.script_lines.specs.Payloads.{payload_of};
ghost use Rattle.script_lines.specs.Suits.{Suits};
ghost use Rattle.script_walk.specs.declared.end.End.TheVariants.{Done};
ghost use Rattle.dope_run.specs.Obeying.{Obeyed, at, wrote};
ghost use Rattle.dope_run.specs.Script.{events_of_order};
ghost use Rattle.dope_run.specs.Text.{dump_text};

use crate::text::{dirty_line, drew_line, dump_line, pixel_line, reply_line};
use arrayvec::ArrayString;
use cmd_text::{Command, Input, Refusal, Reply};
use outside_io::{Failed, Outbox, Sink};
use script_lines::Order;
use server_core::{Server, Shape};

/// Puts one line of output.
fn say<K: Sink, const CAP: usize>(
    line: &ArrayString<CAP>,
    out: &mut Outbox,
    sink: &mut K,
) -> Result<(), Failed>
    ensures ok { OnOk result (Puts (output (K.held sink.old) out.old) (output (K.held sink.new) out.new) line.now.bytes) }
    ensures err { OnErr result (PutsFront (output (K.held sink.old) out.old) (output (K.held sink.new) out.new) line.now.bytes) }
    ensures later { K.faults sink.old ≤ K.faults sink.new }
    ensures cause { OnErr result (Rose (K.faults sink.old) (K.faults sink.new)) }
    ensures steady { OnOk result (K.faults sink.new ≡ K.faults sink.old) }
{
    out.put(line.as_str().as_bytes(), sink)
}

/// A client connects, and is told its reply.
fn connect<K: Sink>(
    client: u32,
    server: &mut Server,
    out: &mut Outbox,
    sink: &mut K,
) -> Result<(), Failed>
    requires low { 1 ≤ client }
    requires high { client ≤ 16 }
    ensures { Obeyed (wrote result) (Connect client ∷ [])
        (at server.old.state (K.held sink.old) out.old (K.faults sink.old))
        (at server.new.state (K.held sink.new) out.new (K.faults sink.new)) }
{
    let reply = server.connect(client);
    say(&reply_line(client, &reply), out, sink)
}

/// A client leaves, and is told its reply.
fn bye<K: Sink>(
    client: u32,
    server: &mut Server,
    out: &mut Outbox,
    sink: &mut K,
) -> Result<(), Failed>
    requires low { 1 ≤ client }
    requires high { client ≤ 16 }
    ensures { Obeyed (wrote result) (Bye client ∷ [])
        (at server.old.state (K.held sink.old) out.old (K.faults sink.old))
        (at server.new.state (K.held sink.new) out.new (K.faults sink.new)) }
{
    let reply = server.bye(client);
    say(&reply_line(client, &reply), out, sink)
}

/// A client gives a command with the bytes that come with it, and is told its reply.
fn ask<K: Sink>(
    client: u32,
    command: &Command,
    payload: &[u8],
    server: &mut Server,
    out: &mut Outbox,
    sink: &mut K,
) -> Result<(), Failed>
    requires low { 1 ≤ client }
    requires high { client ≤ 16 }
    requires payload { IsPayload command.now payload.now }
    ensures { Obeyed (wrote result) (Ask client command.now payload.now ∷ [])
        (at server.old.state (K.held sink.old) out.old (K.faults sink.old))
        (at server.new.state (K.held sink.new) out.new (K.faults sink.new)) }
{
    let reply = server.command(client, command, payload);
    say(&reply_line(client, &reply), out, sink)
}

/// A client gives a line that is no command, and is told its place.
fn misread<K: Sink>(
    client: u32,
    place: u32,
    server: &Server,
    out: &mut Outbox,
    sink: &mut K,
) -> Result<(), Failed>
    requires valid { IsState server.now.state }
    ensures { Obeyed (wrote result) (Misread client place ∷ [])
        (at server.now.state (K.held sink.old) out.old (K.faults sink.old))
        (at server.now.state (K.held sink.new) out.new (K.faults sink.new)) }
{
    let reply = Reply::Refused(Refusal::Syntax { place });
    say(&reply_line(client, &reply), out, sink)
}

/// The pointer or the keyboard does something; nothing is told.
fn feed(input: Input, server: &mut Server)
    ensures { (held : Option (List ℕ)) (waiting : List ℕ) (faults : ℕ) → Obeyed Done (Feed input ∷ []) (at server.old.state held waiting faults) (at server.new.state held waiting faults) }
{
    server.feed(input);
}

/// One tick and its line.
fn tick<K: Sink>(server: &mut Server, out: &mut Outbox, sink: &mut K) -> Result<(), Failed>
    ensures { Obeyed (wrote result) (Tick ∷ [])
        (at server.old.state (K.held sink.old) out.old (K.faults sink.old))
        (at server.new.state (K.held sink.new) out.new (K.faults sink.new)) }
{
    let drew = server.tick();
    say(&drew_line(drew), out, sink)
}

/// So many ticks, each with its line; the first fault of writing ends them.
fn ticks<K: Sink>(
    count: u32,
    server: &mut Server,
    out: &mut Outbox,
    sink: &mut K,
) -> Result<(), Failed>
    requires valid { IsState server.old.state }
    ensures { Obeyed (wrote result) (replicate count Tick)
        (at server.old.state (K.held sink.old) out.old (K.faults sink.old))
        (at server.new.state (K.held sink.new) out.new (K.faults sink.new)) }
{
    for i in 0..count {
        match tick(server, out, sink) {
            Ok(()) => {}
            Err(failed) => return Err(failed),
        }
    }
    Ok(())
}

/// The line for how many pixels are dirty.
fn dirty<K: Sink>(server: &Server, out: &mut Outbox, sink: &mut K) -> Result<(), Failed>
    requires valid { IsState server.now.state }
    ensures { Obeyed (wrote result) (CountDirty ∷ [])
        (at server.now.state (K.held sink.old) out.old (K.faults sink.old))
        (at server.now.state (K.held sink.new) out.new (K.faults sink.new)) }
{
    say(&dirty_line(server.dirty()), out, sink)
}

/// What a client sees at the pixel (x, y): its palette number, or None off the screen.
fn seen_at(server: &Server, x: u32, y: u32) -> Option<u8>
    ensures { result ≡ seen_at server.now.state x y }
{
    let shape = server.shape();
    if x < shape.width && y < shape.height {
        Some(server.picture()[y as usize * shape.width as usize + x as usize])
    } else {
        None
    }
}

/// The line for what the pixel (x, y) shows.
fn pixel<K: Sink>(
    x: u32,
    y: u32,
    server: &Server,
    out: &mut Outbox,
    sink: &mut K,
) -> Result<(), Failed>
    requires valid { IsState server.now.state }
    ensures { Obeyed (wrote result) (LookAt x y ∷ [])
        (at server.now.state (K.held sink.old) out.old (K.faults sink.old))
        (at server.now.state (K.held sink.new) out.new (K.faults sink.new)) }
{
    say(&pixel_line(seen_at(server, x, y)), out, sink)
}

/// Puts a whole screen of this shape: its sides, its bytes and a line feed.
fn say_screen<K: Sink>(
    shape: Shape,
    screen: &[u8],
    out: &mut Outbox,
    sink: &mut K,
) -> Result<(), Failed>
    ensures ok { OnOk result (Puts (output (K.held sink.old) out.old) (output (K.held sink.new) out.new) (dump_text shape screen.now)) }
    ensures err { OnErr result (PutsFront (output (K.held sink.old) out.old) (output (K.held sink.new) out.new) (dump_text shape screen.now)) }
    ensures later { K.faults sink.old ≤ K.faults sink.new }
    ensures cause { OnErr result (Rose (K.faults sink.old) (K.faults sink.new)) }
    ensures steady { OnOk result (K.faults sink.new ≡ K.faults sink.old) }
{
    match say(&dump_line(shape), out, sink) {
        Ok(()) => {}
        Err(failed) => return Err(failed),
    }
    match out.put(screen, sink) {
        Ok(()) => {}
        Err(failed) => return Err(failed),
    }
    out.put(b"\n", sink)
}

/// The whole screen.
fn dump<K: Sink>(server: &Server, out: &mut Outbox, sink: &mut K) -> Result<(), Failed>
    requires valid { IsState server.now.state }
    ensures { Obeyed (wrote result) (Dump ∷ [])
        (at server.now.state (K.held sink.old) out.old (K.faults sink.old))
        (at server.now.state (K.held sink.new) out.new (K.faults sink.new)) }
{
    say_screen(server.shape(), server.picture(), out, sink)
}

/// Carries out an order, with its lines of output.
pub fn obey<K: Sink>(
    order: &Order,
    payload: &[u8],
    server: &mut Server,
    out: &mut Outbox,
    sink: &mut K,
) -> Result<(), Failed>
    requires valid { IsState server.old.state }
    requires suits { Suits order.now }
    requires payload { length payload.now ≡ payload_of order.now }
    ensures { Obeyed (wrote result) (events_of_order order.now payload.now)
        (at server.old.state (K.held sink.old) out.old (K.faults sink.old))
        (at server.new.state (K.held sink.new) out.new (K.faults sink.new)) }
{
    match order {
        Order::Nothing => Ok(()),
        Order::Connect { client } => connect(*client, server, out, sink),
        Order::Bye { client } => bye(*client, server, out, sink),
        Order::Ask { client, command } => ask(*client, command, payload, server, out, sink),
        Order::Misread { client, place } => misread(*client, *place, server, out, sink),
        Order::Feed { input } => {
            feed(*input, server);
            Ok(())
        }
        Order::Ticks { count } => ticks(*count, server, out, sink),
        Order::Dirty => dirty(server, out, sink),
        Order::Pixel { x, y } => pixel(*x, *y, server, out, sink),
        Order::Dump => dump(server, out, sink),
    }
}

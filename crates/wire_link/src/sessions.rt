//! A session: one connection from its first byte to its end.
ghost use Rattle.std.specs.Prelude.{◌≡◌, ◌≢◌, ◌<◌, ◌≤◌, [], true, false, length, take, OnOk, OnErr, MatchResult, IfOk, IfErr, Err};
ghost use Rattle.outside_io.specs.Count.{Rose};
ghost use Rattle.wire_link.specs.declared.end.End.TheVariants.{LinkFault};
ghost use Rattle.wire_link.specs.Calls.{ledger};
ghost use Rattle.wire_link.specs.Framing.{IsItem, IsPartial};
ghost use Rattle.wire_link.specs.Session.{Ended, IsOpen};
ghost use Rattle.wire_link.specs.Carrying.{Parted, is_client};
ghost use Rattle.wire_link.specs.Going.{Exchanged, ExchangedLast, Went, Stopped, TurnDone, TurnEnded, Finished, breaks, place};

use crate::asking::request;
use crate::carrying::carry_out;
use crate::cut::Cut;
use crate::end::End;
use crate::framer::Framer;
use crate::replies::{Replies, flush, put};
use crate::service::Service;
use crate::standing::Standing;
use arrayvec::ArrayVec;
use outside_io::Failed;
use outside_links::Link;
use std::sync::Wait;

/// The bytes that a read asks for at most.
const PIECE: usize = 4096;

/// How far a session has come: how it stands, how many lines were carried out, and the replies that wait to be written.
pub struct Talk {
    pub standing: Standing,
    pub lines: u64,
    pub out: Replies,
}

impl Drop for Talk {
    fn drop(self) {
        let Talk {
            standing: _,
            lines: _,
            out: _,
        } = self;
    }
}

/// Carries out a whole line with its payload, and puts its reply behind those that wait.
fn answer<R: Wait, L: Link, S: Service>(
    rt: &R,
    line: &[u8],
    payload: &[u8],
    talk: &mut Talk,
    link: &mut L,
    service: &mut S,
) -> Result<(), Failed>
    requires item { IsItem line.now payload.now }
    requires still { IsOpen talk.old.standing }
    requires client { S.has_client service.old ≡ is_client talk.old.standing }
    ensures ok { OnOk result (Exchanged false line.now payload.now (place talk.old [] (L.held link.old) (ledger (S.kept service.old) (S.refusals service.old))) (place talk.new [] (L.held link.new) (ledger (S.kept service.new) (S.refusals service.new)))) }
    ensures err { OnErr result (Exchanged true line.now payload.now (place talk.old [] (L.held link.old) (ledger (S.kept service.old) (S.refusals service.old))) (place talk.new [] (L.held link.new) (ledger (S.kept service.new) (S.refusals service.new)))) }
    ensures client_now { S.has_client service.new ≡ is_client talk.new.standing }
    ensures refusals { S.refusals service.old ≤ S.refusals service.new }
    ensures left { L.left link.new ≡ L.left link.old }
    ensures later { L.faults link.old ≤ L.faults link.new }
    ensures cause { OnErr result (Rose (L.faults link.old) (L.faults link.new)) }
    ensures steady { OnOk result (L.faults link.new ≡ L.faults link.old) }
{
    let request = request(talk.standing, line);
    let answered = carry_out(rt, talk.standing, request, payload, service);
    talk.standing = answered.after;
    talk.lines = talk.lines.saturating_add(1);
    match put(&mut talk.out, answered.text.as_str().as_bytes(), link) {
        Ok(()) => Ok(()),
        Err(failed) => Err(failed),
    }
}

/// Whether the session goes on.
fn is_open(standing: Standing) -> bool
    ensures on { result ≡ true → IsOpen standing }
    ensures off { result ≡ false → standing ≡ Standing.Over }
{
    match standing {
        Standing::Over => false,
        Standing::Before | Standing::Client | Standing::Console => true,
    }
}

/// Whether the link failed.
fn is_fault(end: End) -> bool
    ensures { result ≡ breaks end }
{
    match end {
        End::LinkFault => true,
        End::Bye => false,
        End::EndOfInput => false,
        End::LineTooLong { .. } => false,
        End::BadFrame { .. } => false,
    }
}

/// Carries out a whole line with its payload; the session ends where its reply can't be put, and with its `bye`.
fn exchange<R: Wait, L: Link, S: Service>(
    rt: &R,
    framer: &Framer,
    talk: &mut Talk,
    link: &mut L,
    service: &mut S,
) -> Result<bool, End>
    requires item { IsItem framer.now.line framer.now.payload }
    requires still { IsOpen talk.old.standing }
    requires client { S.has_client service.old ≡ is_client talk.old.standing }
    ensures told { MatchResult result
        (λ _. Exchanged false framer.now.line framer.now.payload (place talk.old [] (L.held link.old) (ledger (S.kept service.old) (S.refusals service.old))) (place talk.new [] (L.held link.new) (ledger (S.kept service.new) (S.refusals service.new))))
        (λ end. ExchangedLast end framer.now.line framer.now.payload (place talk.old [] (L.held link.old) (ledger (S.kept service.old) (S.refusals service.old))) (place talk.new [] (L.held link.new) (ledger (S.kept service.new) (S.refusals service.new)))) }
    ensures some { IfOk result (λ some. some ≡ true) }
    ensures still_open { OnOk result (IsOpen talk.new.standing) }
    ensures client_now { S.has_client service.new ≡ is_client talk.new.standing }
    ensures refusals { S.refusals service.old ≤ S.refusals service.new }
    ensures left { L.left link.new ≡ L.left link.old }
    ensures later { L.faults link.old ≤ L.faults link.new }
    ensures cause { result ≡ Err LinkFault → Rose (L.faults link.old) (L.faults link.new) }
    ensures steady { (result ≡ Err LinkFault → ⊥) → L.faults link.new ≡ L.faults link.old }
{
    match answer(rt, framer.line(), framer.payload(), talk, link, service) {
        Ok(()) => {}
        Err(_) => return Err(End::LinkFault),
    }
    if is_open(talk.standing) {
        return Ok(true);
    }
    Err(End::Bye)
}

/// Takes what comes next out of the framer: carries out a line where one is whole, and answers whether one was.
fn next_line<R: Wait, L: Link, S: Service>(
    rt: &R,
    framer: &mut Framer,
    talk: &mut Talk,
    link: &mut L,
    service: &mut S,
) -> Result<bool, End>
    requires still { IsOpen talk.old.standing }
    requires client { S.has_client service.old ≡ is_client talk.old.standing }
    ensures told { MatchResult result
        (λ _. Went (place talk.old framer.old.waiting (L.held link.old) (ledger (S.kept service.old) (S.refusals service.old))) [] (place talk.new framer.new.waiting (L.held link.new) (ledger (S.kept service.new) (S.refusals service.new))))
        (λ end. Stopped end (place talk.old framer.old.waiting (L.held link.old) (ledger (S.kept service.old) (S.refusals service.old))) [] (place talk.new framer.new.waiting (L.held link.new) (ledger (S.kept service.new) (S.refusals service.new)))) }
    ensures still_open { OnOk result (IsOpen talk.new.standing) }
    ensures fewer { IfOk result (λ some. some ≡ true → length framer.new.waiting < length framer.old.waiting) }
    ensures none { IfOk result (λ some. some ≡ false → IsPartial framer.new.waiting) }
    ensures same { IfOk result (λ some. some ≡ false → framer.new.waiting ≡ framer.old.waiting) }
    ensures client_now { S.has_client service.new ≡ is_client talk.new.standing }
    ensures refusals { S.refusals service.old ≤ S.refusals service.new }
    ensures left { L.left link.new ≡ L.left link.old }
    ensures later { L.faults link.old ≤ L.faults link.new }
    ensures cause { result ≡ Err LinkFault → Rose (L.faults link.old) (L.faults link.new) }
    ensures steady { (result ≡ Err LinkFault → ⊥) → L.faults link.new ≡ L.faults link.old }
{
    match framer.next() {
        Cut::More => Ok(false),
        Cut::Line => match exchange(rt, framer, talk, link, service) {
            Ok(some) => Ok(some),
            Err(end) => Err(end),
        },
        Cut::Payload => match exchange(rt, framer, talk, link, service) {
            Ok(some) => Ok(some),
            Err(end) => Err(end),
        },
        Cut::TooLong => Err(End::LineTooLong {
            line: talk.lines.saturating_add(1),
        }),
        Cut::BadFrame { place } => Err(End::BadFrame {
            line: talk.lines.saturating_add(1),
            place,
        }),
    }
}

/// Takes the bytes of one read, and carries out all lines that are whole with them.
fn whole_lines<R: Wait, L: Link, S: Service>(
    rt: &R,
    piece: &[u8],
    framer: &mut Framer,
    talk: &mut Talk,
    link: &mut L,
    service: &mut S,
) -> Result<(), End>
    requires still { IsOpen talk.old.standing }
    requires client { S.has_client service.old ≡ is_client talk.old.standing }
    ensures told { MatchResult result
        (λ _. Went (place talk.old framer.old.waiting (L.held link.old) (ledger (S.kept service.old) (S.refusals service.old))) piece.now (place talk.new framer.new.waiting (L.held link.new) (ledger (S.kept service.new) (S.refusals service.new))))
        (λ end. Stopped end (place talk.old framer.old.waiting (L.held link.old) (ledger (S.kept service.old) (S.refusals service.old))) piece.now (place talk.new framer.new.waiting (L.held link.new) (ledger (S.kept service.new) (S.refusals service.new)))) }
    ensures still_open { OnOk result (IsOpen talk.new.standing) }
    ensures partial { OnOk result (IsPartial framer.new.waiting) }
    ensures client_now { S.has_client service.new ≡ is_client talk.new.standing }
    ensures refusals { S.refusals service.old ≤ S.refusals service.new }
    ensures left { L.left link.new ≡ L.left link.old }
    ensures later { L.faults link.old ≤ L.faults link.new }
    ensures cause { result ≡ Err LinkFault → Rose (L.faults link.old) (L.faults link.new) }
    ensures steady { (result ≡ Err LinkFault → ⊥) → L.faults link.new ≡ L.faults link.old }
{
    let mut taken = 0;
    loop {
        match next_line(rt, framer, talk, link, service) {
            Ok(true) => {}
            Ok(false) => {
                if taken == piece.len() {
                    return Ok(());
                }
                taken += framer.feed(&piece[taken..]);
            }
            Err(end) => return Err(end),
        }
    }
}

/// Takes the bytes of one read, carries out all lines that are whole with them, and writes the replies that wait.
fn take<R: Wait, L: Link, S: Service>(
    rt: &R,
    piece: &[u8],
    framer: &mut Framer,
    talk: &mut Talk,
    link: &mut L,
    service: &mut S,
) -> Result<(), End>
    requires still { IsOpen talk.old.standing }
    requires written { talk.old.out.items ≡ [] }
    requires client { S.has_client service.old ≡ is_client talk.old.standing }
    ensures told { MatchResult result
        (λ _. Went (place talk.old framer.old.waiting (L.held link.old) (ledger (S.kept service.old) (S.refusals service.old))) piece.now (place talk.new framer.new.waiting (L.held link.new) (ledger (S.kept service.new) (S.refusals service.new))))
        (λ end. Stopped end (place talk.old framer.old.waiting (L.held link.old) (ledger (S.kept service.old) (S.refusals service.old))) piece.now (place talk.new framer.new.waiting (L.held link.new) (ledger (S.kept service.new) (S.refusals service.new)))) }
    ensures still_open { OnOk result (IsOpen talk.new.standing) }
    ensures partial { OnOk result (IsPartial framer.new.waiting) }
    ensures still_written { OnOk result (talk.new.out.items ≡ []) }
    ensures all_written { IfErr result (λ end. breaks end ≡ false → talk.new.out.items ≡ []) }
    ensures client_now { S.has_client service.new ≡ is_client talk.new.standing }
    ensures refusals { S.refusals service.old ≤ S.refusals service.new }
    ensures left { L.left link.new ≡ L.left link.old }
    ensures later { L.faults link.old ≤ L.faults link.new }
    ensures cause { result ≡ Err LinkFault → Rose (L.faults link.old) (L.faults link.new) }
    ensures steady { (result ≡ Err LinkFault → ⊥) → L.faults link.new ≡ L.faults link.old }
{
    match whole_lines(rt, piece, framer, talk, link, service) {
        Ok(()) => match flush(&mut talk.out, link) {
            Ok(()) => Ok(()),
            Err(_) => Err(End::LinkFault),
        },
        Err(end) => {
            if is_fault(end) {
                return Err(end);
            }
            match flush(&mut talk.out, link) {
                Ok(()) => Err(end),
                Err(_) => Err(End::LinkFault),
            }
        }
    }
}

/// One read, and all lines that are whole with it: the replies to them are written before this returns.
fn turn<R: Wait, L: Link, S: Service>(
    rt: &R,
    buffer: &mut [u8],
    framer: &mut Framer,
    talk: &mut Talk,
    link: &mut L,
    service: &mut S,
) -> Result<(), End>
    requires piece { length buffer.old ≡ PIECE }
    requires still { IsOpen talk.old.standing }
    requires written { talk.old.out.items ≡ [] }
    requires client { S.has_client service.old ≡ is_client talk.old.standing }
    ensures told { MatchResult result
        (λ _. TurnDone (place talk.old framer.old.waiting (L.held link.old) (ledger (S.kept service.old) (S.refusals service.old))) (place talk.new framer.new.waiting (L.held link.new) (ledger (S.kept service.new) (S.refusals service.new))) (L.left link.old) (L.left link.new))
        (λ end. TurnEnded end (place talk.old framer.old.waiting (L.held link.old) (ledger (S.kept service.old) (S.refusals service.old))) (place talk.new framer.new.waiting (L.held link.new) (ledger (S.kept service.new) (S.refusals service.new))) (L.left link.old) (L.left link.new)) }
    ensures still_open { OnOk result (IsOpen talk.new.standing) }
    ensures partial { OnOk result (IsPartial framer.new.waiting) }
    ensures still_written { OnOk result (talk.new.out.items ≡ []) }
    ensures all_written { IfErr result (λ end. breaks end ≡ false → talk.new.out.items ≡ []) }
    ensures client_now { S.has_client service.new ≡ is_client talk.new.standing }
    ensures refusals { S.refusals service.old ≤ S.refusals service.new }
    ensures later { L.faults link.old ≤ L.faults link.new }
    ensures cause { result ≡ Err LinkFault → Rose (L.faults link.old) (L.faults link.new) }
    ensures steady { (result ≡ Err LinkFault → ⊥) → L.faults link.new ≡ L.faults link.old }
{
    let count = match link.read(buffer) {
        Ok(count) => count,
        Err(_) => return Err(End::LinkFault),
    };
    if count == 0 {
        return Err(End::EndOfInput);
    }
    match take(rt, &buffer[..count], framer, talk, link, service) {
        Ok(()) => Ok(()),
        Err(end) => Err(end),
    }
}

/// Goes through the lines of a connection to the session's end.
fn talk_through<R: Wait, L: Link, S: Service>(
    rt: &R,
    buffer: &mut [u8],
    framer: &mut Framer,
    talk: &mut Talk,
    link: &mut L,
    service: &mut S,
) -> End
    requires piece { length buffer.old ≡ PIECE }
    requires fed { framer.old.waiting ≡ [] }
    requires still { talk.old.standing ≡ Standing.Before }
    requires written { talk.old.out.items ≡ [] }
    requires client { S.has_client service.old ≡ is_client talk.old.standing }
    ensures told { Finished result (place talk.old framer.old.waiting (L.held link.old) (ledger (S.kept service.old) (S.refusals service.old))) (place talk.new framer.new.waiting (L.held link.new) (ledger (S.kept service.new) (S.refusals service.new))) (L.left link.old) (L.left link.new) }
    ensures client_now { S.has_client service.new ≡ is_client talk.new.standing }
    ensures refusals { S.refusals service.old ≤ S.refusals service.new }
    ensures later { L.faults link.old ≤ L.faults link.new }
    ensures cause { result ≡ LinkFault → Rose (L.faults link.old) (L.faults link.new) }
    ensures steady { result ≢ LinkFault → L.faults link.new ≡ L.faults link.old }
{
    for _ in rt.forever() {
        match turn(rt, buffer, framer, talk, link, service) {
            Ok(()) => {}
            Err(end) => return end,
        }
    }
    unreachable!()
}

/// The session ends: a client that hasn't said `bye` leaves.
fn part<R: Wait, S: Service>(rt: &R, standing: Standing, service: &mut S)
    requires { S.has_client service.old ≡ is_client standing }
    ensures parted { Parted standing (ledger (S.kept service.old) (S.refusals service.old)) (ledger (S.kept service.new) (S.refusals service.new)) }
    ensures client_now { S.has_client service.new ≡ false }
    ensures refusals { S.refusals service.old ≤ S.refusals service.new }
{
    match standing {
        Standing::Client => {
            let _reply = service.bye(rt);
        }
        Standing::Before => {}
        Standing::Console => {}
        Standing::Over => {}
    }
}

/// A session: one connection from its first byte to its end. It takes the link's bytes through the framer, has the
/// service carry out each whole line, and writes the replies. What a session is stands in docs/MACHINE.md, "The lines
/// of a connection".
///
/// - All replies to the lines that are in are written before the next read, in one write where the link takes them so.
/// - A session that has a client gives `bye` to its service before it ends, whatever the end.
/// - `LinkFault` comes only where the link's count of faults rose in this call; every other end leaves it as it was.
/// - It takes no memory but through its service, and may wait; what is said of it holds if it returns.
pub fn session<R: Wait, L: Link, S: Service>(
    rt: &R,
    framer: &mut Framer,
    link: &mut L,
    service: &mut S,
) -> End
    requires fed { framer.old.waiting ≡ [] }
    requires client { S.has_client service.old ≡ false }
    ensures ended { Ended result (L.left link.old) (L.left link.new) (L.held link.old) (L.held link.new) (ledger (S.kept service.old) (S.refusals service.old)) (ledger (S.kept service.new) (S.refusals service.new)) }
    ensures client_left { S.has_client service.new ≡ false }
    ensures refusals { S.refusals service.old ≤ S.refusals service.new }
    ensures later { L.faults link.old ≤ L.faults link.new }
    ensures cause { result ≡ LinkFault → Rose (L.faults link.old) (L.faults link.new) }
    ensures steady { result ≢ LinkFault → L.faults link.new ≡ L.faults link.old }
{
    let mut buffer = [0u8; PIECE];
    let mut talk = Talk {
        standing: Standing::Before,
        lines: 0,
        out: ArrayVec::new(),
    };
    let end = talk_through(rt, &mut buffer, framer, &mut talk, link, service);
    part(rt, talk.standing, service);
    end
}

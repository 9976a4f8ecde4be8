//! Carrying out what a session's line asks for.
ghost use Rattle.std.specs.Prelude.{◌≡◌, ◌≤◌, ℕ, List, true, false, if◌then◌else◌};
ghost use Rattle.desk_model.specs.Commands.{IsPayload};
ghost use Rattle.wire_link.specs.declared.standing.Standing.TheVariants.{Before, Client, Console, Over};
ghost use Rattle.wire_link.specs.declared.request.Request.TheVariants.{Hello, Ask, Feed, Tick, Bye};
ghost use Rattle.wire_link.specs.Calls.{ledger, is_number};
ghost use Rattle.wire_link.specs.Carrying.{Suits, Came, is_client};
ghost use Rattle.wire_link.specs.Told.{reply_line};

use crate::request::Request;
use crate::service::Service;
use crate::standing::Standing;
use crate::text::{Line, reply_line, tick_line};
use cmd_text::{Command, Input, Refusal, Reply};
use std::sync::Wait;

/// What a line is answered: what is written, and how the session stands then.
#[derive(Drop)]
pub struct Answered {
    pub text: Line,
    pub after: Standing,
}

/// A reply is written, and the session stands so.
fn replied(reply: &Reply, after: Standing) -> Answered
    ensures text { result.text.bytes ≡ reply_line reply.now }
    ensures after { result.after ≡ after }
{
    Answered {
        text: reply_line(reply),
        after,
    }
}

/// How a session stands whose `hello` was answered so.
fn greeted(reply: &Reply) -> Standing
    ensures { result ≡ (if is_number reply.now then Client else Before) }
{
    match reply {
        Reply::Number(_) => Standing::Client,
        _ => Standing::Before,
    }
}

/// The session asks for a client.
fn greet<R: Wait, S: Service>(rt: &R, standing: Standing, service: &mut S) -> Answered
    requires { S.has_client service.old ≡ false }
    ensures came { (payload : List ℕ) → Came standing Hello payload (ledger (S.kept service.old) (S.refusals service.old)) (ledger (S.kept service.new) (S.refusals service.new)) result.text.bytes result.after }
    ensures client { S.has_client service.new ≡ is_client result.after }
    ensures later { S.refusals service.old ≤ S.refusals service.new }
{
    let reply = service.hello(rt);
    let after = greeted(&reply);
    replied(&reply, after)
}

/// The client gives a command.
fn ask<R: Wait, S: Service>(
    rt: &R,
    command: Command,
    payload: &[u8],
    standing: Standing,
    service: &mut S,
) -> Answered
    requires client { S.has_client service.old ≡ true }
    requires payload { IsPayload command payload.now }
    ensures came { Came standing (Ask command) payload.now (ledger (S.kept service.old) (S.refusals service.old)) (ledger (S.kept service.new) (S.refusals service.new)) result.text.bytes result.after }
    ensures client { S.has_client service.new ≡ S.has_client service.old }
    ensures after { result.after ≡ standing }
    ensures later { S.refusals service.old ≤ S.refusals service.new }
{
    let reply = service.ask(rt, command, payload);
    replied(&reply, standing)
}

/// A console's pointer or keyboard does something.
fn feed<R: Wait, S: Service>(rt: &R, input: Input, standing: Standing, service: &mut S) -> Answered
    ensures came { (payload : List ℕ) → Came standing (Feed input) payload (ledger (S.kept service.old) (S.refusals service.old)) (ledger (S.kept service.new) (S.refusals service.new)) result.text.bytes result.after }
    ensures client { S.has_client service.new ≡ S.has_client service.old }
    ensures after { result.after ≡ standing }
    ensures later { S.refusals service.old ≤ S.refusals service.new }
{
    let reply = service.feed(rt, input);
    replied(&reply, standing)
}

/// A console's tick.
fn tick<R: Wait, S: Service>(rt: &R, standing: Standing, service: &mut S) -> Answered
    ensures came { (payload : List ℕ) → Came standing Tick payload (ledger (S.kept service.old) (S.refusals service.old)) (ledger (S.kept service.new) (S.refusals service.new)) result.text.bytes result.after }
    ensures client { S.has_client service.new ≡ S.has_client service.old }
    ensures after { result.after ≡ standing }
    ensures later { S.refusals service.old ≤ S.refusals service.new }
{
    let answer = service.tick(rt);
    Answered {
        text: tick_line(answer),
        after: standing,
    }
}

/// The session says `bye`: a client leaves.
fn leave<R: Wait, S: Service>(rt: &R, standing: Standing, service: &mut S) -> Answered
    requires { S.has_client service.old ≡ is_client standing }
    ensures came { (payload : List ℕ) → Came standing Bye payload (ledger (S.kept service.old) (S.refusals service.old)) (ledger (S.kept service.new) (S.refusals service.new)) result.text.bytes result.after }
    ensures client { S.has_client service.new ≡ false }
    ensures after { result.after ≡ Over }
    ensures later { S.refusals service.old ≤ S.refusals service.new }
{
    match standing {
        Standing::Client => {
            let reply = service.bye(rt);
            replied(&reply, Standing::Over)
        }
        Standing::Before => replied(&Reply::Done, Standing::Over),
        Standing::Console => replied(&Reply::Done, Standing::Over),
        Standing::Over => replied(&Reply::Done, Standing::Over),
    }
}

/// Carries out what a line asks for, with the line's payload.
pub fn carry_out<R: Wait, S: Service>(
    rt: &R,
    standing: Standing,
    request: Request,
    payload: &[u8],
    service: &mut S,
) -> Answered
    requires suits { Suits standing request payload.now }
    requires client { S.has_client service.old ≡ is_client standing }
    ensures came { Came standing request payload.now (ledger (S.kept service.old) (S.refusals service.old)) (ledger (S.kept service.new) (S.refusals service.new)) result.text.bytes result.after }
    ensures client { S.has_client service.new ≡ is_client result.after }
    ensures later { S.refusals service.old ≤ S.refusals service.new }
{
    match request {
        Request::Hello => greet(rt, standing, service),
        Request::Watch => replied(&Reply::Done, Standing::Console),
        Request::Ask { command } => ask(rt, command, payload, standing, service),
        Request::Unconnected => replied(&Reply::Refused(Refusal::NotConnected), standing),
        Request::Misread { place } => replied(&Reply::Refused(Refusal::Syntax { place }), standing),
        Request::Feed { input } => feed(rt, input, standing, service),
        Request::Tick => tick(rt, standing, service),
        Request::Bye => leave(rt, standing, service),
    }
}

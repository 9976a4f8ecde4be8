//! Reading a session's line.
ghost use Rattle.std.specs.Prelude.{◌≡◌, ◌≤◌, length};
ghost use Rattle.cmd_words.specs.Language.{word};
ghost use Rattle.script_lines.specs.Sayings.{command_limit};
ghost use Rattle.wire_link.specs.declared.standing.Standing.TheVariants.{Before, Client, Console};
ghost use Rattle.wire_link.specs.Table.{asks};
ghost use Rattle.wire_link.specs.Session.{IsOpen};
ghost use Rattle.wire_link.specs.Carrying.{input_in};

use crate::request::Request;
use crate::standing::Standing;
use cmd_text::{Input, parse};
use script_lines::{Order, line_order};

/// What a line asks for before the session's `hello`.
fn greeting(line: &[u8]) -> Request
    requires short { length line.now ≤ command_limit }
    requires no_bye { word "bye" line.now → ⊥ }
    ensures { asks Before line.now result }
{
    if line == b"hello".as_slice() {
        return Request::Hello;
    }
    if line == b"hello console".as_slice() {
        return Request::Watch;
    }
    match parse(line) {
        Ok(_) => Request::Unconnected,
        Err(bad) => Request::Misread { place: bad.place },
    }
}

/// What a client's line asks for.
fn command(line: &[u8]) -> Request
    requires short { length line.now ≤ command_limit }
    requires no_bye { word "bye" line.now → ⊥ }
    ensures { asks Client line.now result }
{
    match parse(line) {
        Ok(command) => Request::Ask { command },
        Err(bad) => Request::Misread { place: bad.place },
    }
}

/// The input that a line asks for, where it asks for one.
fn input_in(order: &Option<Order>) -> Option<Input>
    ensures { result ≡ input_in order.now }
{
    match order {
        Some(Order::Feed { input }) => Some(*input),
        Some(
            Order::Nothing
            | Order::Connect { .. }
            | Order::Bye { .. }
            | Order::Ask { .. }
            | Order::Misread { .. }
            | Order::Ticks { .. }
            | Order::Dirty
            | Order::Pixel { .. }
            | Order::Dump,
        )
        | None => None,
    }
}

/// What a console's line asks for that is no tick.
fn watched(line: &[u8]) -> Request
    requires no_bye { word "bye" line.now → ⊥ }
    requires no_tick { word "tick" line.now → ⊥ }
    ensures { asks Console line.now result }
{
    match input_in(&line_order(line)) {
        Some(input) => Request::Feed { input },
        None => Request::Misread { place: 0 },
    }
}

/// What a console's line asks for.
fn watching(line: &[u8]) -> Request
    requires no_bye { word "bye" line.now → ⊥ }
    ensures { asks Console line.now result }
{
    if line == b"tick".as_slice() {
        return Request::Tick;
    }
    watched(line)
}

/// What a session's line asks for, in the session's state. The table is in docs/MACHINE.md, "The lines of a connection".
pub fn request(standing: Standing, line: &[u8]) -> Request
    requires still { IsOpen standing }
    requires short { length line.now ≤ command_limit }
    ensures { asks standing line.now result }
{
    if line == b"bye".as_slice() {
        return Request::Bye;
    }
    match standing {
        Standing::Before => greeting(line),
        Standing::Client => command(line),
        Standing::Console => watching(line),
        Standing::Over => Request::Bye,
    }
}

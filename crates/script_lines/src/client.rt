//! The lines in which clients say something.
ghost use Rattle.std.specs.Prelude.{◌≡◌, ◌≤◌, length, Some, IfSome, option_map};
ghost use Rattle.cmd_words.specs.Grammar.{command_line};
ghost use Rattle.cmd_text.specs.Misread.{IsMisread};
ghost use Rattle.script_lines.specs.declared.order.Order.{Order};
ghost use Rattle.script_lines.specs.Numbers.{IsClient};
ghost use Rattle.script_lines.specs.Sayings.{command_limit};
ghost use Rattle.script_lines.specs.Lines.{asks};
ghost use Rattle.script_lines.specs.Reading.{said_at};
ghost use Rattle.script_lines.specs.Saying.{IsSaying, saying};

use crate::digits::client_at;
use crate::order::Order;
use crate::parts::parted;
use crate::payload::payload_size;
use cmd_text::{Command, is_frame_line, parse};

/// How many bytes a client's command has at most.
const COMMAND_LIMIT: usize = 512;

/// How many bytes come with a client's command at most.
const FRAME_LIMIT: u32 = 65536;

/// The client, and what it says.
#[tactic(auto, unfolding(crate::specs::Reading::said_at))]
fn said_at(line: &[u8]) -> Option<(u32, &[u8])>
    ensures said { option_map (λ parts. (parts.0, parts.1.now)) result ≡ said_at line.now }
    ensures within { IfSome result (λ parts. IsClient parts.0) }
{
    let (digits, said) = parted(line)?;
    let client = client_at(digits)?;
    Some((client, said))
}

/// What the client asks for by what it says, which is a command: the command, where not too many bytes come with it.
fn asked(client: u32, said: &[u8], command: Command) -> Option<Order>
    requires short { length said.now ≤ command_limit }
    requires stands { command_line said.now command }
    ensures found { IfSome result (saying client said.now) }
    ensures all { (order : Order) → saying client said.now order → result ≡ Some order }
{
    if payload_size(&command) > FRAME_LIMIT {
        return None;
    }
    Some(Order::Ask { client, command })
}

/// What the client asks for by what it says, which is no command: it is misread there, where it is no frame line.
fn misread(client: u32, said: &[u8], place: u32) -> Option<Order>
    requires short { length said.now ≤ command_limit }
    requires misread { IsMisread said.now place }
    ensures found { IfSome result (saying client said.now) }
    ensures all { (order : Order) → saying client said.now order → result ≡ Some order }
{
    if is_frame_line(said) {
        return None;
    }
    Some(Order::Misread { client, place })
}

/// What the client asks for by what it says.
fn command_order(client: u32, said: &[u8]) -> Option<Order>
    ensures found { IfSome result (saying client said.now) }
    ensures all { (order : Order) → saying client said.now order → result ≡ Some order }
{
    if said.len() > COMMAND_LIMIT {
        return None;
    }
    match parse(said) {
        Ok(command) => asked(client, said, command),
        Err(bad) => misread(client, said, bad.place),
    }
}

/// What a line asks for in which a client says something.
pub(crate) fn said_order(line: &[u8]) -> Option<Order>
    ensures found { IfSome result (asks line.now) }
    ensures all { (order : Order) → IsSaying order → asks line.now order → result ≡ Some order }
{
    match said_at(line) {
        Some((client, said)) => command_order(client, said),
        None => None,
    }
}

//! How many raw bytes follow a line.
ghost use Rattle.std.specs.Prelude.{◌≡◌};
ghost use Rattle.desk_model.specs.Commands.{payload_size};
ghost use Rattle.script_lines.specs.Payloads.{payload_of};

use crate::order::Order;
use cmd_text::Command;

/// How many bytes come with the command: with `frame` as many as it says, with any other none.
/// See docs/GUIDE.md, "Frame lines".
pub fn payload_size(command: &Command) -> u32
    ensures { result ≡ payload_size command.now }
{
    match command {
        Command::SendFrame { name: _, size } => *size,
        Command::New { .. }
        | Command::Set { .. }
        | Command::Get { .. }
        | Command::Place { .. }
        | Command::Lift { .. }
        | Command::ColumnConfig { .. }
        | Command::RowConfig { .. }
        | Command::Link { .. }
        | Command::Unlink { .. }
        | Command::Bind { .. }
        | Command::Unbind { .. }
        | Command::OpenWindow { .. }
        | Command::CloseWindow { .. }
        | Command::TopWindow { .. }
        | Command::Mode { .. }
        | Command::Admit { .. }
        | Command::Leave { .. }
        | Command::DropWidget { .. }
        | Command::Poll => 0,
    }
}

/// How many raw bytes follow the line that asks for this, right behind its line feed: those that come with its
/// command, at most 65,536 where a line asks for it. See docs/GUIDE.md, "The script".
pub fn payload_of(order: &Order) -> u32
    ensures { result ≡ payload_of order.now }
{
    match order {
        Order::Ask { client: _, command } => payload_size(command),
        Order::Nothing
        | Order::Connect { .. }
        | Order::Bye { .. }
        | Order::Misread { .. }
        | Order::Feed { .. }
        | Order::Ticks { .. }
        | Order::Dirty
        | Order::Pixel { .. }
        | Order::Dump => 0,
    }
}

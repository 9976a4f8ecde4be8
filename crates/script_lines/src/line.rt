//! What each line of a script asks for.
ghost use Rattle.std.specs.Prelude.{◌≡◌, Some, IfSome};
ghost use Rattle.script_lines.specs.declared.order.Order.{Order};
ghost use Rattle.script_lines.specs.Lines.{asks};
ghost use Rattle.script_lines.specs.Suits.{Suits};

use crate::client::said_order;
use crate::order::Order;
use crate::plain::plain_order;

/// What a line asks for; None where it is off the script's grammar, so that it asks for nothing that there is.
/// See docs/MACHINE.md, "Scripts", and docs/GUIDE.md, "The script".
pub fn line_order(line: &[u8]) -> Option<Order>
    // What it asks for is what the grammar says.
    ensures order { IfSome result (asks line.now) }

    // What a line asks for on the grammar is found: None comes only off it.
    ensures all { (order : Order) → asks line.now order → result ≡ Some order }

    // Clients, ticks and commands are such as there may be.
    ensures suits { IfSome result Suits }
{
    match plain_order(line) {
        Some(order) => Some(order),
        None => said_order(line),
    }
}

//! Reading the words of a command line.
ghost use Rattle.std.specs.Prelude.{◌≡◌, IfOk, IfErr, MatchResult, map, string_bytes, [], true, Some};
ghost use Rattle.std.specs.List.{list_all};
ghost use Rattle.clap.specs.Words.{fault_of};
ghost use Rattle.command_line.specs.declared.order.Order.{Order};
ghost use Rattle.command_line.specs.Program.{AreTaken, program};
ghost use Rattle.command_line.specs.Matched.{Called, called};
ghost use Rattle.command_line.specs.Orders.{IsOrder};
ghost use Rattle.command_line.specs.Law.{Orders, Spells, SpellsPlainly};
ghost use Rattle.command_line.specs.Fit.{is_fit};
ghost use Rattle.command_line.specs.Rows.{verb_of};
ghost use Rattle.command_line.specs.Values.{call_of};

use crate::matched::{Matched, matched_in, matches_of};
use crate::order::{Order, order_of};
use crate::table::{CommandRow, commands};
use crate::unread::Unread;
use std::alloc::Global;

/// The command and the numbers that `clap`'s matches of these words have.
fn matched<'a>(alloc: Global, rows: &[CommandRow], words: &'a [String]) -> Result<Matched, Unread>
    requires fit { list_all is_fit (map verb_of rows.now) ≡ true }
    ensures ok { IfOk result (λ m. called (map verb_of rows.now) (map string_bytes words.entry.now) ≡ Some (call_of m)) }
    ensures faultless { IfOk result (λ _. fault_of (program (map verb_of rows.now)) (map string_bytes words.entry.now) ≡ []) }
    ensures err { IfErr result (λ e. AreTaken (map verb_of rows.now) (map string_bytes words.entry.now)
        → (call : Called) → called (map verb_of rows.now) (map string_bytes words.entry.now) ≡ Some call → e ≡ Unread.NoMemory) }
{
    let matches = match matches_of(alloc, rows, words) {
        Ok(matches) => matches,
        Err(error) => return Err(error),
    };
    match matched_in(rows, &matches) {
        Some(found) => Ok(found),
        None => Err(Unread::Usage),
    }
}

/// Reads the words of a command line, without the program's name, by the program's `clap` command (`command`). The
/// numbers of the order are those of `clap`'s matches. See docs/GUIDE.md, "The words".
///
/// - `Usage` comes only where `clap` doesn't take the words, an option's value isn't 1 to 7 digits of a number in its
///   range, or the spare is above the budget. So it never comes for a command with each of its options once, in any
///   order, each with such a number, and a spare of at most the budget.
/// - `NoMemory` may come at any words.
pub fn read(alloc: Global, words: &[String]) -> Result<Order, Unread>
    // The plain form is read as its order.
    ensures plain { (order : Order) → SpellsPlainly (map string_bytes words.now) order
        → MatchResult result (λ o. o ≡ order) (λ e. e ≡ Unread.NoMemory) }

    // So is a command with its options in any other order.
    ensures spelled { (order : Order) → Spells (map string_bytes words.now) order
        → MatchResult result (λ o. o ≡ order) (λ e. e ≡ Unread.NoMemory) }

    // What is read is what the words order: `clap` takes them, and its matches say so.
    ensures ordered { IfOk result (Orders (map string_bytes words.now)) }

    // Each number is in its range.
    ensures within { IfOk result IsOrder }

    // Words are refused only where they order nothing: `clap` doesn't take them, or its matches are no order.
    ensures usage { IfErr result (λ e. e ≡ Unread.Usage → (order : Order) → ¬ Orders (map string_bytes words.now) order) }
{
    let rows = commands();
    let found = match matched(alloc, rows.as_slice(), words) {
        Ok(found) => found,
        Err(error) => return Err(error),
    };
    match order_of(&found) {
        Some(order) => Ok(order),
        None => Err(Unread::Usage),
    }
}

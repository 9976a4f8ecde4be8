//! What `clap`'s matches of a command line say.
ghost use Rattle.std.specs.Prelude.{◌≡◌, ◌≤◌, IfOk, IfErr, map, option_and_then, option_map, string_bytes, length, [], true};
ghost use Rattle.std.specs.List.{list_all};
ghost use Rattle.clap.specs.Words.{HasMatchesOf, fault_of, first_value, found_of, subcommand_rows_of};
ghost use Rattle.command_line.specs.Table.{verb_named};
ghost use Rattle.command_line.specs.Program.{AreTaken, program};
ghost use Rattle.command_line.specs.Matched.{called_in, numbers_from};
ghost use Rattle.command_line.specs.Fit.{is_fit};
ghost use Rattle.command_line.specs.Rows.{ranged_of, verb_of};
ghost use Rattle.command_line.specs.Values.{call_of};

use crate::building::command_of;
use crate::numbers::number_read;
use crate::table::{CommandRow, NumberOption};
use crate::unread::Unread;
use arrayvec::ArrayVec;
use clap::ArgMatches;
use clap::error::ErrorKind;
use std::alloc::Global;

/// A command of the table, with the numbers of its options in the table's order.
#[derive(Drop)]
pub(crate) struct Matched {
    pub(crate) name: &'static str,
    pub(crate) numbers: ArrayVec<u32, 8>,
}

/// The matches of the words, where the command of these rows takes them.
pub(crate) fn matches_of<'a>(
    alloc: Global,
    rows: &[CommandRow],
    words: &'a [String],
) -> Result<ArgMatches<'a>, Unread>
    ensures ok { IfOk result (HasMatchesOf (program (map verb_of rows.now)) (map string_bytes words.entry.now)) }
    ensures faultless { IfOk result (λ _. fault_of (program (map verb_of rows.now)) (map string_bytes words.entry.now) ≡ []) }
    ensures err { IfErr result (λ e. AreTaken (map verb_of rows.now) (map string_bytes words.entry.now) → e ≡ Unread.NoMemory) }
{
    let command = match command_of(alloc, rows) {
        Ok(command) => command,
        Err(_) => return Err(Unread::NoMemory),
    };
    match command.try_get_matches_from(words) {
        Ok(matches) => Ok(matches),
        Err(error) => match error.kind() {
            ErrorKind::OutOfMemory => Err(Unread::NoMemory),
            _ => Err(Unread::Usage),
        },
    }
}

/// The numbers that the matches have for the options; None where one isn't a number in its range.
fn numbers_of(options: &[NumberOption], matches: &ArgMatches) -> Option<ArrayVec<u32, 8>>
    requires few { length options.now ≤ 8 }
    ensures { option_map (λ v. v.items) result ≡ numbers_from (first_value (found_of matches.now)) (map ranged_of options.now) }
{
    let mut numbers = ArrayVec::new();
    for option in options {
        let word = match matches.get_str(option.name) {
            Some(word) => word,
            None => return None,
        };
        let number = match number_read(option.least, option.greatest, word.as_bytes()) {
            Some(number) => number,
            None => return None,
        };
        numbers.push(number);
    }
    Some(numbers)
}

/// The first of the rows that has this name.
fn row_named(rows: &[CommandRow], name: &str) -> Option<CommandRow>
    ensures { option_map verb_of result ≡ verb_named (map verb_of rows.now) name.now }
{
    for row in rows {
        if row.name == name {
            return Some(*row);
        }
    }
    None
}

/// The command and the numbers that the matches have.
pub(crate) fn matched_in(rows: &[CommandRow], matches: &ArgMatches) -> Option<Matched>
    requires fit { list_all is_fit (map verb_of rows.now) ≡ true }
    ensures { option_map call_of result ≡ option_and_then (called_in (map verb_of rows.now)) (subcommand_rows_of matches.now) }
{
    let (name, inner) = match matches.subcommand() {
        Some(met) => met,
        None => return None,
    };
    let row = match row_named(rows, name) {
        Some(row) => row,
        None => return None,
    };
    let numbers = match numbers_of(row.options, inner) {
        Some(numbers) => numbers,
        None => return None,
    };
    Some(Matched {
        name: row.name,
        numbers,
    })
}

//! The `clap` command of the table.
ghost use Rattle.std.specs.Prelude.{◌≡◌, IfOk, false, map};
ghost use Rattle.clap.specs.Words.{app_of, with_rule};
ghost use Rattle.clap.specs.declared.builder.command.Command.TheViews.{out-Command as fields_of};
ghost use Rattle.command_line.specs.Table.{dope_verbs};
ghost use Rattle.command_line.specs.Program.{option_rule, program};
ghost use Rattle.command_line.specs.Rows.{verb_of};
ghost use Rattle.command_line.specs.Apps.{top_app, verb_app};

use crate::table::{CommandRow, commands};
use clap::{Arg, Command};
use std::alloc::{AllocError, Global};

/// The command with one option more. It is required, and has one value, which is taken as text.
fn with_option<'a>(
    alloc: Global,
    command: Command<'a>,
    name: &'a str,
) -> Result<Command<'a>, AllocError>
    ensures app { IfOk result (λ r. app_of r ≡ with_rule (app_of command.entry) (option_rule name.entry.now)) }
    ensures local { IfOk result (λ r. (fields_of r).has_globals ≡ (fields_of command.entry).has_globals) }
{
    let named = Arg::new(alloc, name);
    let long = named.long(name);
    let required = long.required(true);
    command.arg(required)
}

/// The subcommand of a row.
fn verb_command<'a>(alloc: Global, row: CommandRow) -> Result<Command<'a>, AllocError>
    ensures app { IfOk result (λ r. app_of r ≡ verb_app (verb_of row)) }
    ensures local { IfOk result (λ r. (fields_of r).has_globals ≡ false) }
{
    let mut command = Command::new(alloc, row.name);
    for option in row.options {
        command = with_option(alloc, command, option.name)?;
    }
    Ok(command)
}

/// The command `dope` without its subcommands, of which it needs one. It has no words for help.
fn top_command<'a>(alloc: Global) -> Command<'a>
    ensures { app_of result ≡ top_app }
{
    let new = Command::new(alloc, "dope");
    let words = new.no_binary_name(true);
    let no_flag = words.disable_help_flag(true);
    let no_help = no_flag.disable_help_subcommand(true);
    no_help.subcommand_required(true)
}

/// The command `dope` with a subcommand for each row.
pub(crate) fn command_of<'a>(alloc: Global, rows: &[CommandRow]) -> Result<Command<'a>, AllocError>
    ensures { IfOk result (λ r. app_of r ≡ program (map verb_of rows.now)) }
{
    let mut command = top_command(alloc);
    for row in rows {
        let subcommand = verb_command(alloc, *row)?;
        command = command.subcommand(subcommand)?;
    }
    Ok(command)
}

/// The program's `clap` command: `dope` with a subcommand for each command of the table, one of them required, each
/// with exactly its options. All options are required, and the value of each is taken as text. There is no memory for
/// it at an `AllocError`.
pub fn command<'a>(alloc: Global) -> Result<Command<'a>, AllocError>
    ensures { IfOk result (λ r. app_of r ≡ program dope_verbs) }
{
    let rows = commands();
    command_of(alloc, rows.as_slice())
}

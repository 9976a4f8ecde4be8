//! The command of a line, or its place.
ghost use Rattle.std.specs.Prelude.{◌≡◌, ◌≤◌, length, Ok, IfOk, IfErr};
ghost use Rattle.cmd_words.specs.Grammar.{command_line, IsPlace};
ghost use Rattle.cmd_words.specs.declared.commands.Command.{Command};

use crate::parsing::read_line;
use cmd_words::Command;
use thiserror::Error;

/// A line that is no command.
#[derive(Clone, Copy, Debug, Drop, PartialEq, Eq, Error)]
#[error("no command: stuck after {place} bytes")]
pub struct BadLine {
    /// How many bytes its longest front has that begins some line of the grammar.
    pub place: u32,
}

/// The command that a line stands for (docs/GUIDE.md, "Grammar"). A line off the grammar is refused with
/// its place: how many bytes its longest front has with which some line of the grammar begins.
pub fn parse(line: &[u8]) -> Result<Command, BadLine>
    requires { length line.now ≤ 512 }

    // What is read is on the grammar.
    ensures found { IfOk result (λ c. command_line line.now c) }

    // What is on the grammar is read, as the command that it stands for.
    ensures all { (c : Command) → command_line line.now c → result ≡ Ok c }

    // What is off it is refused with its place.
    ensures place { IfErr result (λ bad. IsPlace line.now bad.place) }
{
    match read_line(line) {
        Ok(command) => Ok(command),
        Err(left) => Err(BadLine {
            place: (line.len() - left) as u32,
        }),
    }
}

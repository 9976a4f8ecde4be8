//! Why words aren't read.

/// Why the words of a command line aren't read.
///
/// - `Usage`: `clap` doesn't take them for the program's command, an option's value isn't 1 to 7 digits of a number in
///   its range, or the spare is above the budget.
/// - `NoMemory`: there was no memory to read them.
#[derive(Clone, Copy, Debug, PartialEq, Eq, Drop)]
pub enum Unread {
    Usage,
    NoMemory,
}

//! Commands that only ask, and so change nothing.

ghost use Rattle.std.specs.Prelude.{◌≡◌, true, false, MatchOption};
ghost use Rattle.widget_model.specs.Widgets.{rows_of};
ghost use Rattle.desk_core.specs.Asking.{only_asks, IsAnswer};

use cmd_words::{Command, Reply};
use desk_commands::get;
use tree_core::Tree;

/// Whether the command only asks: it is `get`. Whatever it is answered, it changes nothing.
pub fn only_asks(command: &Command) -> bool
    ensures { result ≡ only_asks command.now }
{
    match command {
        Command::Get { .. } => true,
        _ => false,
    }
}

/// The answer to a connected client's command that only asks; None where it isn't one.
pub(crate) fn answer_to(tree: &Tree, client: u32, command: &Command) -> Option<Reply>
    ensures { MatchOption result (only_asks command.now ≡ false) (λ reply. IsAnswer (rows_of tree.now) client command.now reply) }
{
    match command {
        Command::Get { name, attr } => Some(get(tree, client, name, *attr).reply),
        _ => None,
    }
}

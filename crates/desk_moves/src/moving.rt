//! Which commands may move a widget.

ghost use Rattle.std.specs.Prelude.{◌≡◌, Some, false};
ghost use Rattle.std.specs.List.{list_any};
ghost use Rattle.std.specs.Option.{option_map, option_map_or};
ghost use Rattle.widget_model.specs.Named.{row_named};
ghost use Rattle.widget_model.specs.Widgets.{IsLive, rows_of, row_at};
ghost use Rattle.desk_model.specs.InPlace.{leaves_hung};
ghost use Rattle.desk_moves.specs.Stays.{value_moves, may_move, moves};

use crate::room::value_moves;
use cmd_words::Command;
use desk_layout::is_window;
use kind_core::{Attr, Name, Value};
use tree_core::{Id, Tree};

/// Whether one of the options moves something when the widget gets its value.
fn any_moves(tree: &Tree, id: Id, options: &[(Attr, Value)]) -> bool
    requires { IsLive tree.now id.key }
    ensures { option_map (λ row. list_any (λ option. value_moves (rows_of tree.now) row option.0 option.1) options.now) (row_at tree.now.entries id.key) ≡ Some result }
{
    for option in options {
        if value_moves(tree, id, option.0, &option.1) {
            return true;
        }
    }
    false
}

/// Whether `n.set(options)` may move a widget.
fn set_moves(tree: &Tree, client: u32, name: &Name, options: &[(Attr, Value)]) -> bool
    ensures { result ≡ option_map_or (λ row. list_any (λ option. value_moves (rows_of tree.now) row option.0 option.1) options.now) (row_named (rows_of tree.now) client name.now) false }
{
    match tree.find(client, name) {
        Some(id) => any_moves(tree, id, options),
        None => false,
    }
}

/// Whether the client's command may move a widget. A refused one changes nothing, whatever this says. See
/// docs/MACHINE.md, "Colours and the picture".
pub fn may_move(tree: &Tree, client: u32, command: &Command) -> bool
    ensures { result ≡ may_move (rows_of tree.now) client command.now }
{
    match command {
        Command::New { kind, .. } => is_window(*kind),
        Command::Set { name, options } => set_moves(tree, client, name, options.as_slice()),
        Command::Get { .. }
        | Command::Bind { .. }
        | Command::Unbind { .. }
        | Command::OpenWindow { .. }
        | Command::CloseWindow { .. }
        | Command::TopWindow { .. }
        | Command::Admit { .. }
        | Command::Leave { .. }
        | Command::SendFrame { .. }
        | Command::DropWidget { .. }
        | Command::Poll => false,
        _ => true,
    }
}

/// Whether the command leaves all widgets where they hang and all windows open as they are.
fn leaves_hung(command: &Command) -> bool
    ensures { result ≡ leaves_hung command.now }
{
    match command {
        Command::New { .. }
        | Command::Place { .. }
        | Command::Lift { .. }
        | Command::OpenWindow { .. }
        | Command::CloseWindow { .. }
        | Command::TopWindow { .. }
        | Command::DropWidget { .. } => false,
        _ => true,
    }
}

/// Whether the client's command, where it is done, may change what is where on the screen. See docs/MACHINE.md,
/// "Colours and the picture".
pub fn moves(tree: &Tree, client: u32, command: &Command) -> bool
    ensures { result ≡ moves (rows_of tree.now) client command.now }
{
    may_move(tree, client, command) || !leaves_hung(command)
}

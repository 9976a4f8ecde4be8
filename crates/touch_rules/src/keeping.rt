//! The looks that a client's command may change, kept before it.
ghost use Rattle.std.specs.Prelude.{◌≡◌, ◌≤◌, ◌+◌, ◌++◌, length, map};
ghost use Rattle.std.specs.Option.{option_map, option_copied};
ghost use Rattle.desk_model.specs.Scope.{named_in};
ghost use Rattle.look_data.specs.Watched.{AreWatched};
ghost use Rattle.scene_core.specs.View.{scene_of};
ghost use Rattle.touch_rules.specs.Telling.{numbers_in, grabbed_number, held_numbers, number_named, command_numbers};
ghost use Rattle.widget_model.specs.Forest.{IsWidgets};

use arrayvec::ArrayVec;
use cmd_words::Command;
use kind_core::Name;
use look_data::WatchedLooks;
use scene_core::View;
use tree_core::{Grab, Id, Pointer, Tree};

/// Puts the number last, where there is one.
fn put(watched: &mut ArrayVec<Id, 3>, id: Option<Id>)
    requires room { length watched.old.items ≤ 2 }
    ensures numbers { map (λ one. one.key) watched.new.items ≡ map (λ one. one.key) watched.old.items ++ numbers_in (option_map (λ one. one.key) id) }
    ensures few { length watched.new.items ≤ length watched.old.items + 1 }
{
    match id {
        Some(id) => watched.push(id),
        None => {}
    }
}

/// The widget that is grabbed.
fn grabbed(grab: &Grab) -> Option<Id>
    ensures { option_map (λ id. id.key) result ≡ grabbed_number grab.now }
{
    match grab {
        Grab::Nothing => None,
        Grab::Widget { id } => Some(*id),
        Grab::Drag { id, dx: _, dy: _ } => Some(*id),
    }
}

/// The widget that a command names, and what the pointer holds: at most 3.
fn watched_of(pointer: &Pointer, named: Option<Id>) -> ArrayVec<Id, 3>
    ensures numbers { map (λ id. id.key) result.items ≡ numbers_in (option_map (λ id. id.key) named) ++ held_numbers pointer.now }
    ensures few { length result.items ≤ 3 }
{
    let mut watched = ArrayVec::new();
    put(&mut watched, named);
    put(&mut watched, grabbed(&pointer.grab));
    put(&mut watched, pointer.focus);
    watched
}

/// The name of the one widget that the command may change.
fn named_in(command: &Command) -> Option<&Name>
    ensures { option_copied result ≡ named_in command.now }
{
    match command {
        Command::New { name, kind: _ } => Some(name),
        Command::Set { name, options: _ } => Some(name),
        Command::Place {
            parent: _,
            child,
            options: _,
        } => Some(child),
        Command::Lift { parent: _, child } => Some(child),
        Command::ColumnConfig {
            name,
            index: _,
            options: _,
        } => Some(name),
        Command::RowConfig {
            name,
            index: _,
            options: _,
        } => Some(name),
        Command::Link { name, variable: _ } => Some(name),
        Command::Unlink { name } => Some(name),
        Command::Bind {
            name,
            event: _,
            tag: _,
        } => Some(name),
        Command::Unbind { name, event: _ } => Some(name),
        Command::Mode { name, w: _, h: _ } => Some(name),
        Command::Admit { name, period: _ } => Some(name),
        Command::Leave { name } => Some(name),
        Command::SendFrame { name, size: _ } => Some(name),
        Command::DropWidget { name } => Some(name),
        _ => None,
    }
}

/// The widget that the client's command may change, where it is there already.
fn number_named(tree: &Tree, client: u32, command: &Command) -> Option<Id>
    ensures { option_map (λ id. id.key) result ≡ number_named tree.now client command.now }
{
    match named_in(command) {
        Some(name) => tree.find(client, name),
        None => None,
    }
}

/// The looks before the client's command that it may change: those of the widget that it names, of what is linked to that
/// one, and of what the pointer holds. See docs/MACHINE.md, "The reach of a change".
pub fn keep_before(view: &View<'_>, client: u32, command: &Command) -> WatchedLooks
    requires widgets { IsWidgets view.now.tree.now }
    ensures { AreWatched (command_numbers view.now.tree.now client command.now view.now.pointer.now) (number_named view.now.tree.now client command.now) view.now.tree.now view.now.stack.now (scene_of view.now) result }
{
    let named = number_named(view.tree, client, command);
    let watched = watched_of(view.pointer, named);
    WatchedLooks::keep(view, &watched, named)
}

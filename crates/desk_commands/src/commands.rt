//! Which command is answered by which function.

ghost use Rattle.std.specs.Prelude.{◌≡◌, true, false};
ghost use Rattle.std.specs.List.{list_all};
ghost use Rattle.widget_model.specs.Fitting.{fits_rules};
ghost use Rattle.widget_model.specs.Widgets.{rows_of};
ghost use Rattle.widget_model.specs.Clients.{is_joined};
ghost use Rattle.desk_model.specs.Commands.{IsPayload, row_of};
ghost use Rattle.desk_commands.specs.Parts.{AreParts, ListsAdmitted};
ghost use Rattle.desk_model.specs.Refusals.{is_memory};
ghost use Rattle.desk_commands.specs.Effects.{is_poll, DidWhole, TellsAll};

use crate::admission::{admit, leave};
use crate::answer::Answer;
use crate::bindings::bind;
use crate::links::{link, unlink};
use crate::placement::{lift, place};
use crate::screens::{set_mode, take_frame};
use crate::tracks::rule_track;
use crate::widgets::{drop_widget, get, make, set};
use crate::windows::{close_window, open_window, top_window};
use admit_core::Roster;
use cmd_words::Command;
use scene_model::Axis;
use stack_core::Stack;
use std::alloc::Global;
use tree_core::Tree;

/// Whether the command is `poll`, which asks for a kept event and touches nothing else.
pub fn is_poll(command: &Command) -> bool
    ensures { result ≡ is_poll command.now }
{
    matches!(command, Command::Poll)
}

/// Carries out a connected client's command, any but `poll`, on the tree, the order of the open windows and the roster,
/// and answers it: a Number or Words where it is `get`, else Done. `payload` has the bytes that come with it. Each
/// command has its own refusals, and the first that holds is the answer. The kept places of the widgets that are left
/// stay. See docs/MACHINE.md, "Commands".
pub fn obey(
    alloc: Global,
    tree: &mut Tree,
    windows: &mut Stack,
    roster: &mut Roster,
    client: u32,
    command: &Command,
    payload: &[u8],
) -> Answer
    requires parts { AreParts tree.old.clients tree.old windows.old }
    requires listed { ListsAdmitted tree.old.entries roster.old }
    requires fits { list_all fits_rules (rows_of tree.old) ≡ true }
    requires connected { is_joined tree.old.clients client ≡ true }
    requires payload { IsPayload command.now payload.now }
    requires other { is_poll command.now ≡ false }
    ensures tells { TellsAll tree.old tree.new windows.old windows.new result.changed }
    ensures did { DidWhole (λ desk. row_of command.now payload.now desk client (is_memory result.reply)) tree.old tree.new windows.old windows.new roster.old roster.new result.reply }
{
    match command {
        Command::New { name, kind } => make(tree, client, name, *kind),
        Command::Set { name, options } => set(tree, client, name, options.as_slice()),
        Command::Get { name, attr } => get(tree, client, name, *attr),
        Command::Place {
            parent,
            child,
            options,
        } => place(tree, client, parent, child, options.as_slice()),
        Command::Lift { parent, child } => lift(tree, client, parent, child),
        Command::ColumnConfig {
            name,
            index,
            options,
        } => rule_track(tree, Axis::Across, client, name, *index, options.as_slice()),
        Command::RowConfig {
            name,
            index,
            options,
        } => rule_track(tree, Axis::Down, client, name, *index, options.as_slice()),
        Command::Link { name, variable } => link(tree, client, name, variable),
        Command::Unlink { name } => unlink(tree, client, name),
        Command::Bind { name, event, tag } => bind(tree, client, name, *event, Some(*tag)),
        Command::Unbind { name, event } => bind(tree, client, name, *event, None),
        Command::OpenWindow { name } => open_window(tree, windows, client, name),
        Command::CloseWindow { name } => close_window(tree, windows, client, name),
        Command::TopWindow { name } => top_window(tree, windows, client, name),
        Command::DropWidget { name } => drop_widget(tree, windows, client, name),
        Command::Mode { name, w, h } => set_mode(alloc, tree, client, name, *w, *h),
        Command::Admit { name, period } => admit(tree, roster, client, name, *period),
        Command::Leave { name } => leave(tree, roster, client, name),
        Command::SendFrame { name, .. } => take_frame(tree, client, name, payload),
        Command::Poll => unreachable!(),
    }
}

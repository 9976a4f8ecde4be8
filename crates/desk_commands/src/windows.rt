//! The commands that open, close and raise a window.

ghost use Rattle.std.specs.Prelude.{◌≡◌, ◌↔◌, IsTrue, Some, true, false, MatchOption, slice_get};
ghost use Rattle.std.specs.List.{list_all, filter};
ghost use Rattle.stack_core.specs.Stack.{holds_key, IsStack};
ghost use Rattle.desk_model.specs.Windows.{step_open, step_close, step_top};
ghost use Rattle.widget_model.specs.Widgets.{IsLive, row_at, nodes};
ghost use Rattle.desk_commands.specs.Parts.{AreParts, names_window, is_others};
ghost use Rattle.desk_commands.specs.Effects.{DidAll, TellsAll};

use crate::answer::Answer;
use crate::lookup::find_kind;
use cmd_words::Refusal;
use kind_core::{Attr, Kind, Name, Value};
use stack_core::Stack;
use tree_core::{Id, Tree};

/// `w.open()`
pub(crate) fn open_window(tree: &Tree, windows: &mut Stack, client: u32, name: &Name) -> Answer
    requires { AreParts tree.now.clients tree.now windows.old }
    ensures tells { TellsAll tree.now tree.now windows.old windows.new result.changed }
    ensures did { DidAll (λ desk. step_open desk client name.now) tree.now tree.now windows.old windows.new result.reply }
{
    let id = match find_kind(tree, client, name, Kind::Window) {
        Ok(id) => id,
        Err(refusal) => return Answer::refused(refusal),
    };
    if windows.holds(id.key) {
        return Answer::refused(Refusal::AlreadyOpen);
    }
    match windows.push_top(id.key) {
        Ok(()) => Answer::done(true),
        Err(_) => unreachable!(),
    }
}

/// `w.close()`
pub(crate) fn close_window(tree: &Tree, windows: &mut Stack, client: u32, name: &Name) -> Answer
    requires { AreParts tree.now.clients tree.now windows.old }
    ensures tells { TellsAll tree.now tree.now windows.old windows.new result.changed }
    ensures did { DidAll (λ desk. step_close desk client name.now) tree.now tree.now windows.old windows.new result.reply }
{
    let id = match find_kind(tree, client, name, Kind::Window) {
        Ok(id) => id,
        Err(refusal) => return Answer::refused(refusal),
    };
    if !windows.remove(id.key) {
        return Answer::refused(Refusal::NotOpen);
    }
    Answer::done(true)
}

/// `w.top()`
pub(crate) fn top_window(tree: &Tree, windows: &mut Stack, client: u32, name: &Name) -> Answer
    requires { AreParts tree.now.clients tree.now windows.old }
    ensures tells { TellsAll tree.now tree.now windows.old windows.new result.changed }
    ensures did { DidAll (λ desk. step_top desk client name.now) tree.now tree.now windows.old windows.new result.reply }
{
    let id = match find_kind(tree, client, name, Kind::Window) {
        Ok(id) => id,
        Err(refusal) => return Answer::refused(refusal),
    };
    let on_top = is_on_top(windows, id.key);
    if !windows.raise(id.key) {
        return Answer::refused(Refusal::NotOpen);
    }
    Answer::done(!on_top)
}

/// Whether the window with that number is the top one.
fn is_on_top(windows: &Stack, key: u32) -> bool
    ensures { IsTrue result ↔ (slice_get windows.now 0 ≡ Some key) }
{
    windows.at(0) == Some(key)
}

/// An open window of the client.
fn window_of(tree: &Tree, windows: &Stack, client: u32) -> Option<u32>
    requires { list_all (names_window (nodes tree.now.entries)) windows.now ≡ true }
    ensures { MatchOption result (list_all (is_others (nodes tree.now.entries) client) windows.now ≡ true)
        (λ key. (holds_key windows.now key ≡ true) × (is_others (nodes tree.now.entries) client key ≡ false)) }
{
    for i in 0..windows.len() {
        match windows.at(i) {
            Some(key) => {
                if tree.owner(Id { key }) == client {
                    return Some(key);
                }
            }
            None => {}
        }
    }
    None
}

/// Closes the client's windows. The others keep their order. See docs/MACHINE.md, "Windows".
pub fn close_windows(tree: &Tree, windows: &mut Stack, client: u32)
    requires { AreParts tree.now.clients tree.now windows.old }
    ensures closed { windows.new ≡ filter (is_others (nodes tree.now.entries) client) windows.old }
    ensures valid { IsStack windows.new }
{
    while let Some(key) = window_of(tree, windows, client) {
        windows.remove(key);
    }
}

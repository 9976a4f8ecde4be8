//! What a key does.

ghost use Rattle.std.specs.Prelude.{◌≡◌};
ghost use Rattle.widget_model.specs.Widgets.{IsLive, rows_of};
ghost use Rattle.widget_model.specs.Forest.{IsWidgets};
ghost use Rattle.desk_model.specs.InputTable.{key_on_entry, key_on, on_key};
ghost use Rattle.tree_core.specs.Holds.{pointer_seen};
ghost use Rattle.input_core.specs.Numbered.{numbered};
ghost use Rattle.input_core.specs.Seen.{effects_seen};
ghost use Rattle.input_core.specs.Live.{AreLive, HoldsLive};

use crate::edits::edit_of;
use crate::effects::{Effects, only_pointer};
use crate::posts::Posts;
use crate::reading::{caret, kind, posted, text};
use kind_core::{EventKind, Kind};
use tree_core::{Id, Pointer, Tree};

/// A key's byte edits an Entry.
#[tactic(auto, unfolding(desk_model::specs::InputTable::key_on_entry))]
fn key_on_entry(tree: &Tree, id: Id, pointer: Pointer, byte: u8) -> Effects
    requires live { IsLive tree.now id.key }
    requires holds { HoldsLive tree.now pointer }
    ensures seen { effects_seen tree.now.entries result ≡ key_on_entry (pointer_seen tree.now.entries pointer) byte (numbered tree.now.entries id.key) }
    ensures live { AreLive tree.now result }
{
    let mut effects = only_pointer(pointer);
    let old = text(tree, id);
    let key = posted(tree, id, EventKind::Key, i32::from(byte), 0);
    let edit = match edit_of(byte, &old, caret(tree, id, &old)) {
        Some(edit) => edit,
        None => {
            effects.posts = Posts::of(key, None);
            return effects;
        }
    };
    effects.caret = Some((id, edit.caret as i32));
    let text = match edit.text {
        Some(text) => text,
        None => {
            effects.posts = Posts::of(key, None);
            return effects;
        }
    };
    let length = text.as_slice().len() as i32;
    effects.text = Some((id, text));
    effects.posts = Posts::of(key, posted(tree, id, EventKind::Change, length, 0));
    effects
}

/// A key's byte goes to the widget with the focus.
#[tactic(auto, unfolding(desk_model::specs::InputTable::key_on))]
fn key_on(tree: &Tree, id: Id, pointer: Pointer, byte: u8) -> Effects
    requires live { IsLive tree.now id.key }
    requires holds { HoldsLive tree.now pointer }
    ensures seen { effects_seen tree.now.entries result ≡ key_on (numbered tree.now.entries id.key).kind (pointer_seen tree.now.entries pointer) byte (numbered tree.now.entries id.key) }
    ensures live { AreLive tree.now result }
{
    match kind(tree, id) {
        Kind::Entry => key_on_entry(tree, id, pointer, byte),
        Kind::VScreen => {
            let mut effects = only_pointer(pointer);
            effects.posts = Posts::of(posted(tree, id, EventKind::Key, i32::from(byte), 0), None);
            effects
        }
        _ => only_pointer(pointer),
    }
}

/// A key gives its byte.
#[tactic(auto, unfolding(desk_model::specs::InputTable::on_key))]
pub(crate) fn on_key(tree: &Tree, pointer: &Pointer, byte: u8) -> Effects
    requires widgets { IsWidgets tree.now }
    requires holds { HoldsLive tree.now pointer.now }
    ensures seen { effects_seen tree.now.entries result ≡ on_key (rows_of tree.now) (pointer_seen tree.now.entries pointer.now) byte }
    ensures live { AreLive tree.now result }
{
    match pointer.focus {
        Some(id) => key_on(tree, id, *pointer, byte),
        None => only_pointer(*pointer),
    }
}

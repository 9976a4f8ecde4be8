//! The looks that are kept around an input: those of the widgets that it may change.

ghost use Rattle.std.specs.Prelude.{◌≡◌, ◌≤◌, ◌+◌, ◌++◌, length, map};
ghost use Rattle.std.specs.Option.{option_map};
ghost use Rattle.look_data.specs.Watched.{AreWatched};
ghost use Rattle.scene_core.specs.View.{scene_of};
ghost use Rattle.touch_rules.specs.Telling.{numbers_in, grabbed_number, held_numbers};
ghost use Rattle.widget_model.specs.Forest.{IsWidgets};
ghost use Rattle.desk_core.specs.Watching.{given_numbers, effects_numbers, value_number};

use crate::asked::{moved, numbered, written};
use arrayvec::ArrayVec;
use input_core::Effects;
use look_data::WatchedLooks;
use scene_core::View;
use tree_core::{Grab, Id, Pointer};

/// The grabbed widget.
fn grabbed(grab: Grab) -> Option<Id>
    ensures { option_map (λ id. id.key) result ≡ grabbed_number grab }
{
    match grab {
        Grab::Nothing => None,
        Grab::Widget { id } => Some(id),
        Grab::Drag { id, dx: _, dy: _ } => Some(id),
    }
}

/// Watches one widget more, where there is one.
fn watch(watched: &mut ArrayVec<Id, 8>, named: Option<Id>)
    requires room { length watched.old.items ≤ 7 }
    ensures more { map (λ id. id.key) watched.new.items ≡ map (λ id. id.key) watched.old.items ++ numbers_in (option_map (λ id. id.key) named) }
    ensures few { length watched.new.items ≤ length watched.old.items + 1 }
{
    match named {
        Some(id) => watched.push(id),
        None => {}
    }
}

/// Watches what the pointer holds.
fn watch_held(watched: &mut ArrayVec<Id, 8>, pointer: &Pointer)
    requires room { length watched.old.items ≤ 6 }
    ensures more { map (λ id. id.key) watched.new.items ≡ map (λ id. id.key) watched.old.items ++ held_numbers pointer.now }
    ensures few { length watched.new.items ≤ length watched.old.items + 2 }
{
    watch(watched, grabbed(pointer.grab));
    watch(watched, pointer.focus);
}

/// Watches the widgets that get a value.
fn watch_given(watched: &mut ArrayVec<Id, 8>, effects: &Effects)
    requires room { length watched.old.items ≤ 4 }
    ensures more { map (λ id. id.key) watched.new.items ≡ map (λ id. id.key) watched.old.items ++ given_numbers effects.now }
    ensures few { length watched.new.items ≤ length watched.old.items + 4 }
{
    watch(watched, numbered(effects.value));
    watch(watched, written(effects.text));
    watch(watched, numbered(effects.caret));
    watch(watched, moved(effects.moved));
}

/// The widgets that the input may change: those that get a value, and what the pointer holds before it and after it.
fn watched_by(pointer: &Pointer, effects: &Effects) -> ArrayVec<Id, 8>
    ensures { map (λ id. id.key) result.items ≡ effects_numbers pointer.now effects.now }
{
    let mut watched = ArrayVec::new();
    watch_given(&mut watched, effects);
    watch_held(&mut watched, pointer);
    watch_held(&mut watched, &effects.pointer);
    watched
}

/// The looks before the input that it may change.
pub(crate) fn keep_watched(view: &View<'_>, effects: &Effects) -> WatchedLooks
    requires { IsWidgets view.now.tree.now }
    ensures { AreWatched (effects_numbers view.now.pointer.now effects.now) (value_number effects.now) view.now.tree.now view.now.stack.now (scene_of view.now) result }
{
    let watched = watched_by(view.pointer, effects);
    WatchedLooks::keep(view, watched.as_slice(), numbered(effects.value))
}

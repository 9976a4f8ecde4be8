//! Whether an input moves something.

ghost use Rattle.std.specs.Prelude.{◌≡◌, false, IfSome};
ghost use Rattle.std.specs.Option.{option_map_or};
ghost use Rattle.kind_core.specs.declared.values.Value.TheVariants.{Number};
ghost use Rattle.widget_model.specs.Widgets.{IsLive, rows_of};
ghost use Rattle.widget_model.specs.Keys.{row_of};
ghost use Rattle.input_core.specs.Seen.{key_seen, effects_seen};
ghost use Rattle.input_core.specs.Live.{AreLive};
ghost use Rattle.desk_moves.specs.Stays.{value_moves, effects_move};

use desk_moves::value_moves;
use input_core::Effects;
use kind_core::{Attr, Value};
use tree_core::{Id, Tree};

/// Whether the value that is asked for may move a widget.
fn given_moves(tree: &Tree, asked: Option<(Id, i32)>) -> bool
    requires live { IfSome asked (λ set. IsLive tree.now set.0.key) }
    ensures { result ≡ option_map_or (λ set. option_map_or (λ row. value_moves (rows_of tree.now) row Attr.Value (Number set.1)) (row_of (rows_of tree.now) (key_seen tree.now.entries set.0)) false) asked false }
{
    match asked {
        Some((id, number)) => value_moves(tree, id, Attr::Value, &Value::Number(number)),
        None => false,
    }
}

/// Whether an input moves a Window, or gives a value that may move a widget. Text and caret go to an Entry, of which
/// layout reads neither. See docs/MACHINE.md, "Input".
pub fn effects_move(tree: &Tree, effects: &Effects) -> bool
    requires live { AreLive tree.now effects.now }
    ensures { result ≡ effects_move (rows_of tree.now) (effects_seen tree.now.entries effects.now) }
{
    effects.moved.is_some() || given_moves(tree, effects.value)
}

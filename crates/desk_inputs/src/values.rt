//! The values that an input gives to widgets.

ghost use Rattle.std.specs.Prelude.{◌≡◌, true, IfSome};
ghost use Rattle.std.specs.Option.{option_map};
ghost use Rattle.kind_core.specs.declared.values.Value.TheVariants.{Number, Words};
ghost use Rattle.widget_model.specs.Widgets.{IsLive, rows_of};
ghost use Rattle.widget_model.specs.Forest.{IsWidgets};
ghost use Rattle.desk_model.specs.Feeding.{with_value_at, with_number, with_text, with_moved, rows_after};
ghost use Rattle.desk_model.specs.InputFacts.{takes, TakesValues};
ghost use Rattle.input_core.specs.Seen.{key_seen, effects_seen};
ghost use Rattle.input_core.specs.Live.{AreLive};
ghost use Rattle.desk_inputs.specs.Carried.{HasRows};

use input_core::Effects;
use kind_core::{Attr, Text, Value};
use tree_core::{Id, Tree};

/// Gives the widget's attribute a value that its kind takes, so that it can't be refused.
fn set_value(tree: &mut Tree, id: Id, attr: Attr, value: &Value)
    requires valid { IsWidgets tree.old }
    requires live { IsLive tree.old id.key }
    requires taken { takes (rows_of tree.old) (key_seen tree.old.entries id) attr value.now ≡ true }
    ensures rows { HasRows tree.old tree.new (with_value_at (key_seen tree.old.entries id) attr value.now (rows_of tree.old)) }
    ensures valid { IsWidgets tree.new }
{
    match tree.set_attr(id, attr, value) {
        Ok(()) => {}
        Err(_) => unreachable!(),
    }
}

/// Gives a widget's attribute the number, where one is asked for.
fn set_number(tree: &mut Tree, attr: Attr, asked: Option<(Id, i32)>)
    requires valid { IsWidgets tree.old }
    requires live { IfSome asked (λ set. IsLive tree.old set.0.key) }
    requires taken { IfSome asked (λ set. takes (rows_of tree.old) (key_seen tree.old.entries set.0) attr (Number set.1) ≡ true) }
    ensures rows { HasRows tree.old tree.new (with_number attr (option_map (λ set. (key_seen tree.old.entries set.0, set.1)) asked) (rows_of tree.old)) }
    ensures valid { IsWidgets tree.new }
{
    match asked {
        Some((id, number)) => set_value(tree, id, attr, &Value::Number(number)),
        None => {}
    }
}

/// Gives an Entry the text, where one is asked for.
fn set_text(tree: &mut Tree, asked: Option<(Id, Text)>)
    requires valid { IsWidgets tree.old }
    requires live { IfSome asked (λ set. IsLive tree.old set.0.key) }
    requires taken { IfSome asked (λ set. takes (rows_of tree.old) (key_seen tree.old.entries set.0) Attr.Text (Words set.1) ≡ true) }
    ensures rows { HasRows tree.old tree.new (with_text (option_map (λ set. (key_seen tree.old.entries set.0, set.1)) asked) (rows_of tree.old)) }
    ensures valid { IsWidgets tree.new }
{
    match asked {
        Some((id, text)) => set_value(tree, id, Attr::Text, &Value::Words(text)),
        None => {}
    }
}

/// Moves a Window to its new x and y.
fn move_to(tree: &mut Tree, id: Id, x: i32, y: i32)
    requires valid { IsWidgets tree.old }
    requires live { IsLive tree.old id.key }
    requires x { takes (rows_of tree.old) (key_seen tree.old.entries id) Attr.X (Number x) ≡ true }
    requires y { takes (rows_of tree.old) (key_seen tree.old.entries id) Attr.Y (Number y) ≡ true }
    ensures rows { HasRows tree.old tree.new (with_value_at (key_seen tree.old.entries id) Attr.Y (Number y) (with_value_at (key_seen tree.old.entries id) Attr.X (Number x) (rows_of tree.old))) }
    ensures valid { IsWidgets tree.new }
{
    set_value(tree, id, Attr::X, &Value::Number(x));
    set_value(tree, id, Attr::Y, &Value::Number(y));
}

/// Moves a Window, where one is asked for.
fn set_moved(tree: &mut Tree, asked: Option<(Id, i32, i32)>)
    requires valid { IsWidgets tree.old }
    requires live { IfSome asked (λ set. IsLive tree.old set.0.key) }
    requires taken { IfSome asked (λ set. (takes (rows_of tree.old) (key_seen tree.old.entries set.0) Attr.X (Number set.1) ≡ true) × (takes (rows_of tree.old) (key_seen tree.old.entries set.0) Attr.Y (Number set.2) ≡ true)) }
    ensures rows { HasRows tree.old tree.new (with_moved (option_map (λ set. (key_seen tree.old.entries set.0, set.1, set.2)) asked) (rows_of tree.old)) }
    ensures valid { IsWidgets tree.new }
{
    match asked {
        Some((id, x, y)) => move_to(tree, id, x, y),
        None => {}
    }
}

/// Gives widgets the values that an input asks for, each of which its widget's kind takes: nothing is refused, and no
/// memory is taken. Numbers, names, kinds, parents and kept places stay. See docs/MACHINE.md, "Input".
pub fn set_values(tree: &mut Tree, effects: &Effects)
    requires valid { IsWidgets tree.old }
    requires live { AreLive tree.old effects.now }
    requires taken { TakesValues (rows_of tree.old) (effects_seen tree.old.entries effects.now) }
    ensures rows { HasRows tree.old tree.new (rows_after (effects_seen tree.old.entries effects.now) (rows_of tree.old)) }
    ensures valid { IsWidgets tree.new }
{
    set_number(tree, Attr::Value, effects.value);
    set_text(tree, effects.text);
    set_number(tree, Attr::Caret, effects.caret);
    set_moved(tree, effects.moved);
}

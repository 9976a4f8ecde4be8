//! The commands that bind an event of a widget to a tag, and unbind it.

ghost use Rattle.std.specs.Prelude.{◌≡◌};
ghost use Rattle.widget_model.specs.Forest.{IsWidgets};
ghost use Rattle.desk_model.specs.Bindings.{step_bind};
ghost use Rattle.desk_commands.specs.Effects.{Did, TellsRows};

use crate::answer::Answer;
use crate::lookup::find;
use cmd_words::Refusal;
use kind_core::{EventKind, Name, gives};
use tree_core::Tree;

/// `n.bind(event, tag)`, and `n.unbind(event)` with no tag
pub(crate) fn bind(
    tree: &mut Tree,
    client: u32,
    name: &Name,
    event: EventKind,
    tag: Option<Name>,
) -> Answer
    ensures did { Did (λ desk. step_bind desk client name.now event tag) tree.old tree.new result.reply }
    ensures tells { TellsRows tree.old tree.new result.changed }
    ensures valid { IsWidgets tree.new }
{
    let found = match find(tree, client, name) {
        Ok(found) => found,
        Err(refusal) => return Answer::refused(refusal),
    };
    if !gives(found.kind, event) {
        return Answer::refused(Refusal::WrongKind);
    }
    let before = tree.binding(found.id, event);
    tree.set_binding(found.id, event, tag);
    Answer::done(before != tree.binding(found.id, event))
}

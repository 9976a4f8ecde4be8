//! The commands that link a widget to a Variable, and unlink it.

ghost use Rattle.std.specs.Prelude.{◌≡◌};
ghost use Rattle.widget_model.specs.Forest.{IsWidgets};
ghost use Rattle.desk_model.specs.Links.{step_link, step_unlink};
ghost use Rattle.desk_commands.specs.Effects.{Did, TellsRows};

use crate::answer::Answer;
use crate::kinds::{can_lead, can_link};
use crate::lookup::{find, is_number};
use cmd_words::Refusal;
use kind_core::Name;
use tree_core::Tree;

/// `n.link(v)`
pub(crate) fn link(tree: &mut Tree, client: u32, name: &Name, variable: &Name) -> Answer
    ensures did { Did (λ desk. step_link desk client name.now variable.now) tree.old tree.new result.reply }
    ensures tells { TellsRows tree.old tree.new result.changed }
    ensures valid { IsWidgets tree.new }
{
    let found = match find(tree, client, name) {
        Ok(found) => found,
        Err(refusal) => return Answer::refused(refusal),
    };
    let other = match find(tree, client, variable) {
        Ok(other) => other,
        Err(refusal) => return Answer::refused(refusal),
    };
    if !can_lead(found.kind, other.kind) {
        return Answer::refused(Refusal::WrongKind);
    }
    let before = tree.link(found.id);
    tree.set_link(found.id, Some(other.id));
    Answer::done(!is_number(before, other.id.key))
}

/// `n.unlink()`
pub(crate) fn unlink(tree: &mut Tree, client: u32, name: &Name) -> Answer
    ensures did { Did (λ desk. step_unlink desk client name.now) tree.old tree.new result.reply }
    ensures tells { TellsRows tree.old tree.new result.changed }
    ensures valid { IsWidgets tree.new }
{
    let found = match find(tree, client, name) {
        Ok(found) => found,
        Err(refusal) => return Answer::refused(refusal),
    };
    if !can_link(found.kind) {
        return Answer::refused(Refusal::WrongKind);
    }
    let before = tree.link(found.id);
    tree.set_link(found.id, None);
    Answer::done(before.is_some())
}

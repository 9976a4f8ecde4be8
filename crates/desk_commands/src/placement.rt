//! The commands that hang one widget in a cell of another, and take it out.

ghost use Rattle.std.specs.Prelude.{◌≡◌};
ghost use Rattle.desk_model.specs.Placement.{step_place, step_lift};
ghost use Rattle.widget_model.specs.Forest.{IsWidgets};
ghost use Rattle.desk_commands.specs.Effects.{Did, TellsRows};
ghost use Rattle.desk_commands.specs.TreeRefusals.{refusal_of_attach};

use crate::answer::Answer;
use crate::kinds::can_hang;
use crate::lookup::{find, is_number};
use crate::place_options::{cell_given, cell_options_refusal};
use cmd_words::{PlaceOption, Refusal};
use kind_core::Name;
use tree_core::{AttachRefusal, Tree};

/// How a client is told why a widget can't hang in another.
fn refusal_of_attach(refusal: AttachRefusal) -> Refusal
    ensures { result ≡ refusal_of_attach refusal }
{
    match refusal {
        AttachRefusal::WrongKind => Refusal::WrongKind,
        AttachRefusal::HasParent => Refusal::HasParent,
        AttachRefusal::Cycle => Refusal::Cycle,
        AttachRefusal::TooDeep => Refusal::TooDeep,
        AttachRefusal::CellTaken => Refusal::CellTaken,
    }
}

/// `p.place(c, options)`
pub(crate) fn place(
    tree: &mut Tree,
    client: u32,
    parent: &Name,
    child: &Name,
    options: &[(PlaceOption, i32)],
) -> Answer
    ensures did { Did (λ desk. step_place desk client parent.now child.now options.now) tree.old tree.new result.reply }
    ensures tells { TellsRows tree.old tree.new result.changed }
    ensures valid { IsWidgets tree.new }
{
    let upper = match find(tree, client, parent) {
        Ok(upper) => upper,
        Err(refusal) => return Answer::refused(refusal),
    };
    let lower = match find(tree, client, child) {
        Ok(lower) => lower,
        Err(refusal) => return Answer::refused(refusal),
    };
    if !can_hang(upper.kind, lower.kind) {
        return Answer::refused(Refusal::WrongKind);
    }
    match cell_options_refusal(upper.kind, options) {
        Some(refusal) => return Answer::refused(refusal),
        None => {}
    }
    match tree.attach(upper.id, lower.id, cell_given(options)) {
        Ok(()) => Answer::done(true),
        Err(refusal) => Answer::refused(refusal_of_attach(refusal)),
    }
}

/// `p.lift(c)`
pub(crate) fn lift(tree: &mut Tree, client: u32, parent: &Name, child: &Name) -> Answer
    ensures did { Did (λ desk. step_lift desk client parent.now child.now) tree.old tree.new result.reply }
    ensures tells { TellsRows tree.old tree.new result.changed }
    ensures valid { IsWidgets tree.new }
{
    let upper = match find(tree, client, parent) {
        Ok(upper) => upper,
        Err(refusal) => return Answer::refused(refusal),
    };
    let lower = match find(tree, client, child) {
        Ok(lower) => lower,
        Err(refusal) => return Answer::refused(refusal),
    };
    if !is_number(tree.parent(lower.id), upper.id.key) {
        return Answer::refused(Refusal::NotHere);
    }
    tree.detach(lower.id);
    Answer::done(true)
}

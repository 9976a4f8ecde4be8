//! Widgets under the names that their clients gave them.

ghost use Rattle.std.specs.Prelude.{◌≡◌, ◌↔◌, Some, IsTrue};
ghost use Rattle.std.specs.Option.{option_map};
ghost use Rattle.widget_model.specs.Forest.{IsWidgets};
ghost use Rattle.desk_commands.specs.Lookup.{AnswersFound, AnswersKind};

use cmd_words::Refusal;
use kind_core::{Kind, Name};
use tree_core::{Id, Tree};

/// A client's widget: its number and its kind.
#[derive(Clone, Copy)]
pub(crate) struct Found {
    pub id: Id,
    pub kind: Kind,
}

/// The client's widget of that name, or the refusal where there is none.
pub(crate) fn find(tree: &Tree, client: u32, name: &Name) -> Result<Found, Refusal>
    ensures found { AnswersFound tree.now client name.now result }
    ensures valid { IsWidgets tree.now }
{
    match tree.find(client, name) {
        Some(id) => Ok(Found {
            id,
            kind: tree.kind(id),
        }),
        None => Err(Refusal::NoSuchName),
    }
}

/// The client's widget of that name and that kind, or the first refusal where there is none.
pub(crate) fn find_kind(tree: &Tree, client: u32, name: &Name, kind: Kind) -> Result<Id, Refusal>
    ensures found { AnswersKind tree.now client name.now kind result }
    ensures valid { IsWidgets tree.now }
{
    let found = match find(tree, client, name) {
        Ok(found) => found,
        Err(refusal) => return Err(refusal),
    };
    if found.kind != kind {
        return Err(Refusal::WrongKind);
    }
    Ok(found.id)
}

/// Whether this is the widget of that number.
pub(crate) fn is_number(found: Option<Id>, key: u32) -> bool
    ensures { IsTrue result ↔ (option_map (λ id. id.key) found ≡ Some key) }
{
    match found {
        Some(id) => id.key == key,
        None => false,
    }
}

//! The widgets of client 1 that words name.
ghost use Rattle.std.specs.Prelude.{IfOk};
ghost use Rattle.widget_model.specs.Widgets.{IsGrid, IsLive};

use crate::words::{name, name_of, word};
use kind_core::Kind;
use std::str::SplitWhitespace;
use std::test::Fail;
use tree_core::{Id, Tree};

/// The widget that the word names.
pub fn named(tree: &Tree, word: &str) -> Result<Id, Fail>
    ensures { IfOk result (λ id. IsLive tree.now id.key) }
{
    match tree.find(1, &name_of(word)?) {
        Some(id) => Ok(id),
        None => Err("a word names no widget".into()),
    }
}

/// The widget that the next word names.
pub fn widget(tree: &Tree, words: &mut SplitWhitespace<'_>) -> Result<Id, Fail>
    ensures { IfOk result (λ id. IsLive tree.now id.key) }
{
    named(tree, word(words)?)
}

/// The widget that the next word names, or none where client 1 has none of that name.
pub fn other(tree: &Tree, words: &mut SplitWhitespace<'_>) -> Result<Option<Id>, Fail> {
    Ok(tree.find(1, &name(words)?))
}

/// The Grid that the next word names.
pub fn grid(tree: &Tree, words: &mut SplitWhitespace<'_>) -> Result<Id, Fail>
    ensures { IfOk result (λ id. IsGrid tree.now id.key) }
{
    let id = widget(tree, words)?;
    match tree.kind(id) {
        Kind::Grid => Ok(id),
        _ => Err("it is no Grid".into()),
    }
}

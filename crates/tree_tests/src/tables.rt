//! The words of a row: names, kinds and numbers.
ghost use Rattle.std.specs.Prelude.{IfOk};
ghost use Rattle.widget_model.specs.Rows.{IsIndex};
ghost use Rattle.widget_model.specs.Widgets.{IsLive};

use geom_core::Rect;
use kind_core::{Kind, Name, name_from};
use std::str::SplitWhitespace;
use std::test::Fail;
use tree_core::{Id, Tree};

/// The next word of a row.
pub fn word<'a>(words: &mut SplitWhitespace<'a>) -> Result<&'a str, Fail> {
    match words.next() {
        Some(word) => Ok(word),
        None => Err("a row has too few words".into()),
    }
}

/// The next number of a row.
pub fn number(words: &mut SplitWhitespace<'_>) -> Result<u32, Fail> {
    Ok(word(words)?.parse()?)
}

/// The next number of a row, which is that of a column or a row of a Grid, 1 to 16.
pub fn index(words: &mut SplitWhitespace<'_>) -> Result<u32, Fail>
    ensures { IfOk result (λ at. IsIndex at) }
{
    let at = number(words)?;
    if at < 1 || at > 16 {
        return Err("a column or row is 1 to 16".into());
    }
    Ok(at)
}

/// The next four words of a row: a place.
pub fn place(words: &mut SplitWhitespace<'_>) -> Result<Rect, Fail> {
    Ok(Rect {
        x: word(words)?.parse()?,
        y: word(words)?.parse()?,
        w: number(words)?,
        h: number(words)?,
    })
}

/// The next name of a row.
pub fn name(words: &mut SplitWhitespace<'_>) -> Result<Name, Fail> {
    match name_from(word(words)?.as_bytes()) {
        Some(name) => Ok(name),
        None => Err("a word is no name".into()),
    }
}

/// The next kind of a row.
pub fn kind(words: &mut SplitWhitespace<'_>) -> Result<Kind, Fail> {
    match word(words)? {
        "Window" => Ok(Kind::Window),
        "Grid" => Ok(Kind::Grid),
        "Frame" => Ok(Kind::Frame),
        "Button" => Ok(Kind::Button),
        "Label" => Ok(Kind::Label),
        "Entry" => Ok(Kind::Entry),
        "Scale" => Ok(Kind::Scale),
        "Scrollbar" => Ok(Kind::Scrollbar),
        "Variable" => Ok(Kind::Variable),
        "VScreen" => Ok(Kind::VScreen),
        _ => Err("a word is no kind".into()),
    }
}

/// The widget of client 1 that the next word names.
pub fn widget(tree: &Tree, words: &mut SplitWhitespace<'_>) -> Result<Id, Fail>
    ensures { IfOk result (λ id. IsLive tree.now id.key) }
{
    match tree.find(1, &name(words)?) {
        Some(id) => Ok(id),
        None => Err("a word names no widget".into()),
    }
}

/// The widget of client 1 that the next word names, or none where it has none of that name.
pub fn other(tree: &Tree, words: &mut SplitWhitespace<'_>) -> Result<Option<Id>, Fail> {
    Ok(tree.find(1, &name(words)?))
}

//! The words of a row.
ghost use Rattle.std.specs.Prelude.{IfOk};
ghost use Rattle.widget_model.specs.Rows.{IsIndex};

use geom_core::Rect;
use kind_core::{Attr, EventKind, Kind, Name, name_from};
use std::str::{Lines, SplitWhitespace};
use std::test::Fail;

/// The rows of a table, one a line; a table has at least one.
pub fn rows<'a>(table: &'a str) -> Result<Lines<'a>, Fail> {
    let table = table.trim();
    if table.is_empty() {
        return Err("a table has no rows".into());
    }
    Ok(table.lines())
}

/// The next word of a row.
pub fn word<'a>(words: &mut SplitWhitespace<'a>) -> Result<&'a str, Fail> {
    match words.next() {
        Some(word) => Ok(word),
        None => Err("a row has too few words".into()),
    }
}

/// The next number of a row that isn't negative.
pub fn number(words: &mut SplitWhitespace<'_>) -> Result<u32, Fail> {
    Ok(word(words)?.parse()?)
}

/// The next number of a row.
pub fn integer(words: &mut SplitWhitespace<'_>) -> Result<i32, Fail> {
    Ok(word(words)?.parse()?)
}

/// The next number of a row, which is that of a column or a row of a Grid, 1 to 16.
pub fn index(words: &mut SplitWhitespace<'_>) -> Result<u32, Fail>
    ensures { IfOk result (λ at. IsIndex at) }
{
    let at = number(words)?;
    if at < 1 || at > 16 {
        return Err("a column or row is 1 to 16".into());
    }
    Ok(at)
}

/// The next four words of a row: a rectangle's column, row, width and height in pixels.
pub fn rect(words: &mut SplitWhitespace<'_>) -> Result<Rect, Fail> {
    Ok(Rect {
        x: integer(words)?,
        y: integer(words)?,
        w: number(words)?,
        h: number(words)?,
    })
}

/// The word as a name.
pub fn name_of(word: &str) -> Result<Name, Fail> {
    match name_from(word.as_bytes()) {
        Some(name) => Ok(name),
        None => Err("a word is no name".into()),
    }
}

/// The next name of a row.
pub fn name(words: &mut SplitWhitespace<'_>) -> Result<Name, Fail> {
    name_of(word(words)?)
}

/// The kind that the next word names.
pub fn kind(words: &mut SplitWhitespace<'_>) -> Result<Kind, Fail> {
    match word(words)? {
        "Window" => Ok(Kind::Window),
        "Grid" => Ok(Kind::Grid),
        "Frame" => Ok(Kind::Frame),
        "Button" => Ok(Kind::Button),
        "Label" => Ok(Kind::Label),
        "Entry" => Ok(Kind::Entry),
        "Scale" => Ok(Kind::Scale),
        "Scrollbar" => Ok(Kind::Scrollbar),
        "Variable" => Ok(Kind::Variable),
        "VScreen" => Ok(Kind::VScreen),
        _ => Err("a word is no kind".into()),
    }
}

/// The attribute that the next word names, one that is a number.
pub fn attr(words: &mut SplitWhitespace<'_>) -> Result<Attr, Fail> {
    match word(words)? {
        "x" => Ok(Attr::X),
        "y" => Ok(Attr::Y),
        "w" => Ok(Attr::W),
        "h" => Ok(Attr::H),
        "caret" => Ok(Attr::Caret),
        "cols" => Ok(Attr::Cols),
        "value" => Ok(Attr::Value),
        "max" => Ok(Attr::Max),
        "real" => Ok(Attr::Real),
        "view" => Ok(Attr::View),
        "vert" => Ok(Attr::Vert),
        _ => Err("a word is no attribute".into()),
    }
}

/// The event that the next word names.
pub fn event(words: &mut SplitWhitespace<'_>) -> Result<EventKind, Fail> {
    match word(words)? {
        "press" => Ok(EventKind::Press),
        "release" => Ok(EventKind::Release),
        "click" => Ok(EventKind::Click),
        "key" => Ok(EventKind::Key),
        "change" => Ok(EventKind::Change),
        "motion" => Ok(EventKind::Motion),
        "move" => Ok(EventKind::Move),
        _ => Err("a word is no event".into()),
    }
}

//! What an input is to ask of the desk, and rows with their answers. An answer has the pointer, as rows have it, and then
//! each effect, a comma before it: `raise NAME`, `value NAME NUMBER`, `text NAME BYTES`, `caret NAME NUMBER`,
//! `moved NAME X Y`, and at most two `post NAME EVENT A B`, in order. Bytes are written with `_` for a space, and `.`
//! alone is the empty text.
ghost use Rattle.std.specs.Prelude.{◌≡◌, false};
ghost use Rattle.widget_model.specs.Clients.{is_joined};
ghost use Rattle.widget_model.specs.Forest.{IsWidgets};

use crate::given::{held, hit, input, pointer};
use input_core::{Effects, Post, route};
use kind_core::{Text, text_from};
use std::alloc::Global;
use std::process::Abort;
use std::str::SplitWhitespace;
use std::test::Fail;
use test_tables::{event, integer, make_all, rows, widget, word};
use tree_core::{Grab, Id, Pointer, Tree};

/// The effects of a row's answer.
#[derive(Drop)]
struct Wanted {
    raise: Option<Id>,
    value: Option<(Id, i32)>,
    text: Option<(Id, Text)>,
    caret: Option<(Id, i32)>,
    moved: Option<(Id, i32, i32)>,
    first: Option<Post>,
    second: Option<Post>,
}

/// The next text of a row.
fn text(words: &mut SplitWhitespace<'_>) -> Result<Text, Fail> {
    let bytes = word(words)?;
    if bytes == "." {
        return Ok(Text::empty());
    }
    match text_from(bytes.as_bytes()) {
        Some(text) => Ok(text),
        None => Err("a word is no text".into()),
    }
}

/// The next event of a row.
fn post(tree: &Tree, words: &mut SplitWhitespace<'_>) -> Result<Post, Fail> {
    let id = widget(tree, words)?;
    let event = event(words)?;
    let a = integer(words)?;
    let b = integer(words)?;
    Ok(Post { id, event, a, b })
}

/// Adds the effect that the words say.
fn add(tree: &Tree, wanted: &mut Wanted, words: &mut SplitWhitespace<'_>) -> Result<(), Fail> {
    match word(words)? {
        "raise" => wanted.raise = Some(widget(tree, words)?),
        "value" => wanted.value = Some((widget(tree, words)?, integer(words)?)),
        "text" => wanted.text = Some((widget(tree, words)?, text(words)?)),
        "caret" => wanted.caret = Some((widget(tree, words)?, integer(words)?)),
        "moved" => wanted.moved = Some((widget(tree, words)?, integer(words)?, integer(words)?)),
        "post" => {
            let post = post(tree, words)?;
            if wanted.first.is_none() {
                wanted.first = Some(post);
            } else {
                wanted.second = Some(post);
            }
        }
        _ => return Err("a word is no effect".into()),
    }
    Ok(())
}

/// Whether two pointers hold the same widget in the same way.
fn same_grab(a: Grab, b: Grab) -> bool {
    match (a, b) {
        (Grab::Nothing, Grab::Nothing) => true,
        (Grab::Widget { id }, Grab::Widget { id: other }) => id == other,
        (
            Grab::Drag { id, dx, dy },
            Grab::Drag {
                id: other,
                dx: other_dx,
                dy: other_dy,
            },
        ) => id == other && dx == other_dx && dy == other_dy,
        _ => false,
    }
}

/// Whether two pointers are the same.
fn same_pointer(a: Pointer, b: Pointer) -> bool {
    a.x == b.x && a.y == b.y && a.down == b.down && same_grab(a.grab, b.grab) && a.focus == b.focus
}

/// Whether the events are the first and then the second, each where there is one.
fn same_posts(posts: &[Post], first: Option<Post>, second: Option<Post>) -> bool {
    posts.first().copied() == first && posts.get(1).copied() == second
}

/// Whether the effects are those that are wanted.
fn is_wanted(effects: &Effects, wanted: &Wanted) -> bool {
    effects.raise == wanted.raise
        && effects.value == wanted.value
        && effects.text == wanted.text
        && effects.caret == wanted.caret
        && effects.moved == wanted.moved
        && same_posts(effects.posts.as_slice(), wanted.first, wanted.second)
}

/// The input that the row gives has the effects that it wants.
fn is_answered(rt: &impl Abort, tree: &Tree, row: &str) -> Result<(), Fail>
    requires { IsWidgets tree.now }
{
    let (given, answer) = row.split_once(" => ").ok_or("a row has no answer")?;
    let mut words = given.split_whitespace();
    let before = pointer(tree, &mut words)?;
    let hit = hit(tree, &mut words)?;
    let held = held(&mut words)?;
    let input = input(&mut words)?;
    let effects = route(tree, &before, hit, held, 64, 64, input);
    let (place, parts) = answer.split_once(" ;").ok_or("an answer has no effects")?;
    let after = pointer(tree, &mut place.split_whitespace())?;
    assert!(rt;
        same_pointer(effects.pointer, after),
        "the pointer at {row}"
    );
    let mut wanted = Wanted {
        raise: None,
        value: None,
        text: None,
        caret: None,
        moved: None,
        first: None,
        second: None,
    };
    for part in parts.trim().split(", ") {
        if !part.is_empty() {
            add(tree, &mut wanted, &mut part.split_whitespace())?;
        }
    }
    assert!(rt; is_wanted(&effects, &wanted), "the effects at {row}");
    Ok(())
}

/// Each row of the table has the effects that it wants.
fn play(rt: &impl Abort, tree: &Tree, table: &str) -> Result<(), Fail>
    requires { IsWidgets tree.now }
{
    for row in rows(table)? {
        is_answered(rt, tree, row)?;
    }
    Ok(())
}

/// Makes the widgets in a tree that client 1 isn't in, and plays the table.
fn begin(
    rt: &impl Abort,
    alloc: Global,
    tree: &mut Tree,
    widgets: &str,
    table: &str,
) -> Result<(), Fail>
    requires { is_joined tree.old.clients 1 ≡ false }
{
    make_all(alloc, tree, widgets)?;
    if tree.count(1) == 0 {
        return Err("a table has no widgets".into());
    }
    play(rt, tree, table)
}

/// Makes the widgets in a new tree, and plays the table.
pub fn plays(rt: &impl Abort, alloc: Global, widgets: &str, table: &str) -> Result<(), Fail> {
    begin(rt, alloc, &mut Tree::new(alloc), widgets, table)
}

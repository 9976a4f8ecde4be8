//! What an input meets: the pointer, the top widget at it, the place of the one that is grabbed, and the input. A row
//! has the words `at X Y up` or `at X Y down`, then `free`, `on NAME` or `drag NAME DX DY`, then `nobody` or
//! `keys NAME`, then `nothing` or `hit NAME X Y W H`, then `away` or `held X Y W H`, and then `motion X Y`, `press`,
//! `release` or `key BYTE`.
ghost use Rattle.std.specs.Prelude.{◌≡◌, ◌<◌, IfOk, IfSome, OnOk};
ghost use Rattle.geom_core.specs.Rect.{IsInRange};
ghost use Rattle.widget_model.specs.Widgets.{IsLive};
ghost use Rattle.input_core.specs.Live.{HoldsLive, IsLiveGrab};

use cmd_words::Input;
use geom_core::Rect;
use input_core::Hit;
use std::str::SplitWhitespace;
use std::test::Fail;
use test_tables::{number, rect, widget, word};
use tree_core::{Grab, Id, Pointer, Tree};

/// The next place of a row.
fn place(words: &mut SplitWhitespace<'_>) -> Result<Rect, Fail>
    ensures { IfOk result IsInRange }
{
    let Rect { x, y, w, h } = rect(words)?;
    if x < -5000 || x > 5000 || y < -5000 || y > 5000 || w > 5000 || h > 5000 {
        return Err("a place is too far away".into());
    }
    Ok(Rect { x, y, w, h })
}

/// What the pointer has grabbed.
fn grab(tree: &Tree, words: &mut SplitWhitespace<'_>) -> Result<Grab, Fail>
    ensures { IfOk result (IsLiveGrab tree.now) }
{
    match word(words)? {
        "free" => Ok(Grab::Nothing),
        "on" => Ok(Grab::Widget {
            id: widget(tree, words)?,
        }),
        "drag" => {
            let id = widget(tree, words)?;
            let dx = number(words)?;
            let dy = number(words)?;
            Ok(Grab::Drag { id, dx, dy })
        }
        _ => Err("a word is no grab".into()),
    }
}

/// The widget that keys go to.
fn focus(tree: &Tree, words: &mut SplitWhitespace<'_>) -> Result<Option<Id>, Fail>
    ensures { IfOk result (λ focus. IfSome focus (λ id. IsLive tree.now id.key)) }
{
    match word(words)? {
        "nobody" => Ok(None),
        "keys" => Ok(Some(widget(tree, words)?)),
        _ => Err("a word is no focus".into()),
    }
}

/// The pointer, on a screen of 64 by 64 pixels.
pub fn pointer(tree: &Tree, words: &mut SplitWhitespace<'_>) -> Result<Pointer, Fail>
    ensures holds { IfOk result (HoldsLive tree.now) }
    ensures x { IfOk result (λ pointer. pointer.x < 64) }
    ensures y { IfOk result (λ pointer. pointer.y < 64) }
{
    if word(words)? != "at" {
        return Err("a row begins with the pointer".into());
    }
    let x = number(words)?;
    let y = number(words)?;
    if x >= 64 || y >= 64 {
        return Err("the pointer is off the screen".into());
    }
    let down = word(words)? == "down";
    let grab = grab(tree, words)?;
    let focus = focus(tree, words)?;
    Ok(Pointer {
        x,
        y,
        down,
        grab,
        focus,
    })
}

/// The top widget at the pointer.
pub fn hit(tree: &Tree, words: &mut SplitWhitespace<'_>) -> Result<Option<Hit>, Fail>
    ensures live { IfOk result (λ hit. IfSome hit (λ hit. IsLive tree.now hit.id.key)) }
    ensures place { IfOk result (λ hit. IfSome hit (λ hit. IsInRange hit.place)) }
{
    match word(words)? {
        "nothing" => Ok(None),
        "hit" => {
            let id = widget(tree, words)?;
            let place = place(words)?;
            Ok(Some(Hit { id, place }))
        }
        _ => Err("a word is no hit".into()),
    }
}

/// The place of the widget that is grabbed.
pub fn held(words: &mut SplitWhitespace<'_>) -> Result<Option<Rect>, Fail>
    ensures { IfOk result (λ held. IfSome held IsInRange) }
{
    match word(words)? {
        "away" => Ok(None),
        "held" => Ok(Some(place(words)?)),
        _ => Err("a word is no place".into()),
    }
}

/// The input.
pub fn input(words: &mut SplitWhitespace<'_>) -> Result<Input, Fail> {
    match word(words)? {
        "motion" => {
            let x = number(words)?;
            let y = number(words)?;
            Ok(Input::Motion { x, y })
        }
        "press" => Ok(Input::Press),
        "release" => Ok(Input::Release),
        "key" => Ok(Input::Key {
            byte: word(words)?.parse()?,
        }),
        _ => Err("a word is no input".into()),
    }
}

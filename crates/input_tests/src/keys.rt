//! Inputs to a screen, whose events are kept for its client: more keys than are kept, and what polls then tell.
ghost use Rattle.std.specs.Prelude.{◌≡◌, ◌<◌, false, IfOk, IfSome};
ghost use Rattle.std.specs.List.{All};
ghost use Rattle.geom_core.specs.Rect.{IsInRange};
ghost use Rattle.widget_model.specs.Clients.{is_joined};
ghost use Rattle.widget_model.specs.Forest.{IsWidgets};
ghost use Rattle.widget_model.specs.Widgets.{IsLive};
ghost use Rattle.input_core.specs.Live.{HoldsLive};

use crate::given::{hit, input, pointer};
use bind_core::{Polled, Posted, Ring};
use cmd_words::Input;
use geom_core::Rect;
use input_core::{Hit, Post, route};
use kind_core::{EventKind, name_from};
use std::alloc::Global;
use std::process::Abort;
use std::test::Fail;
use test_tables::{make_all, rows};
use tree_core::{Pointer, Tree};

/// Keeps each event under the tag to which its widget bound it.
fn keep(tree: &Tree, ring: &mut Ring, posts: &[Post]) -> Result<(), Fail>
    requires { All (λ post. IsLive tree.now post.id.key) posts.now }
{
    for post in posts {
        let tag = match tree.binding(post.id, post.event) {
            Some(tag) => tag,
            None => return Err("what isn't bound is posted".into()),
        };
        ring.post(Posted {
            tag,
            event: post.event,
            a: post.a,
            b: post.b,
        });
    }
    Ok(())
}

/// Feeds an input where the top widget at the pointer is the one that was hit, keeps what is posted, and answers the
/// pointer then.
fn feed(
    tree: &Tree,
    ring: &mut Ring,
    pointer: &Pointer,
    hit: Option<Hit>,
    input: Input,
) -> Result<Pointer, Fail>
    requires widgets { IsWidgets tree.now }
    requires holds { HoldsLive tree.now pointer.now }
    requires x { pointer.now.x < 64 }
    requires y { pointer.now.y < 64 }
    requires hit { IfSome hit (λ hit. IsLive tree.now hit.id.key) }
    requires place { IfSome hit (λ hit. IsInRange hit.place) }
    ensures holds { IfOk result (HoldsLive tree.now) }
    ensures x { IfOk result (λ pointer. pointer.x < 64) }
    ensures y { IfOk result (λ pointer. pointer.y < 64) }
{
    let held: Option<Rect> = match &hit {
        Some(hit) => Some(hit.place),
        None => None,
    };
    let effects = route(tree, pointer, hit, held, 64, 64, input);
    keep(tree, ring, effects.posts.as_slice())?;
    let after = effects.pointer;
    if after.x >= 64 || after.y >= 64 {
        return Err("the pointer left the screen".into());
    }
    Ok(after)
}

/// Feeds an input whose row has the words of the top widget at the pointer, and of the input.
fn feed_row(tree: &Tree, ring: &mut Ring, before: &Pointer, row: &str) -> Result<Pointer, Fail>
    requires widgets { IsWidgets tree.now }
    requires holds { HoldsLive tree.now before.now }
    requires x { before.now.x < 64 }
    requires y { before.now.y < 64 }
    ensures holds { IfOk result (HoldsLive tree.now) }
    ensures x { IfOk result (λ pointer. pointer.x < 64) }
    ensures y { IfOk result (λ pointer. pointer.y < 64) }
{
    let mut words = row.split_whitespace();
    let hit = hit(tree, &mut words)?;
    let input = input(&mut words)?;
    feed(tree, ring, before, hit, input)
}

/// Feeds the inputs of the table to a pointer as at opening, and answers the pointer then.
fn feed_all(tree: &Tree, ring: &mut Ring, table: &str) -> Result<Pointer, Fail>
    requires { IsWidgets tree.now }
    ensures holds { IfOk result (HoldsLive tree.now) }
    ensures x { IfOk result (λ pointer. pointer.x < 64) }
    ensures y { IfOk result (λ pointer. pointer.y < 64) }
{
    let mut after = pointer(tree, &mut "at 0 0 up free nobody".split_whitespace())?;
    for row in rows(table)? {
        after = feed_row(tree, ring, &after, row)?;
    }
    Ok(after)
}

/// Feeds the keys from 65 to 97, where no widget is at the pointer.
fn type_keys(tree: &Tree, ring: &mut Ring, before: &Pointer) -> Result<(), Fail>
    requires widgets { IsWidgets tree.now }
    requires holds { HoldsLive tree.now before.now }
    requires x { before.now.x < 64 }
    requires y { before.now.y < 64 }
{
    for byte in 65..=97 {
        feed(tree, ring, before, None, Input::Key { byte })?;
    }
    Ok(())
}

/// Polls tell that one event was lost, then the keys from 66 to 97 under the tag k, and then no more.
fn tells_the_latest(rt: &impl Abort, ring: &mut Ring) -> Result<(), Fail> {
    let tag = name_from(b"k").ok_or("no tag")?;
    assert_eq!(rt; ring.poll(), Polled::Lost(1));
    for code in 66..=97 {
        let key = Posted {
            tag,
            event: EventKind::Key,
            a: code,
            b: 0,
        };
        assert_eq!(rt; ring.poll(), Polled::One(key), "at {code}");
    }
    assert_eq!(rt; ring.poll(), Polled::Empty);
    Ok(())
}

/// A Window of 40 by 40 at (0, 0): its VScreen is at (1, 12), 38 by 27.
const SCREEN: &str = "
add w Window
add v VScreen
hang w v 1 1 0
bind v key k
";

/// The VScreen is pressed and let go, so keys go to it; neither is bound.
const PRESSED: &str = "
nothing motion 5 20
hit v 1 12 38 27 press
hit v 1 12 38 27 release
";

/// Makes the screen in a tree that client 1 isn't in, presses it, and types 33 keys.
fn types(rt: &impl Abort, alloc: Global, tree: &mut Tree, ring: &mut Ring) -> Result<(), Fail>
    requires { is_joined tree.old.clients 1 ≡ false }
{
    make_all(alloc, tree, SCREEN)?;
    if tree.count(1) == 0 {
        return Err("there are no widgets".into());
    }
    let pressed = feed_all(tree, ring, PRESSED)?;
    type_keys(tree, ring, &pressed)?;
    tells_the_latest(rt, ring)
}

#[test]
fn the_latest_32_of_33_keys_are_told(rt: HostRuntime) -> Result<(), Fail> {
    types(
        &rt,
        rt.alloc(),
        &mut Tree::new(rt.alloc()),
        &mut Ring::new(rt.alloc())?,
    )
}

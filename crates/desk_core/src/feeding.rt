//! What an input asks for, carried out on the parts of the desk.

ghost use Rattle.std.specs.Prelude.{◌≡◌, ◌<◌, ◌||◌, ℕ, Bool, true, false, None, IfSome, map};
ghost use Rattle.std.specs.List.{All, fold};
ghost use Rattle.desk_commands.specs.Parts.{AreParts};
ghost use Rattle.desk_inputs.specs.Asked.{GrabIsUnderWindow, effects_in};
ghost use Rattle.desk_inputs.specs.Raised.{is_open_at};
ghost use Rattle.desk_layout.specs.Placed.{HaveDuePlaces};
ghost use Rattle.desk_model.specs.Feeding.{with_post};
ghost use Rattle.desk_model.specs.InputFacts.{TakesValues};
ghost use Rattle.input_core.specs.Live.{AreLive, HoldsLive};
ghost use Rattle.input_core.specs.Seen.{key_seen, post_seen, effects_seen};
ghost use Rattle.scene_core.specs.View.{scene_from};
ghost use Rattle.scene_model.specs.Shapes.{IsShape};
ghost use Rattle.widget_model.specs.Forest.{IsWidgets};
ghost use Rattle.widget_model.specs.Widgets.{IsLive, rows_of};
ghost use Rattle.desk_core.specs.Feeding.{is_named, is_asked, HavePlacesBut, ChangesPlaces, StillUnlessMoving, IsCarried};

use crate::asked::{moved, numbered, written};
use crate::carried::{Carried, told_by};
use crate::clients::Clients;
use crate::touching::view_of;
use cmd_words::Input;
use desk_commands::let_go;
use desk_inputs::{asked, effects_move, posted_of, raise, set_values};
use desk_layout::settle;
use input_core::{Effects, Post};
use scene_model::Shape;
use stack_core::Stack;
use tree_core::{Id, Pointer, Tree};

/// What the input asks of the desk that these parts make up.
pub(crate) fn asked_on(
    tree: &Tree,
    windows: &Stack,
    pointer: &Pointer,
    shape: Shape,
    input: Input,
) -> Effects
    requires shape { IsShape shape }
    requires parts { AreParts tree.now.clients tree.now windows.now }
    requires placed { HaveDuePlaces tree.now }
    requires holds { HoldsLive tree.now pointer.now }
    requires held { GrabIsUnderWindow tree.now pointer.now.grab }
    requires across { pointer.now.x < shape.width }
    requires down { pointer.now.y < shape.height }
    ensures effects { effects_seen tree.now.entries result ≡ effects_in (scene_from tree.now windows.now pointer.now shape.width shape.height) input }
    ensures live { AreLive tree.now result }
{
    asked(&view_of(tree, windows, pointer, shape), input)
}

/// Tells the event to the client of its widget, where it is bound.
fn post_one(tree: &Tree, clients: &mut Clients, post: Post)
    requires { IsLive tree.now post.id.key }
    ensures { clients.new ≡ with_post (rows_of tree.now) clients.old (post_seen tree.now.entries post) }
{
    match posted_of(tree, post) {
        Some(posted) => clients.post(tree.owner(post.id), posted),
        None => {}
    }
}

/// Tells the events, in order, each to the client of its widget.
fn post_all(tree: &Tree, clients: &mut Clients, posts: &[Post])
    requires { All (λ post. IsLive tree.now post.id.key) posts.now }
    ensures { clients.new ≡ fold (with_post (rows_of tree.now)) clients.old (map (post_seen tree.now.entries) posts.now) }
{
    for post in posts.iter() {
        post_one(tree, clients, *post);
    }
}

/// Lays out the widgets of the named one's client, where one is named.
fn lay_named(tree: &mut Tree, named: Option<Id>)
    requires valid { IsWidgets tree.old }
    requires live { IfSome named (λ id. IsLive tree.old id.key) }
    ensures changed { ChangesPlaces tree.old tree.new }
    ensures due { (rest : ℕ → Bool) → HavePlacesBut (λ client. is_named tree.old.entries named client || rest client) tree.old → HavePlacesBut rest tree.new }
{
    match named {
        Some(id) => {
            let client = tree.owner(id);
            settle(tree, client, true, true);
        }
        None => {}
    }
}

/// Lays out the widgets of each client to one of whose widgets a value is given.
fn lay_asked(tree: &mut Tree, effects: &Effects)
    requires valid { IsWidgets tree.old }
    requires value { IfSome effects.now.value (λ set. IsLive tree.old set.0.key) }
    requires text { IfSome effects.now.text (λ set. IsLive tree.old set.0.key) }
    requires caret { IfSome effects.now.caret (λ set. IsLive tree.old set.0.key) }
    requires moved { IfSome effects.now.moved (λ set. IsLive tree.old set.0.key) }
    ensures changed { ChangesPlaces tree.old tree.new }
    ensures due { HavePlacesBut (is_asked tree.old.entries effects.now) tree.old → HaveDuePlaces tree.new }
{
    lay_named(tree, numbered(effects.value));
    lay_named(tree, written(effects.text));
    lay_named(tree, numbered(effects.caret));
    lay_named(tree, moved(effects.moved));
}

/// Whether the effects give a value to a widget; false only where they give none.
fn gives_values(effects: &Effects) -> bool
    ensures { result ≡ false → (effects.now.value ≡ None) × ((effects.now.text ≡ None) × ((effects.now.caret ≡ None) × (effects.now.moved ≡ None))) }
{
    effects.value.is_some()
        || effects.text.is_some()
        || effects.caret.is_some()
        || effects.moved.is_some()
}

/// Lays out the widgets that may have moved.
fn lay_moved(tree: &mut Tree, effects: &Effects, moves: bool)
    requires valid { IsWidgets tree.old }
    requires value { IfSome effects.now.value (λ set. IsLive tree.old set.0.key) }
    requires text { IfSome effects.now.text (λ set. IsLive tree.old set.0.key) }
    requires caret { IfSome effects.now.caret (λ set. IsLive tree.old set.0.key) }
    requires moved { IfSome effects.now.moved (λ set. IsLive tree.old set.0.key) }
    requires due { HavePlacesBut (is_asked tree.old.entries effects.now) tree.old }
    requires still { moves ≡ false → HaveDuePlaces tree.old }
    ensures changed { ChangesPlaces tree.old tree.new }
    ensures due { HaveDuePlaces tree.new }
{
    if moves {
        lay_asked(tree, effects);
    }
}

/// Carries out what an input asks for: the events are posted, the window is raised, the values are given, the widgets
/// that may have moved are laid out, and the pointer is the asked one, which lets go then.
pub(crate) fn carry_out(
    tree: &mut Tree,
    windows: &mut Stack,
    pointer: &mut Pointer,
    clients: &mut Clients,
    effects: &Effects,
) -> Carried
    requires parts { AreParts tree.old.clients tree.old windows.old }
    requires placed { HaveDuePlaces tree.old }
    requires live { AreLive tree.old effects.now }
    requires taken { TakesValues (rows_of tree.old) (effects_seen tree.old.entries effects.now) }
    requires opened { IfSome effects.now.raise (λ id. is_open_at tree.old windows.old (key_seen tree.old.entries id) ≡ true) }
    requires still { StillUnlessMoving (rows_of tree.old) (effects_seen tree.old.entries effects.now) }
    ensures { IsCarried effects.now tree.old tree.new windows.old windows.new clients.old clients.new pointer.new result }
{
    let moves = effects_move(tree, effects);
    post_all(tree, clients, effects.posts.as_slice());
    let raised = raise(tree, windows, effects.raise);
    set_values(tree, effects);
    lay_moved(tree, effects, moves);
    *pointer = effects.pointer;
    let_go(tree, windows, pointer);
    told_by(raised, gives_values(effects), moves)
}

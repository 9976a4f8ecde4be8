ghost use Rattle.std.specs.Prelude.{◌≡◌, ◌≤◌, ◌++◌, [], length, pos};
ghost use Rattle.std.specs.Option.{option_to_list};
ghost use Rattle.kind_core.specs.declared.kinds.EventKind.TheVariants.{Press};

use arrayvec::ArrayVec;
use kind_core::EventKind;
use std::marker::Model;
use tree_core::Id;

/// An event that is posted to the client of a widget, with its two numbers. A widget's tag for the event is in its
/// binding. See docs/MACHINE.md, "Input".
#[derive(Clone, Copy, Debug, PartialEq, Eq)]
pub struct Post {
    pub id: Id,
    pub event: EventKind,
    pub a: i32,
    pub b: i32,
}

impl Default for Post {
    ghost is_default = { λ post. post ≡ record { id = record { key = 0 }; event = Press; a = pos 0; b = pos 0 } };

    /// What lies in an unused place of a list of fixed capacity.
    fn default() -> Self {
        Post {
            id: Id { key: 0 },
            event: EventKind::Press,
            a: 0,
            b: 0,
        }
    }
}

/// The events of one input, in order, at most 2. Contracts see the list.
#[derive(Debug, Drop)]
pub struct Posts {
    items: ArrayVec<Post, 2>,
}

impl Model for Posts {
    ghost use Rattle.std.specs.Prelude.{List, ◌≤◌, length};
    ghost use Rattle.input_core.specs.declared.posts.Post as post;

    ghost Value = { List post.Post };

    ghost view = { λ p. p.items.items };

    ghost invariant = { λ p. length p.items.items ≤ 2 };
}

impl Posts {
    /// No event.
    pub fn none() -> Posts
        ensures { result ≡ [] }
    {
        Posts {
            items: ArrayVec::new(),
        }
    }

    /// The first event and then the second, each where there is one.
    pub fn of(first: Option<Post>, second: Option<Post>) -> Posts
        ensures { result ≡ option_to_list first ++ option_to_list second }
    {
        let mut items = ArrayVec::new();
        match first {
            Some(post) => items.push(post),
            None => {}
        }
        match second {
            Some(post) => items.push(post),
            None => {}
        }
        Posts { items }
    }

    /// The events, in order.
    pub fn as_slice(&self) -> &[Post]
        ensures items { result.now ≡ self.now }
        ensures few { length self.now ≤ 2 }
    {
        self.items.as_slice()
    }
}

//! The events that an input posts, each under the tag that its widget's event is bound to.

ghost use Rattle.std.specs.Prelude.{◌≡◌};
ghost use Rattle.std.specs.Option.{option_map};
ghost use Rattle.bind_core.specs.Ring.{event_of};
ghost use Rattle.widget_model.specs.Widgets.{IsLive, rows_of};
ghost use Rattle.widget_model.specs.Forest.{IsWidgets};
ghost use Rattle.desk_model.specs.Feeding.{tag_of};
ghost use Rattle.input_core.specs.Seen.{key_seen};

use bind_core::Posted;
use input_core::Post;
use tree_core::Tree;

/// The event of a live widget as its client is told it, under the tag that it is bound to; None exactly where it isn't
/// bound. The client is the widget's owner. It costs a look-up in a hash map. See docs/MACHINE.md, "Input".
pub fn posted_of(tree: &Tree, post: Post) -> Option<Posted>
    requires { IsLive tree.now post.id.key }
    ensures { option_map event_of result ≡ option_map (λ tag. (tag, post.event, post.a, post.b)) (tag_of (rows_of tree.now) (key_seen tree.now.entries post.id) post.event) }
{
    match tree.binding(post.id, post.event) {
        Some(tag) => Some(Posted {
            tag,
            event: post.event,
            a: post.a,
            b: post.b,
        }),
        None => None,
    }
}

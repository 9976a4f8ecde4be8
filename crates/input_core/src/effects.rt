ghost use Rattle.std.specs.Prelude.{◌≡◌, None, []};

use crate::posts::Posts;
use kind_core::Text;
use tree_core::{Id, Pointer};

/// What an input asks of the desk (docs/MACHINE.md, "Input"). Numbers of widgets are those of the tree.
#[derive(Debug, Drop)]
pub struct Effects {
    /// The pointer after the input.
    pub pointer: Pointer,
    /// The window that goes to the top.
    pub raise: Option<Id>,
    /// The Scale, Scrollbar or Variable whose `value` becomes the number.
    pub value: Option<(Id, i32)>,
    /// The Entry whose `text` becomes the text.
    pub text: Option<(Id, Text)>,
    /// The Entry whose `caret` becomes the number.
    pub caret: Option<(Id, i32)>,
    /// The Window whose `x` and `y` become the numbers, in pixels.
    pub moved: Option<(Id, i32, i32)>,
    /// The events that are posted, in order.
    pub posts: Posts,
}

/// The pointer alone changes.
pub(crate) fn only_pointer(pointer: Pointer) -> Effects
    ensures { result ≡ record { pointer = pointer; raise = None; value = None; text = None; caret = None; moved = None; posts = [] } }
{
    Effects {
        pointer,
        raise: None,
        value: None,
        text: None,
        caret: None,
        moved: None,
        posts: Posts::none(),
    }
}

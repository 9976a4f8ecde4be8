//! The looks that a call touched, and the parts of the desk that show them.

ghost use Rattle.std.specs.Prelude.{◌≡◌, []};

use scene_core::View;
use scene_model::Shape;
use shot_core::Touched;
use stack_core::Stack;
use tree_core::{Pointer, Tree};

/// Tells no look.
pub(crate) fn forget(touched: &mut Touched)
    ensures { touched.new.looks.items ≡ [] }
{
    touched.looks.clear();
}

/// What these parts of a desk show, lent for a look.
pub(crate) fn view_of<'a>(
    tree: &'a Tree,
    windows: &'a Stack,
    pointer: &'a Pointer,
    shape: Shape,
) -> View<'a>
    ensures { result ≡ record { tree = tree.entry; stack = windows.entry; pointer = pointer.entry; width = shape.width; height = shape.height } }
{
    View {
        tree,
        stack: windows,
        pointer,
        width: shape.width,
        height: shape.height,
    }
}

//! Whether the pointer holds a widget, and whether keys go to it.
ghost use Rattle.std.specs.Prelude.{◌≡◌};
ghost use Rattle.scene_core.specs.Children.{row_for};
ghost use Rattle.scene_core.specs.View.{scene_of};
ghost use Rattle.scene_model.specs.LookOf.{is_held, has_focus};
ghost use Rattle.widget_model.specs.Forest.{IsWidgets};
ghost use Rattle.widget_model.specs.Widgets.{IsLive};

use scene_core::View;
use tree_core::{Grab, Id};

/// Whether the pointer has grabbed the widget, by a press on it. See docs/GUIDE.md, "Looks".
pub fn is_held(view: &View<'_>, id: Id) -> bool
    requires widgets { IsWidgets view.now.tree.now }
    requires live { IsLive view.now.tree.now id.key }
    ensures { result ≡ is_held (scene_of view.now) (row_for view.now.tree.now id.key) }
{
    match view.pointer.grab {
        Grab::Widget { id: held } => held.key == id.key,
        _ => false,
    }
}

/// Whether keys go to the widget. See docs/GUIDE.md, "Looks".
pub fn has_focus(view: &View<'_>, id: Id) -> bool
    requires widgets { IsWidgets view.now.tree.now }
    requires live { IsLive view.now.tree.now id.key }
    ensures { result ≡ has_focus (scene_of view.now) (row_for view.now.tree.now id.key) }
{
    match view.pointer.focus {
        Some(focus) => focus.key == id.key,
        None => false,
    }
}

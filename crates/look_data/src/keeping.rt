//! Whether a widget is shown, and the look of one that is.
ghost use Rattle.std.specs.Prelude.{◌≡◌};
ghost use Rattle.std.specs.Option.{option_map};
ghost use Rattle.look_data.specs.Data.{seen_in};
ghost use Rattle.look_data.specs.Kept.{kept_in, is_shown_at};
ghost use Rattle.widget_model.specs.Forest.{IsWidgets};
ghost use Rattle.widget_model.specs.Widgets.{IsLive};

use crate::data::LookData;
use crate::looks::look_data;
use scene_core::View;
use tree_core::Id;

/// Whether the widget is shown: its root is an open window. It goes up at most 12 levels, and compares the root with the
/// open windows. See docs/MACHINE.md, "The reach of a change".
pub fn is_shown(view: &View<'_>, id: Id) -> bool
    requires { IsLive view.now.tree.now id.key }
    ensures { result ≡ is_shown_at view.now.tree.now view.now.stack.now id.key }
{
    view.stack.holds(view.tree.root(id).key)
}

/// What is kept of the number.
pub(crate) fn kept_look(view: &View<'_>, id: Id) -> Option<LookData>
    requires widgets { IsWidgets view.now.tree.now }
    ensures { option_map seen_in result ≡ kept_in view.now id.key }
{
    if !view.tree.is_live(id) {
        return None;
    }
    if !is_shown(view, id) {
        return None;
    }
    Some(look_data(view, id))
}

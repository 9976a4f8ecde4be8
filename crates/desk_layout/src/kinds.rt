//! Which kinds of widgets are laid out by themselves.

ghost use Rattle.std.specs.Prelude.{◌≡◌};
ghost use Rattle.widget_model.specs.Kinds.{is_window_kind};

use kind_core::Kind;

/// Whether the kind is Window: a widget of that kind hangs in no other, and is laid out with all that is under it. See
/// docs/MACHINE.md, "Layout".
pub fn is_window(kind: Kind) -> bool
    ensures { result ≡ is_window_kind kind }
{
    matches!(kind, Kind::Window)
}

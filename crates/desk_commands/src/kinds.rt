//! What the kinds of widgets can do.

ghost use Rattle.std.specs.Prelude.{◌≡◌, ◌&&◌};
ghost use Rattle.widget_model.specs.Trees.{has_children, can_be_child};
ghost use Rattle.widget_model.specs.Kinds.{can_link, is_variable_kind};
ghost use Rattle.desk_model.specs.PlaceOptions.{last_cell};

use kind_core::Kind;

/// The last column and row of a widget of the kind.
pub(crate) fn last_cell(kind: Kind) -> i32
    ensures { result ≡ last_cell kind }
{
    match kind {
        Kind::Grid => 16,
        _ => 1,
    }
}

/// Whether a widget of the kind has children.
fn has_children(kind: Kind) -> bool
    ensures { result ≡ has_children kind }
{
    matches!(kind, Kind::Window | Kind::Grid | Kind::Frame)
}

/// Whether a widget of the kind can hang in another.
fn can_be_child(kind: Kind) -> bool
    ensures { result ≡ can_be_child kind }
{
    !matches!(kind, Kind::Window | Kind::Variable)
}

/// Whether a widget of the one kind can hang in one of the other.
pub(crate) fn can_hang(parent: Kind, child: Kind) -> bool
    ensures { result ≡ (has_children parent && can_be_child child) }
{
    has_children(parent) && can_be_child(child)
}

/// Whether a widget of the kind shows a Variable.
pub(crate) fn can_link(kind: Kind) -> bool
    ensures { result ≡ can_link kind }
{
    matches!(
        kind,
        Kind::Label | Kind::Scale | Kind::Scrollbar | Kind::Frame
    )
}

/// Whether the kind is Variable: a widget of that kind is not shown, and others show its value. See docs/GUIDE.md, "Kinds".
pub fn is_variable(kind: Kind) -> bool
    ensures { result ≡ is_variable_kind kind }
{
    matches!(kind, Kind::Variable)
}

/// Whether a widget of the kind can be linked to one of the other kind.
pub(crate) fn can_lead(kind: Kind, other: Kind) -> bool
    ensures { result ≡ (can_link kind && is_variable_kind other) }
{
    can_link(kind) && is_variable(other)
}

//! What a kind is to the tree: how many cells it has, and which kinds have children or can be one.
ghost use Rattle.std.specs.Prelude.{◌≡◌, ◌≤◌};
ghost use Rattle.widget_model.specs.Trees.{has_children, can_be_child};
ghost use Rattle.tree_core.specs.Children.{cells_of};

use kind_core::Kind;

/// How many cells a widget of the kind has.
pub(crate) fn cells_of(kind: Kind) -> u32
    ensures count { result ≡ cells_of kind }
    ensures within { result ≤ 256 }
{
    match kind {
        Kind::Grid => 256,
        Kind::Window | Kind::Frame => 1,
        _ => 0,
    }
}

/// Whether widgets of the kind have children: true exactly for a Window, a Grid and a Frame. See docs/MACHINE.md,
/// "Widgets".
pub fn has_children(kind: Kind) -> bool
    ensures { result ≡ has_children kind }
{
    matches!(kind, Kind::Window | Kind::Grid | Kind::Frame)
}

/// Whether a widget of the kind can be a child: false exactly for a Window and a Variable. See docs/MACHINE.md,
/// "Widgets".
pub fn can_be_child(kind: Kind) -> bool
    ensures { result ≡ can_be_child kind }
{
    !matches!(kind, Kind::Window | Kind::Variable)
}

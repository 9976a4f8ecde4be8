//! What layout asks of a kind, beside `is_window` of desk_layout and `is_variable` of desk_commands.

ghost use Rattle.std.specs.Prelude.{◌≡◌};
ghost use Rattle.desk_moves.specs.Stays.{is_entry, is_frame};

use kind_core::Kind;

/// Whether the kind is Entry, whose text takes no room.
pub(crate) fn is_entry(kind: Kind) -> bool
    ensures { result ≡ is_entry kind }
{
    matches!(kind, Kind::Entry)
}

/// Whether the kind is Frame, whose offset a Variable can be.
pub(crate) fn is_frame(kind: Kind) -> bool
    ensures { result ≡ is_frame kind }
{
    matches!(kind, Kind::Frame)
}

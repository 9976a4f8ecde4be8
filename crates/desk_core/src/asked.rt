//! To which widgets an input gives values.

ghost use Rattle.std.specs.Prelude.{◌≡◌};
ghost use Rattle.std.specs.Option.{option_map};

use kind_core::Text;
use tree_core::Id;

/// The widget to whose attribute a number is given.
pub(crate) fn numbered(asked: Option<(Id, i32)>) -> Option<Id>
    ensures { result ≡ option_map (λ set. set.0) asked }
{
    match asked {
        Some((id, _)) => Some(id),
        None => None,
    }
}

/// The Entry to which a text is given.
pub(crate) fn written(asked: Option<(Id, Text)>) -> Option<Id>
    ensures { result ≡ option_map (λ set. set.0) asked }
{
    match asked {
        Some((id, _)) => Some(id),
        None => None,
    }
}

/// The Window that is moved.
pub(crate) fn moved(asked: Option<(Id, i32, i32)>) -> Option<Id>
    ensures { result ≡ option_map (λ set. set.0) asked }
{
    match asked {
        Some((id, _, _)) => Some(id),
        None => None,
    }
}

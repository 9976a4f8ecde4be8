ghost use Rattle.std.specs.Prelude.{◌≡◌, ◌<◌};
ghost use Rattle.widget_model.specs.Rows.{attr_slot, event_slot};

use kind_core::{Attr, EventKind};

/// The slot of an attribute among a row's values, from 0.
pub fn attr_slot(attr: Attr) -> usize
    ensures slot { result ≡ attr_slot attr }
    ensures within { result < 13 }
{
    match attr {
        Attr::X => 0,
        Attr::Y => 1,
        Attr::W => 2,
        Attr::H => 3,
        Attr::Title => 4,
        Attr::Text => 5,
        Attr::Caret => 6,
        Attr::Cols => 7,
        Attr::Value => 8,
        Attr::Max => 9,
        Attr::Real => 10,
        Attr::View => 11,
        Attr::Vert => 12,
    }
}

/// The slot of a kind of event among a row's bindings, from 0.
pub fn event_slot(event: EventKind) -> usize
    ensures slot { result ≡ event_slot event }
    ensures within { result < 7 }
{
    match event {
        EventKind::Press => 0,
        EventKind::Release => 1,
        EventKind::Click => 2,
        EventKind::Key => 3,
        EventKind::Change => 4,
        EventKind::Motion => 5,
        EventKind::Move => 6,
    }
}

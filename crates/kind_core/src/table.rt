ghost use Rattle.std.specs.Prelude.{◌≡◌, [], ◌&&◌, int_le};
ghost use Rattle.kind_core.specs.Attributes.{domain_of, judged, first_value, in_range};
ghost use Rattle.kind_core.specs.Events.{gives_event};

use crate::domains::Domain;
use crate::kinds::{Attr, EventKind, Kind};
use crate::texts::Text;
use crate::values::{AttrRefusal, Value};

const fn numbers(least: i32, greatest: i32, default: i32) -> Domain
    ensures { result ≡ Domain.Numbers least greatest default }
{
    Domain::Numbers {
        least,
        greatest,
        default,
    }
}

/// What the attribute of the kind takes.
fn domain_of(kind: Kind, attr: Attr) -> Domain
    ensures { result ≡ domain_of kind attr }
{
    match (kind, attr) {
        (Kind::Window, Attr::X | Attr::Y) => numbers(-1024, 1024, 0),
        (Kind::Window, Attr::W) => numbers(16, 1024, 160),
        (Kind::Window, Attr::H) => numbers(16, 1024, 120),
        (Kind::Window, Attr::Title) => Domain::Texts,
        (Kind::Frame, Attr::X | Attr::Y) => numbers(0, 4096, 0),
        (Kind::Button | Kind::Label | Kind::Entry, Attr::Text) => Domain::Texts,
        (Kind::Entry, Attr::Caret) => numbers(0, 64, 0),
        (Kind::Entry, Attr::Cols) => numbers(1, 64, 16),
        (Kind::Scale | Kind::Scrollbar, Attr::Value) => numbers(0, 10_000, 0),
        (Kind::Scale, Attr::Max) => numbers(1, 10_000, 100),
        (Kind::Scrollbar, Attr::Real) => numbers(1, 10_000, 100),
        (Kind::Scrollbar, Attr::View) => numbers(1, 10_000, 10),
        (Kind::Scale | Kind::Scrollbar, Attr::Vert) => numbers(0, 1, 0),
        (Kind::Variable, Attr::Value) => numbers(-1_000_000, 1_000_000, 0),
        _ => Domain::Absent,
    }
}

/// A text is taken by every attribute that is a text: its type says that its bytes make one.
fn takes(text: &Text) -> Result<(), AttrRefusal>
    ensures { result ≡ judged Domain.Texts (Value.Words text.now) }
{
    let _ = text.as_slice();
    Ok(())
}

/// Whether an attribute of the kind may have the value (docs/GUIDE.md, "Attributes"). Refuses with NotOfKind
/// exactly where the kind has no such attribute or the attribute has the other type, and with OutOfRange and
/// the range exactly where a number is outside it.
pub fn check(kind: Kind, attr: Attr, value: &Value) -> Result<(), AttrRefusal>
    ensures { result ≡ judged (domain_of kind attr) value.now }
{
    match (domain_of(kind, attr), value) {
        (
            Domain::Numbers {
                least,
                greatest,
                ..
            },
            Value::Number(n),
        ) => {
            if least <= *n && *n <= greatest {
                Ok(())
            } else {
                Err(AttrRefusal::OutOfRange { least, greatest })
            }
        }
        (Domain::Texts, Value::Words(text)) => takes(text),
        _ => Err(AttrRefusal::NotOfKind),
    }
}

/// The value that an attribute of the kind has at first. None exactly where the kind has no such attribute.
pub fn default_of(kind: Kind, attr: Attr) -> Option<Value>
    ensures { result ≡ first_value (domain_of kind attr) }
{
    match domain_of(kind, attr) {
        Domain::Numbers { default, .. } => Some(Value::Number(default)),
        Domain::Texts => Some(Value::Words(Text::empty())),
        Domain::Absent => None,
    }
}

/// Whether the kind gives events of this kind.
pub fn gives(kind: Kind, event: EventKind) -> bool
    ensures { result ≡ gives_event kind event }
{
    match kind {
        Kind::Window => event == EventKind::Move,
        Kind::Button => matches!(
            event,
            EventKind::Press | EventKind::Release | EventKind::Click
        ),
        Kind::Entry => matches!(event, EventKind::Key | EventKind::Change),
        Kind::Scale | Kind::Scrollbar => event == EventKind::Change,
        Kind::VScreen => matches!(
            event,
            EventKind::Press | EventKind::Release | EventKind::Motion | EventKind::Key
        ),
        Kind::Grid | Kind::Frame | Kind::Label | Kind::Variable => false,
    }
}

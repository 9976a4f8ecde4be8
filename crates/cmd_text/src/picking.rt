//! The words that are read, and what each means.
ghost use Rattle.std.specs.Prelude.{◌≡◌, [], ◌∷◌};
ghost use Rattle.cmd_words.specs.Words.{kind_word, attr_word, event_word, place_word, config_word, method_word};
ghost use Rattle.cmd_text.specs.Reading.{Gives};
ghost use Rattle.cmd_text.specs.ReadingWords.{pick_at, all_methods, all_kinds, all_attrs, all_events, all_place_options, all_config_options, kind_at, attr_at, event_at, place_option_at, config_option_at, method_at};

use crate::reading::expect;
use cmd_words::{ConfigOption, Method, PlaceOption, Word};
use kind_core::{Attr, EventKind, Kind};

/// One of some words, or how many bytes are left after the longest front that one of them shares.
fn pick<'a, W: Word>(all: &[W], bytes: &'a [u8]) -> Result<(W, &'a [u8]), usize>
    ensures { Gives (λ x. (x.0, x.1.now)) result (pick_at W.spelling all.now bytes.now) }
{
    match all {
        [] => Err(bytes.len()),
        [first, others @ ..] => match expect(first.word(), bytes) {
            Ok(rest) => Ok((*first, rest)),
            Err(left) => match pick(others, bytes) {
                Ok(found) => Ok(found),
                Err(other) => Err(left.min(other)),
            },
        },
    }
}

/// The word of a kind.
#[tactic(auto, unfolding(crate::specs::ReadingWords::kind_at))]
pub(crate) fn kind(bytes: &[u8]) -> Result<(Kind, &[u8]), usize>
    ensures { Gives (λ x. (x.0, x.1.now)) result (kind_at bytes.now) }
{
    let all = [
        Kind::Window,
        Kind::Grid,
        Kind::Frame,
        Kind::Button,
        Kind::Label,
        Kind::Entry,
        Kind::Scale,
        Kind::Scrollbar,
        Kind::Variable,
        Kind::VScreen,
    ];
    pick(&all, bytes)
}

/// The word of an attribute.
#[tactic(auto, unfolding(crate::specs::ReadingWords::attr_at))]
pub(crate) fn attr(bytes: &[u8]) -> Result<(Attr, &[u8]), usize>
    ensures { Gives (λ x. (x.0, x.1.now)) result (attr_at bytes.now) }
{
    let all = [
        Attr::X,
        Attr::Y,
        Attr::W,
        Attr::H,
        Attr::Title,
        Attr::Text,
        Attr::Caret,
        Attr::Cols,
        Attr::Value,
        Attr::Max,
        Attr::Real,
        Attr::View,
        Attr::Vert,
    ];
    pick(&all, bytes)
}

/// The word of an event.
#[tactic(auto, unfolding(crate::specs::ReadingWords::event_at))]
pub(crate) fn event(bytes: &[u8]) -> Result<(EventKind, &[u8]), usize>
    ensures { Gives (λ x. (x.0, x.1.now)) result (event_at bytes.now) }
{
    let all = [
        EventKind::Press,
        EventKind::Release,
        EventKind::Click,
        EventKind::Key,
        EventKind::Change,
        EventKind::Motion,
        EventKind::Move,
    ];
    pick(&all, bytes)
}

/// The word of an option of `place`.
#[tactic(auto, unfolding(crate::specs::ReadingWords::place_option_at))]
pub(crate) fn place_option(bytes: &[u8]) -> Result<(PlaceOption, &[u8]), usize>
    ensures { Gives (λ x. (x.0, x.1.now)) result (place_option_at bytes.now) }
{
    let all = [PlaceOption::Column, PlaceOption::Row, PlaceOption::Pad];
    pick(&all, bytes)
}

/// The word of an option of `columnconfig` and `rowconfig`.
#[tactic(auto, unfolding(crate::specs::ReadingWords::config_option_at))]
pub(crate) fn config_option(bytes: &[u8]) -> Result<(ConfigOption, &[u8]), usize>
    ensures { Gives (λ x. (x.0, x.1.now)) result (config_option_at bytes.now) }
{
    let all = [ConfigOption::Size, ConfigOption::Weight];
    pick(&all, bytes)
}

/// The word of a method.
#[tactic(auto, unfolding(crate::specs::ReadingWords::method_at))]
pub(crate) fn method(bytes: &[u8]) -> Result<(Method, &[u8]), usize>
    ensures { Gives (λ x. (x.0, x.1.now)) result (method_at bytes.now) }
{
    let all = [
        Method::Set,
        Method::Get,
        Method::Place,
        Method::Lift,
        Method::ColumnConfig,
        Method::RowConfig,
        Method::Link,
        Method::Unlink,
        Method::Bind,
        Method::Unbind,
        Method::Open,
        Method::Close,
        Method::Top,
        Method::Mode,
        Method::Admit,
        Method::Leave,
        Method::Frame,
        Method::Drop,
    ];
    pick(&all, bytes)
}

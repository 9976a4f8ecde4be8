//! Whether a kept look is this one of its kind.
ghost use Rattle.std.specs.Prelude.{◌≡◌, ◌≤◌, ◌+◌, ◌++◌, [], length};
ghost use Rattle.kind_core.specs.Effective.{label_text};
ghost use Rattle.look_core.specs.Seen.{window, grid, frame, button, label, entry, scale, scrollbar, film, no_film};
ghost use Rattle.look_core.specs.Same.{same_look, same_flag};
ghost use Rattle.look_data.specs.Data.{seen_in};

use crate::data::LookData;
use arrayvec::ArrayVec;
use itoa::Buffer;
use kind_core::Text;

/// Whether both hold, or neither.
fn is_same_flag(one: bool, other: bool) -> bool
    ensures { result ≡ same_flag one other }
{
    if one { other } else { !other }
}

/// Whether it is a Window's with this title.
#[tactic(auto, unfolding(look_core::specs::Same::same_look))]
pub(crate) fn is_window(look: &LookData, title: &Text) -> bool
    ensures { result ≡ same_look (window title.now) (seen_in look.now) }
{
    match look {
        LookData::Window { title: other } => *title == *other,
        _ => false,
    }
}

/// Whether it is a Grid's.
#[tactic(auto, unfolding(look_core::specs::Same::same_look))]
pub(crate) fn is_grid(look: &LookData) -> bool
    ensures { result ≡ same_look grid (seen_in look.now) }
{
    match look {
        LookData::Grid => true,
        _ => false,
    }
}

/// Whether it is a Frame's.
#[tactic(auto, unfolding(look_core::specs::Same::same_look))]
pub(crate) fn is_frame(look: &LookData) -> bool
    ensures { result ≡ same_look frame (seen_in look.now) }
{
    match look {
        LookData::Frame => true,
        _ => false,
    }
}

/// Whether it is a Button's with this text, held or not.
#[tactic(auto, unfolding(look_core::specs::Same::same_look))]
pub(crate) fn is_button(look: &LookData, text: &Text, held: bool) -> bool
    ensures { result ≡ same_look (button text.now held) (seen_in look.now) }
{
    match look {
        LookData::Button {
            text: other,
            held: other_held,
        } => *text == *other && is_same_flag(held, *other_held),
        _ => false,
    }
}

/// Puts the bytes at the end of a Label's text.
fn put_bytes(shown: &mut ArrayVec<u8, 75>, bytes: &[u8])
    requires { length shown.old.items + length bytes.now ≤ 75 }
    ensures { shown.new.items ≡ shown.old.items ++ bytes.now }
{
    for byte in bytes {
        shown.push(*byte);
    }
}

/// What a Label shows, in a room of its own: its text and then the number in decimal, where there is one. See
/// docs/GUIDE.md, "Looks".
pub fn label_text(text: &Text, number: Option<i32>) -> ArrayVec<u8, 75>
    ensures { result.items ≡ label_text text.now number }
{
    let mut shown = ArrayVec::new();
    put_bytes(&mut shown, text.as_slice());
    match number {
        Some(number) => {
            let mut buffer = Buffer::new();
            put_bytes(&mut shown, buffer.format(number).as_bytes());
        }
        None => {}
    }
    shown
}

/// Whether it is a Label's that shows the same bytes as this text and number.
#[tactic(auto, unfolding(look_core::specs::Same::same_look))]
pub(crate) fn is_label(look: &LookData, text: &Text, number: Option<i32>) -> bool
    ensures { result ≡ same_look (label (label_text text.now number)) (seen_in look.now) }
{
    match look {
        LookData::Label {
            text: other,
            number: other_number,
        } => label_text(text, number).as_slice() == label_text(other, *other_number).as_slice(),
        _ => false,
    }
}

/// Whether it is an Entry's with this text, caret and focus.
#[tactic(auto, unfolding(look_core::specs::Same::same_look))]
pub(crate) fn is_entry(look: &LookData, text: &Text, caret: u32, focus: bool) -> bool
    ensures { result ≡ same_look (entry text.now caret focus) (seen_in look.now) }
{
    match look {
        LookData::Entry {
            text: other,
            caret: other_caret,
            focus: other_focus,
        } => *text == *other && caret == *other_caret && is_same_flag(focus, *other_focus),
        _ => false,
    }
}

/// Whether it is a Scale's with these numbers, way and hold.
#[tactic(auto, unfolding(look_core::specs::Same::same_look))]
pub(crate) fn is_scale(look: &LookData, value: u32, max: u32, vert: bool, held: bool) -> bool
    ensures { result ≡ same_look (scale value max vert held) (seen_in look.now) }
{
    match look {
        LookData::Scale {
            value: other,
            max: other_max,
            vert: other_vert,
            held: other_held,
        } => {
            value == *other
                && max == *other_max
                && is_same_flag(vert, *other_vert)
                && is_same_flag(held, *other_held)
        }
        _ => false,
    }
}

/// Whether it is a Scrollbar's with these numbers, way and hold.
#[tactic(auto, unfolding(look_core::specs::Same::same_look))]
pub(crate) fn is_scrollbar(
    look: &LookData,
    value: u32,
    real: u32,
    view: u32,
    vert: bool,
    held: bool,
) -> bool
    ensures { result ≡ same_look (scrollbar value real view vert held) (seen_in look.now) }
{
    match look {
        LookData::Scrollbar {
            value: other,
            real: other_real,
            view: other_view,
            vert: other_vert,
            held: other_held,
        } => {
            value == *other
                && real == *other_real
                && view == *other_view
                && is_same_flag(vert, *other_vert)
                && is_same_flag(held, *other_held)
        }
        _ => false,
    }
}

/// Whether it is a VScreen's with a film of this size.
#[tactic(auto, unfolding(look_core::specs::Same::same_look))]
pub(crate) fn is_film(look: &LookData, width: u32, height: u32) -> bool
    ensures { result ≡ same_look (film width height []) (seen_in look.now) }
{
    match look {
        LookData::Film {
            width: other_width,
            height: other_height,
        } => width == *other_width && height == *other_height,
        _ => false,
    }
}

/// Whether it is that of no film.
#[tactic(auto, unfolding(look_core::specs::Same::same_look))]
pub(crate) fn is_no_film(look: &LookData) -> bool
    ensures { result ≡ same_look no_film (seen_in look.now) }
{
    match look {
        LookData::NoFilm => true,
        _ => false,
    }
}

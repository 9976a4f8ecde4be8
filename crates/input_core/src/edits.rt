//! What a key does to an Entry's text and caret, and where a press puts the caret.

ghost use Rattle.std.specs.Prelude.{◌≡◌, ◌≤◌, ◌<◌, ◌-◌, ◌+◌, length, IsTrue, IfSome};
ghost use Rattle.std.specs.List.{insert, remove};
ghost use Rattle.std.specs.Option.{option_map};
ghost use Rattle.kind_core.specs.Bytes.{is_printable, is_text};
ghost use Rattle.desk_model.specs.InputEdits.{edit_of, caret_at};
ghost use Rattle.input_core.specs.Edited.{edit_seen};

use arrayvec::ArrayVec;
use kind_core::{Text, text_from};

/// An edit of an Entry.
#[derive(Clone, Copy, Debug)]
pub(crate) struct Edit {
    /// The text after it, None where it stays.
    pub(crate) text: Option<Text>,
    /// Where the caret is after it.
    pub(crate) caret: u32,
}

/// The bytes of a text, to be edited.
fn bytes_of(text: &Text) -> ArrayVec<u8, 64>
    ensures bytes { result.items ≡ text.now }
    ensures text { IsTrue (is_text result.items) }
{
    let mut bytes: ArrayVec<u8, 64> = ArrayVec::new();
    for byte in text.as_slice() {
        bytes.push(*byte);
    }
    bytes
}

/// The text with the byte put at the caret.
fn typed(byte: u8, text: &Text, caret: u32) -> Text
    requires prints { IsTrue (is_printable byte) }
    requires room { length text.now < 64 }
    requires caret { caret ≤ length text.now }
    ensures { result ≡ insert text.now caret byte }
{
    let mut bytes = bytes_of(text);
    bytes.insert(caret as usize, byte);
    text_from(bytes.as_slice()).unwrap()
}

/// The text without the byte before the caret.
fn erased(text: &Text, caret: u32) -> Text
    requires some { 0 < caret }
    requires caret { caret ≤ length text.now }
    ensures { result ≡ remove text.now (caret - 1) }
{
    let mut bytes = bytes_of(text);
    let _byte = bytes.remove(caret as usize - 1);
    text_from(bytes.as_slice()).unwrap()
}

/// Whether the byte prints.
fn is_printable(byte: u8) -> bool
    ensures { result ≡ is_printable byte }
{
    matches!(byte, b' '..=b'~')
}

/// The edit that a key's byte makes of a text with its caret, None exactly where it makes none (docs/MACHINE.md,
/// "Input").
#[tactic(auto, unfolding(desk_model::specs::InputEdits::edit_of))]
pub(crate) fn edit_of(byte: u8, text: &Text, caret: u32) -> Option<Edit>
    requires { caret ≤ length text.now }
    ensures small { IfSome result (λ edit. edit.caret ≤ 64) }
    ensures edit { option_map edit_seen result ≡ edit_of byte text.now caret }
{
    let length = text.as_slice().len() as u32;
    if is_printable(byte) && length < 64 {
        return Some(Edit {
            text: Some(typed(byte, text, caret)),
            caret: caret + 1,
        });
    }
    if byte == 8 && 0 < caret {
        return Some(Edit {
            text: Some(erased(text, caret)),
            caret: caret - 1,
        });
    }
    if byte == 2 && 0 < caret {
        return Some(Edit {
            text: None,
            caret: caret - 1,
        });
    }
    if byte == 6 && caret < length {
        return Some(Edit {
            text: None,
            caret: caret + 1,
        });
    }
    None
}

/// Where a press at the local column u puts the caret of a text of that length (docs/MACHINE.md, "Input").
#[tactic(auto, unfolding(desk_model::specs::InputEdits::caret_at))]
pub(crate) fn caret_at(u: i32, length: u32) -> u32
    ensures caret { result ≡ caret_at u length }
    ensures within { result ≤ length }
{
    if u < 2 {
        return 0;
    }
    length.min((u - 2) as u32 / 6)
}

//! Pieces of printed commands and replies. Each is put at the end of a text that has room for it.
ghost use Rattle.std.specs.Prelude.{◌≡◌, ◌+◌, ◌*◌, ◌≤◌, ◌++◌, length, IsTrue};
ghost use Rattle.std.specs.List.{list_all, flat_map};
ghost use Rattle.std.specs.Fmt.{decimal, signed_decimal};
ghost use Rattle.arrayvec.specs.ArrayString.{array_string_len};
ghost use Rattle.kind_core.specs.Bytes.{is_printable};
ghost use Rattle.cmd_words.specs.Productions.{character};
ghost use Rattle.cmd_print.specs.Printed.{quoted};

use arrayvec::ArrayString;
use cmd_words::Word;
use itoa::Buffer;
use kind_core::{Name, Text};

/// Puts bytes that print.
pub(crate) fn put_bytes<const CAP: usize>(text: &mut ArrayString<CAP>, bytes: &[u8])
    requires room { array_string_len text.old + length bytes.now ≤ CAP }
    requires prints { IsTrue (list_all is_printable bytes.now) }
    ensures bytes { text.new.bytes ≡ text.old.bytes ++ bytes.now }
    ensures len { array_string_len text.new ≡ array_string_len text.old + length bytes.now }
{
    for byte in bytes {
        text.push(char::from(*byte));
    }
}

/// Puts a name.
#[tactic(auto, using(crate::proofs::NameBytes::name_prints))]
pub(crate) fn put_name<const CAP: usize>(text: &mut ArrayString<CAP>, name: Name)
    requires { array_string_len text.old + 16 ≤ CAP }
    ensures bytes { text.new.bytes ≡ text.old.bytes ++ name }
    ensures len { array_string_len text.new ≤ array_string_len text.old + 16 }
{
    put_bytes(text, name.as_slice());
}

/// Puts a word.
pub(crate) fn put_word<W: Word, const CAP: usize>(text: &mut ArrayString<CAP>, word: W)
    requires { array_string_len text.old + 12 ≤ CAP }
    ensures bytes { text.new.bytes ≡ text.old.bytes ++ W.spelling word }
    ensures len { array_string_len text.new ≤ array_string_len text.old + 12 }
{
    put_bytes(text, word.word());
}

/// Puts a number in decimal, `-` before a negative one.
pub(crate) fn put_number<const CAP: usize>(text: &mut ArrayString<CAP>, n: i32)
    requires { array_string_len text.old + 11 ≤ CAP }
    ensures bytes { text.new.bytes ≡ text.old.bytes ++ signed_decimal n }
    ensures len { array_string_len text.new ≤ array_string_len text.old + 11 }
{
    let mut buffer = Buffer::new();
    text.push_str(buffer.format(n));
}

/// Puts a count in decimal.
pub(crate) fn put_count<const CAP: usize>(text: &mut ArrayString<CAP>, n: u32)
    requires { array_string_len text.old + 10 ≤ CAP }
    ensures bytes { text.new.bytes ≡ text.old.bytes ++ decimal n }
    ensures len { array_string_len text.new ≤ array_string_len text.old + 10 }
{
    let mut digits = Buffer::new();
    text.push_str(digits.format(n));
}

/// Puts a text in quotes, with a `\` before each quote and each `\`.
pub(crate) fn put_quoted<const CAP: usize>(text: &mut ArrayString<CAP>, words: &Text)
    requires { array_string_len text.old + 130 ≤ CAP }
    ensures bytes { text.new.bytes ≡ text.old.bytes ++ quoted words.now }
    ensures len { array_string_len text.new ≤ array_string_len text.old + 130 }
{
    text.push_str("\"");
    put_characters(text, words.as_slice());
    text.push_str("\"");
}

/// Puts the characters of a text.
fn put_characters<const CAP: usize>(text: &mut ArrayString<CAP>, bytes: &[u8])
    requires room { array_string_len text.old + 2 * length bytes.now ≤ CAP }
    requires prints { IsTrue (list_all is_printable bytes.now) }
    ensures bytes { text.new.bytes ≡ text.old.bytes ++ flat_map character bytes.now }
    ensures len { array_string_len text.new ≤ array_string_len text.old + 2 * length bytes.now }
{
    for byte in bytes {
        put_character(text, *byte);
    }
}

/// Puts one character of a text.
fn put_character<const CAP: usize>(text: &mut ArrayString<CAP>, byte: u8)
    requires room { array_string_len text.old + 2 ≤ CAP }
    requires prints { IsTrue (is_printable byte) }
    ensures bytes { text.new.bytes ≡ text.old.bytes ++ character byte }
    ensures len { array_string_len text.new ≤ array_string_len text.old + 2 }
{
    if byte == b'"' || byte == b'\\' {
        text.push('\\');
    }
    text.push(char::from(byte));
}

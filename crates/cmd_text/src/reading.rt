//! The small parts of a line. Each reader answers what it read and the bytes after it, or how many bytes
//! were left where it had to stop.
ghost use Rattle.std.specs.Prelude.{◌≡◌, ◌≤◌, ◌+◌, ◌-◌, ◌*◌, ◌^◌, ◌∷◌, [], pos, ◌<◌, ◌==◌, length, IfOk, IsTrue, codes};
ghost use Rattle.cmd_words.specs.Productions.{is_space, number_of};
ghost use Rattle.cmd_text.specs.Reading.{Gives, class_test, minus, expect_at, skip_at, skip_some_at, run_len, begins_with, name_at, count_at, number_at};
ghost use Rattle.cmd_text.specs.ReadingOptions.{escaped_char_at, char_at, chars_at, text_at, value_at};
ghost use Rattle.cmd_text.specs.ReadingLines.{end_at};
ghost use Rattle.kind_core.specs.Bytes.{is_name, is_text, is_letter, is_digit, is_name_byte, is_printable};

use arrayvec::ArrayVec;
use kind_core::{Name, Text, Value, name_from, text_from};

/// The bytes of a word, one after another.
pub(crate) fn expect<'a>(word: &[u8], bytes: &'a [u8]) -> Result<&'a [u8], usize>
    ensures { Gives (λ x. x.now) result (expect_at word.now bytes.now) }
{
    match word {
        [] => Ok(bytes),
        [first, others @ ..] => match bytes {
            [byte, rest @ ..] if byte == first => expect(others, rest),
            _ => Err(bytes.len()),
        },
    }
}

/// What is after the spaces.
pub(crate) fn skip(bytes: &[u8]) -> &[u8]
    ensures { result.now ≡ skip_at bytes.now }
{
    let mut rest = bytes;
    while let [b' ', after @ ..] = rest {
        rest = after;
    }
    rest
}

/// What is after one or more spaces.
pub(crate) fn skip_some(bytes: &[u8]) -> Result<&[u8], usize>
    ensures { Gives (λ x. x.now) result (skip_some_at bytes.now) }
{
    let rest = expect(b" ", bytes)?;
    Ok(skip(rest))
}

/// Whether the first byte is this one.
pub(crate) fn begins(byte: u8, bytes: &[u8]) -> bool
    ensures { result ≡ begins_with (λ b. b == byte) bytes.now }
{
    match bytes {
        [first, ..] => *first == byte,
        [] => false,
    }
}

/// The bytes that may go on in a name or in a number.
#[derive(Clone, Copy)]
pub(crate) enum Class {
    NameByte,
    Digit,
}

/// Whether the byte is of the class.
fn passes(class: Class, byte: u8) -> bool
    ensures { result ≡ class_test class byte }
{
    match class {
        Class::NameByte => matches!(byte, b'A'..=b'Z' | b'a'..=b'z' | b'0'..=b'9' | b'_'),
        Class::Digit => matches!(byte, b'0'..=b'9'),
    }
}

/// Whether the byte is a letter.
fn is_letter(byte: u8) -> bool
    ensures { result ≡ is_letter byte }
{
    matches!(byte, b'A'..=b'Z' | b'a'..=b'z')
}

/// How many bytes at the front are of the class, at most `limit`.
fn run(class: Class, limit: usize, bytes: &[u8]) -> usize
    ensures length { result ≡ run_len (class_test class) limit bytes.now }
    ensures within { result ≤ length bytes.now }
    ensures short { result ≤ limit }
{
    match bytes {
        [first, rest @ ..] if limit > 0 && passes(class, *first) => 1 + run(class, limit - 1, rest),
        _ => 0,
    }
}

/// The name of these bytes.
fn name_of(bytes: &[u8]) -> Name
    requires { IsTrue (is_name bytes.now) }
    ensures { result ≡ bytes.now }
{
    match name_from(bytes) {
        Some(name) => name,
        None => unreachable!(),
    }
}

/// A name: a letter, and then up to 15 letters, digits or `_`.
#[tactic(auto, unfolding(crate::specs::Reading::name_at))]
pub(crate) fn name(bytes: &[u8]) -> Result<(Name, &[u8]), usize>
    ensures { Gives (λ x. (x.0, x.1.now)) result (name_at bytes.now) }
{
    match bytes {
        [first, others @ ..] if is_letter(*first) => {
            let len = run(Class::NameByte, 15, others);
            let (_, rest) = others.split_at(len);
            let (front, _) = bytes.split_at(len + 1);
            Ok((name_of(front), rest))
        }
        _ => Err(bytes.len()),
    }
}

/// The number that goes on with these digits, of which there are at most 6.
fn number_after(first: u8, digits: &[u8]) -> u32
    requires { length digits.now ≤ 6 }
    ensures number { result ≡ number_of (first ∷ digits.now) }
    ensures small { result < 2 ^ 30 }
{
    let mut number = u32::from(first.saturating_sub(b'0'));
    for digit in digits {
        number = number * 10 + u32::from(digit.saturating_sub(b'0'));
    }
    number
}

/// 1 to 7 digits.
#[tactic(auto, unfolding(crate::specs::Reading::count_at))]
pub(crate) fn count(bytes: &[u8]) -> Result<(u32, &[u8]), usize>
    ensures count { Gives (λ x. (x.0, x.1.now)) result (count_at bytes.now) }
    ensures small { IfOk result (λ x. x.0 < 2 ^ 30) }
{
    match bytes {
        [first, others @ ..] if passes(Class::Digit, *first) => {
            let len = run(Class::Digit, 6, others);
            let (digits, rest) = others.split_at(len);
            Ok((number_after(*first, digits), rest))
        }
        _ => Err(bytes.len()),
    }
}

/// The number itself.
fn positive(n: u32) -> i32
    requires { n < 2 ^ 30 }
    ensures { result ≡ pos n }
{
    n as i32
}

/// The number with a `-` before it.
fn negative(n: u32) -> i32
    requires { n < 2 ^ 30 }
    ensures { result ≡ minus n }
{
    -(n as i32)
}

/// 1 to 7 digits with or without a `-` before them.
#[tactic(auto, unfolding(crate::specs::Reading::number_at))]
pub(crate) fn number(bytes: &[u8]) -> Result<(i32, &[u8]), usize>
    ensures { Gives (λ x. (x.0, x.1.now)) result (number_at bytes.now) }
{
    if begins(b'-', bytes) {
        let rest = expect(b"-", bytes)?;
        let (n, rest) = count(rest)?;
        Ok((negative(n), rest))
    } else {
        let (n, rest) = count(bytes)?;
        Ok((positive(n), rest))
    }
}

/// Whether the byte prints.
fn is_printable(byte: u8) -> bool
    ensures { result ≡ is_printable byte }
{
    matches!(byte, b' '..=b'~')
}

/// After a `\`: the quote or `\` that it stands before.
fn escaped(bytes: &[u8]) -> Result<(u8, &[u8]), usize>
    ensures read { Gives (λ x. (x.0, x.1.now)) result (escaped_char_at bytes.now) }
    ensures prints { IfOk result (λ x. IsTrue (is_printable x.0)) }
{
    match bytes {
        [byte, rest @ ..] if *byte == b'"' || *byte == b'\\' => Ok((*byte, rest)),
        _ => Err(bytes.len()),
    }
}

/// One character of a text that is no quote.
fn character(bytes: &[u8]) -> Result<(u8, &[u8]), usize>
    ensures read { Gives (λ x. (x.0, x.1.now)) result (char_at bytes.now) }
    ensures prints { IfOk result (λ x. IsTrue (is_printable x.0)) }
{
    match bytes {
        [first, rest @ ..] if *first == b'\\' => escaped(rest),
        [first, rest @ ..] if is_printable(*first) => Ok((*first, rest)),
        _ => Err(bytes.len()),
    }
}

/// The text of these bytes.
fn text_of(bytes: &[u8]) -> Text
    requires { IsTrue (is_text bytes.now) }
    ensures { result ≡ bytes.now }
{
    match text_from(bytes) {
        Some(text) => text,
        None => unreachable!(),
    }
}

/// Up to 64 characters, and the quote behind them.
fn characters(bytes: &[u8]) -> Result<(Text, &[u8]), usize>
    ensures { Gives (λ x. (x.0, x.1.now)) result (chars_at 64 [] bytes.now) }
{
    let mut front: ArrayVec<u8, 64> = ArrayVec::new();
    let mut rest = bytes;
    loop {
        if begins(b'"', rest) {
            let (_, after) = rest.split_at(1);
            return Ok((text_of(front.as_slice()), after));
        }
        if front.is_full() {
            return Err(rest.len());
        }
        match character(rest) {
            Ok((byte, after)) => {
                front.push(byte);
                rest = after;
            }
            Err(left) => return Err(left),
        }
    }
}

/// A text in quotes.
#[tactic(auto, unfolding(crate::specs::ReadingOptions::text_at))]
pub(crate) fn text(bytes: &[u8]) -> Result<(Text, &[u8]), usize>
    ensures { Gives (λ x. (x.0, x.1.now)) result (text_at bytes.now) }
{
    let rest = expect(b"\"", bytes)?;
    characters(rest)
}

/// A text in quotes or a number.
#[tactic(auto, unfolding(crate::specs::ReadingOptions::value_at))]
pub(crate) fn value(bytes: &[u8]) -> Result<(Value, &[u8]), usize>
    ensures { Gives (λ x. (x.0, x.1.now)) result (value_at bytes.now) }
{
    if begins(b'"', bytes) {
        match text(bytes) {
            Ok((words, rest)) => Ok((Value::Words(words), rest)),
            Err(left) => Err(left),
        }
    } else {
        let (n, rest) = number(bytes)?;
        Ok((Value::Number(n), rest))
    }
}

//! Numbers in words.
ghost use Rattle.std.specs.Prelude.{◌≡◌};
ghost use Rattle.command_line.specs.Numbers.{number_read};

use cmd_text::count_from;

/// The number that the word writes, where it is 1 to 7 digits and from `least` to `greatest`; else None.
pub(crate) fn number_read(least: u32, greatest: u32, word: &[u8]) -> Option<u32>
    ensures { result ≡ number_read least greatest word.now }
{
    let number = match count_from(word) {
        Some(number) => number,
        None => return None,
    };
    if number < least {
        return None;
    }
    if greatest < number {
        return None;
    }
    Some(number)
}
